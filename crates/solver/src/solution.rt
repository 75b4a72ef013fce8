//! The answer of a solve.
ghost use Rattle.std.specs.Prelude.{◌≡◌, ◌≤◌, ◌-◌, false, map, drop, replicate};
ghost use Rattle.number.specs.Number.{finite};
ghost use Rattle.number.specs.Meaning.{meaning};

use turns::Payoffs;

/// The labels of a play's actions, first to last: the first `count` of the numbers, and 0 after them.
// A count beside the numbers, as the C struct has them.
#[derive(Clone, Copy)]
pub struct Labels {
    pub count: usize,
    pub numbers: [u32; 64],
    pub ghost few: { count ≤ 64 },
    pub ghost unused: { drop count numbers ≡ replicate (64 - count) 0 },
}

/// A solution: the terminal where its play ends, or none where it meets a chance node; the labels of its actions; the payoffs, with 0 after them.
#[derive(Clone, Copy)]
pub struct Solution {
    pub terminal: Option<u32>,
    pub labels: Labels,
    pub payoffs: Payoffs,
    pub ghost unused: { map meaning (drop payoffs.count payoffs.values) ≡ replicate (8 - payoffs.count) (finite false 0) },
}

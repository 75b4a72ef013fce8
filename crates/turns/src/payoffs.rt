//! The payoffs of an answer, and the weighted sums of a chance node.
ghost use Rattle.std.specs.Prelude.{◌≡◌, ◌≤◌, ◌-◌, false, Option, option_map, slice_get, map, drop, replicate};
ghost use mathlib.Core.List.{zip_with};
ghost use Rattle.answer.specs.Checks.{map_ok};
ghost use Rattle.number.specs.Number.{plus, finite};
ghost use Rattle.number.specs.Meaning.{meaning};
ghost use Rattle.backward_induction.specs.Solve.{products, all_finite};
ghost use Rattle.backward_induction.specs.Turns.{added_to};

use answer::Refusal;
use number::Weighted;

/// The payoffs of the players from 0 on: the first `count` of the values. Those of a sum may be out of range.
// A count beside the values, since all eight are weighed and added at once.
#[derive(Clone, Copy)]
pub struct Payoffs {
    pub count: usize,
    pub values: [f64; 8],
    pub ghost few: { count ≤ 8 },
}

impl Payoffs {
    ghost use Rattle.turns.specs.Payoffs.{payoffs_of};

    /// The payoff of a player, where there is one.
    pub fn at(&self, player: usize) -> Option<f64>
        ensures { option_map meaning result ≡ slice_get (payoffs_of self.now) player }
    {
        if player < self.count {
            Some(self.values[player])
        } else {
            None
        }
    }

    /// Each payoff's product with a probability. All eight are made, of which the first so many count.
    fn weighed(self, probability: f64) -> Payoffs
        ensures products { payoffs_of result ≡ products (meaning probability) (payoffs_of self) }
        ensures as_many { result.count ≡ self.count }
    {
        let count = self.count;
        let mut values = self.values;
        for x in values.iter_mut() {
            *x = number::weigh(probability, *x);
        }
        Payoffs { count, values }
    }

    /// The payoffs added one by one.
    fn plus(self, more: Payoffs) -> Payoffs
        requires { more.count ≡ self.count }
        ensures { payoffs_of result ≡ zip_with plus (payoffs_of self) (payoffs_of more) }
    {
        let count = self.count;
        let mut values = self.values;
        for (i, x) in values.iter_mut().enumerate() {
            *x = number::add(*x, more.values[i]);
        }
        Payoffs { count, values }
    }

    /// Whether each payoff is a finite number.
    pub fn is_in_range(&self) -> bool
        ensures { result ≡ all_finite (payoffs_of self.now) }
    {
        for x in &self.values[..self.count] {
            if let Weighted::OutOfRange = number::in_range(*x) {
                return false;
            }
        }
        true
    }

    /// The same payoffs, with 0 after them.
    pub fn cleared(self) -> Payoffs
        ensures same { payoffs_of result ≡ payoffs_of self }
        ensures as_many { result.count ≡ self.count }
        ensures after { map meaning (drop result.count result.values) ≡ replicate (8 - result.count) (finite false 0) }
    {
        let count = self.count;
        let mut values = self.values;
        values[count..].fill(0.0);
        Payoffs { count, values }
    }

    /// One more outcome's products on the sums so far: refused where it has another number of payoffs than those before it.
    pub fn added(
        entity: u32,
        sums: Option<Payoffs>,
        probability: f64,
        payoffs: Payoffs,
    ) -> Result<Payoffs, Refusal>
        ensures { map_ok payoffs_of result ≡ added_to entity (option_map payoffs_of sums) (meaning probability) (payoffs_of payoffs) }
    {
        let products = payoffs.weighed(probability);
        let Some(sums) = sums else {
            return Ok(products);
        };
        if payoffs.count != sums.count {
            return Err(Refusal::InconsistentChancePayoffCount {
                entity,
                expected: sums.count,
                actual: payoffs.count,
            });
        }
        Ok(sums.plus(products))
    }
}

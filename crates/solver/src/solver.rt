//! The solve of a node by what it is: a decision solves its replies and a chance node its outcomes, and the remaining depth falls.
ghost use Rattle.std.specs.Prelude.{◌≡◌, ℕ, ◌+◌, ◌^◌, ◌<◌, ◌≤◌, true, false, Err, Some, IfOk, IfErr, length, slice_get, slice_set};
ghost use Rattle.layout.specs.Layout.{row_count, field};
ghost use Rattle.layout.specs.declared.section.Section.TheVariants.{Nodes};
ghost use Rattle.game.specs.declared.Kind.TheVariants as Kinds;
ghost use Rattle.sheet.specs.Found.{NodeAt};
ghost use Rattle.memo.specs.Kept.{IsUnknown, IsKept, IsMemo, IsRight, Stays};
ghost use Rattle.turns.specs.Plays.{actions_from};
ghost use Rattle.solver.specs.Tasks.{bytes_of, solved, told_of, actions_at, Answered, solution_in};
ghost use Rattle.solver.specs.Kinds.{GoesBy};
ghost use Rattle.solver.specs.Solutions.{labels_of, solution_of};

use crate::solution::{Labels, Solution};
use crate::task::Task;
use answer::Refusal;
use backward_induction::Method;
use game::{ActionEdge, ChanceOutcome, Kind};
use memo::Kept;
use turns::{Payoffs, Play, Reply, better};

/// A solve: what is asked, and a row for each node with its answer once it is known, lent by the caller.
#[derive(Drop)]
pub struct Solver<'a> {
    pub task: &'a Task<'a>,
    pub memo: &'a mut [Option<Kept<Play>>],
    ghost room: { row_count (bytes_of task.now) Nodes ≤ length memo.now },
    ghost right: { IsMemo (solved task.now) (told_of task.now) (λ i. field (bytes_of task.now) Nodes i 0) memo.now },
}

impl<'a> Solver<'a> {
    /// The row that keeps the answer of a node, which holds with so much depth left. The stack that it takes grows with the depth.
    #[cycle(solve)]
    #[tactic(auto, using(crate::proofs::KindLaws::steps, memo::proofs::KeptLaws::staying))]
    pub fn solve_node(&mut self, entity: u32, left: usize) -> Result<usize, Refusal>
        requires { left ≤ 64 }
        ensures kept { IfOk result (IsKept self.new.memo.now (Answered self.old.task.now left entity)) }
        ensures refused { IfErr result (λ r. solved self.old.task.now left entity ≡ Err r) }
        ensures stays { Stays self.old.memo.now self.new.memo.now }
        ensures same_task { self.new.task ≡ self.old.task }
    {
        if left == 0 {
            return Err(Refusal::DepthSpent { entity });
        }
        let task = self.task;
        let row = task.row_of(entity).ok_or(Refusal::MissingNode { entity })?;
        if self.is_known(row, left) {
            return Ok(row);
        }
        let kind = task.kind_in(row);
        self.solve_kind(entity, row, kind, left - 1)?;
        Ok(row)
    }

    /// Whether a row keeps an answer of its node that holds with so much depth left.
    fn is_known(&self, row: usize, left: usize) -> bool
        requires { row < row_count (bytes_of self.now.task.now) Nodes }
        ensures known { result ≡ true → IsKept self.now.memo.now (Answered self.now.task.now left (field (bytes_of self.now.task.now) Nodes row 0)) row }
        ensures unknown { result ≡ false → IsUnknown self.now.memo.now row left }
    {
        memo::known(self.memo, row, left).is_some()
    }

    /// What a row keeps.
    pub fn kept(&self, row: usize) -> &Kept<Play>
        requires { IsKept self.now.memo.now (λ _. Unit) row }
        ensures { slice_get self.now.memo.now row ≡ Some (Some result.now) }
    {
        memo::get(self.memo, row)
    }

    /// Keeps the answer of the node of a row.
    fn keep(&mut self, row: usize, kept: Kept<Play>)
        requires within { row < row_count (bytes_of self.old.task.now) Nodes }
        requires right { IsRight (solved self.old.task.now) (told_of self.old.task.now) (field (bytes_of self.old.task.now) Nodes row 0) kept }
        ensures here { slice_get self.new.memo.now row ≡ Some (Some kept) }
        ensures others { self.new.memo.now ≡ slice_set self.old.memo.now row (Some kept) }
        ensures same_task { self.new.task ≡ self.old.task }
    {
        memo::keep(self.memo, row, kept);
    }

    /// Keeps the answer of the node of a row, which uses answers of heights up to `deepest`.
    #[tactic(auto, using(memo::proofs::KeptLaws::staying))]
    fn keep_over(&mut self, row: usize, deepest: usize, play: Play) -> Kept<Play>
        requires within { row < row_count (bytes_of self.old.task.now) Nodes }
        requires fits { deepest + 1 < 2 ^ 64 }
        requires right { IsRight (solved self.old.task.now) (told_of self.old.task.now) (field (bytes_of self.old.task.now) Nodes row 0) (record { height = deepest + 1; answer = play }) }
        ensures kept { result ≡ record { height = deepest + 1; answer = play } }
        ensures there { slice_get self.new.memo.now row ≡ Some (Some result) }
        ensures stays { Stays self.old.memo.now self.new.memo.now }
        ensures same_task { self.new.task ≡ self.old.task }
    {
        let kept = Kept::over(deepest, play);
        self.keep(row, kept);
        kept
    }

    /// Works out the answer of a node that is not known yet, and keeps it.
    #[cycle(solve)]
    #[tactic(auto, using(memo::proofs::KeptLaws::staying))]
    fn solve_kind(
        &mut self,
        entity: u32,
        row: usize,
        kind: Kind,
        left: usize,
    ) -> Result<Kept<Play>, Refusal>
        requires node { NodeAt (bytes_of self.old.task.now) row entity }
        requires unknown { IsUnknown self.old.memo.now row (left + 1) }
        requires kind { GoesBy self.old.task.now entity kind }
        requires low { left < 64 }
        ensures kept { IfOk result (Answered self.old.task.now (left + 1) entity) }
        ensures there { IfOk result (λ kept. slice_get self.new.memo.now row ≡ Some (Some kept)) }
        ensures answer { solution_in self.old.task.now result ≡ solved self.old.task.now (left + 1) entity }
        ensures stays { Stays self.old.memo.now self.new.memo.now }
        ensures same_task { self.new.task ≡ self.old.task }
    {
        match kind {
            Kind::Terminal => self.solve_terminal(entity, row),
            Kind::Decision { player } => self.solve_decision(entity, row, player, left),
            Kind::Chance => self.solve_chance(entity, row, left),
        }
    }

    /// A terminal is worth its payoffs.
    fn solve_terminal(&mut self, entity: u32, row: usize) -> Result<Kept<Play>, Refusal>
        requires node { NodeAt (bytes_of self.old.task.now) row entity }
        requires kind { GoesBy self.old.task.now entity Kinds.Terminal }
        ensures kept { IfOk result (IsRight (solved self.old.task.now) (told_of self.old.task.now) entity) }
        ensures low { IfOk result (λ kept. kept.height ≡ 1) }
        ensures there { IfOk result (λ kept. slice_get self.new.memo.now row ≡ Some (Some kept)) }
        ensures answer { (left : ℕ) → solution_in self.old.task.now result ≡ solved self.old.task.now (left + 1) entity }
        ensures stays { Stays self.old.memo.now self.new.memo.now }
        ensures same_task { self.new.task ≡ self.old.task }
    {
        let task = self.task;
        let terminal = sheet::terminal_of(task.links.lookup, entity).ok_or(
            Refusal::MissingTerminalUtility { entity },
        )?;
        let payoffs = task.payoffs(terminal);
        let play = Play {
            terminal: Some(entity),
            first: None,
            payoffs,
        };
        Ok(self.keep_over(row, 0, play))
    }

    /// A decision takes the best of its replies for the player.
    #[cycle(solve)]
    #[tactic(auto, using(memo::proofs::KeptLaws::staying))]
    fn solve_decision(
        &mut self,
        entity: u32,
        row: usize,
        player: u32,
        left: usize,
    ) -> Result<Kept<Play>, Refusal>
        requires node { NodeAt (bytes_of self.old.task.now) row entity }
        requires unknown { IsUnknown self.old.memo.now row (left + 1) }
        requires kind { GoesBy self.old.task.now entity (Kinds.Decision player) }
        requires low { left < 64 }
        ensures kept { IfOk result (Answered self.old.task.now (left + 1) entity) }
        ensures there { IfOk result (λ kept. slice_get self.new.memo.now row ≡ Some (Some kept)) }
        ensures answer { solution_in self.old.task.now result ≡ solved self.old.task.now (left + 1) entity }
        ensures stays { Stays self.old.memo.now self.new.memo.now }
        ensures same_task { self.new.task ≡ self.old.task }
    {
        let task = self.task;
        let mut lead = None;
        let mut deepest = 0;
        for edge in task.edges::<ActionEdge>(entity, row)? {
            let at = self.solve_node(edge.target, left)?;
            let kept = self.kept(at);
            let reply = Reply::new(edge, kept.answer, player)?;
            lead = Some(better(lead, reply));
            deepest = deepest.max(kept.height);
        }
        let best = lead.ok_or(Refusal::NoOutgoingActions { entity })?;
        Ok(self.keep_over(row, deepest, best.taken()))
    }

    /// A chance node is worth the weighted sums of its outcomes; the plain method refuses it.
    #[cycle(solve)]
    #[tactic(auto, using(memo::proofs::KeptLaws::staying))]
    fn solve_chance(&mut self, entity: u32, row: usize, left: usize) -> Result<Kept<Play>, Refusal>
        requires node { NodeAt (bytes_of self.old.task.now) row entity }
        requires unknown { IsUnknown self.old.memo.now row (left + 1) }
        requires kind { GoesBy self.old.task.now entity Kinds.Chance }
        requires low { left < 64 }
        ensures kept { IfOk result (Answered self.old.task.now (left + 1) entity) }
        ensures there { IfOk result (λ kept. slice_get self.new.memo.now row ≡ Some (Some kept)) }
        ensures answer { solution_in self.old.task.now result ≡ solved self.old.task.now (left + 1) entity }
        ensures stays { Stays self.old.memo.now self.new.memo.now }
        ensures same_task { self.new.task ≡ self.old.task }
    {
        let task = self.task;
        if let Method::Plain = task.method {
            return Err(Refusal::UnsupportedChanceNode { entity });
        }
        let mut sums = None;
        let mut deepest = 0;
        for outcome in task.edges::<ChanceOutcome>(entity, row)? {
            let at = self.solve_node(outcome.target, left)?;
            let kept = self.kept(at);
            let payoffs = kept.answer.payoffs;
            sums = Some(Payoffs::added(entity, sums, outcome.probability, payoffs)?);
            deepest = deepest.max(kept.height);
        }
        let payoffs = sums.ok_or(Refusal::NoOutgoingChanceOutcomes { entity })?;
        if !payoffs.is_in_range() {
            return Err(Refusal::OutOfRange { entity });
        }
        let play = Play {
            terminal: None,
            first: None,
            payoffs,
        };
        Ok(self.keep_over(row, deepest, play))
    }

    /// The edge that the play from a node begins with, where there is one.
    #[tactic(auto, using(crate::proofs::PlayLaws::plays))]
    fn first_edge(&mut self, entity: u32) -> Option<ActionEdge>
        ensures actions { actions_at self.old.task.now entity ≡ actions_from (actions_at self.old.task.now) result }
        ensures stays { Stays self.old.memo.now self.new.memo.now }
        ensures same_task { self.new.task ≡ self.old.task }
    {
        match self.solve_node(entity, 64) {
            Ok(row) => self.kept(row).answer.first,
            Err(_) => None,
        }
    }

    /// The labels along a play that begins with an edge. Each node of it is looked up again, and its answer is known.
    #[tactic(auto, using(memo::proofs::KeptLaws::staying))]
    fn labels(&mut self, first: Option<ActionEdge>) -> Labels
        requires { length (actions_from (actions_at self.old.task.now) first) ≤ 64 }
        ensures labels { labels_of result ≡ actions_from (actions_at self.old.task.now) first }
        ensures stays { Stays self.old.memo.now self.new.memo.now }
        ensures same_task { self.new.task ≡ self.old.task }
    {
        let mut numbers = [0u32; 64];
        let mut count = 0;
        let mut next = first;
        // a play is no list: its next edge is found from the last one's target, so its labels are counted as they are written
        while let Some(edge) = next {
            numbers[count] = edge.label;
            count += 1;
            next = self.first_edge(edge.target);
        }
        Labels { count, numbers }
    }

    /// The solution of a play.
    pub fn solution(&mut self, play: Play) -> Solution
        requires { length (actions_from (actions_at self.old.task.now) play.first) ≤ 64 }
        ensures answer { solution_of result ≡ told_of self.old.task.now play }
        ensures stays { Stays self.old.memo.now self.new.memo.now }
    {
        let labels = self.labels(play.first);
        let payoffs = play.payoffs.cleared();
        Solution {
            terminal: play.terminal,
            labels,
            payoffs,
        }
    }
}

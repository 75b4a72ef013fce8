//! The two kinds of edges: how one is looked up by its entity, and the node that it leads to.
ghost use Rattle.std.specs.Prelude.{◌≡◌, ℕ, Option};
ghost use Rattle.game.specs.Game.{Game, action_of, chance_of};
ghost use Rattle.sheet.specs.Meaning.{game_of};

use game::{ActionEdge, ChanceOutcome};
use lookup::Lookup;

/// A kind of edges.
pub trait Edge: Sized + Drop {
    ghost found: { Game → ℕ → Option Self };

    ghost target_of: { Self → ℕ };

    /// The edge of an entity, where it has a row of this kind.
    fn find(lookup: Lookup, entity: u32) -> Option<Self>
        ensures { result ≡ found (game_of lookup.entry.sheet.now) entity };

    /// The node that the edge's row names.
    fn target(&self) -> u32
        ensures { result ≡ target_of self.now };
}

impl Edge for ActionEdge {
    ghost found = { action_of };

    ghost target_of = { λ a. a.target };

    fn find(lookup: Lookup, entity: u32) -> Option<ActionEdge> {
        sheet::action_of(lookup, entity)
    }

    fn target(&self) -> u32 {
        self.target
    }
}

impl Edge for ChanceOutcome {
    ghost found = { chance_of };

    ghost target_of = { λ c. c.target };

    fn find(lookup: Lookup, entity: u32) -> Option<ChanceOutcome> {
        sheet::chance_of(lookup, entity)
    }

    fn target(&self) -> u32 {
        self.target
    }
}

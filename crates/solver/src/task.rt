//! What a solve is asked of a sheet: the method, and the sheet with its rows noted and its children linked.
ghost use Rattle.std.specs.Prelude.{◌≡◌, ◌<◌, IfSome, option_map};
ghost use Rattle.rows.specs.Store.{rows_from};
ghost use Rattle.layout.specs.Layout.{row_count};
ghost use Rattle.layout.specs.declared.section.Section.TheVariants.{Nodes};
ghost use Rattle.game.specs.Game.{kind_of};
ghost use Rattle.sheet.specs.Meaning.{node_row, payoff_row, game_of};
ghost use Rattle.sheet.specs.Found.{NodeAt, InSheet};
ghost use Rattle.edges.specs.Kinds.{edges_out};
ghost use Rattle.turns.specs.Payoffs.{payoffs_of};

use answer::Refusal;
use backward_induction::Method;
use child_rows::ChildLinks;
use edges::{Edge, Edges};
use game::Kind;
use layout::Section;
use sheet::Terminal;
use turns::Payoffs;

/// A sheet whose rows are looked up and whose child rows are linked, and the way to solve it.
#[derive(Clone, Copy)]
pub struct Task<'a> {
    pub links: ChildLinks<'a>,
    pub method: Method,
}

impl<'a> Task<'a> {
    ghost use Rattle.solver.specs.Tasks.{bytes_of};

    /// The row of a node.
    #[tactic(auto, using(crate::proofs::KindLaws::node_rows))]
    pub fn row_of(&self, entity: u32) -> Option<usize>
        ensures here { IfSome result (λ row. NodeAt (bytes_of self.now) row entity) }
        ensures kind { option_map (λ row. (node_row (bytes_of self.now) row).kind) result ≡ kind_of (game_of (bytes_of self.now)) entity }
    {
        self.links.lookup.find_row(Section::Nodes, entity)
    }

    /// What the node of a row is.
    pub fn kind_in(&self, row: usize) -> Kind
        requires { row < row_count (bytes_of self.now) Nodes }
        ensures { result ≡ (node_row (bytes_of self.now) row).kind }
    {
        sheet::sheet_of(self.links.lookup).node(row).kind
    }

    /// The edges of a kind out of the node of a row, or the first fault among them.
    pub fn edges<E: Edge>(&self, entity: u32, row: usize) -> Result<Edges<'a, E>, Refusal>
        requires { NodeAt (bytes_of self.now) row entity }
        ensures { result ≡ edges_out E.found E.target_of (bytes_of self.now) entity }
    {
        edges::outgoing_along(self.links, row)
    }

    /// The payoffs of a terminal.
    #[tactic(auto, using(layout::proofs::LayoutLaws::rows_bound, opening::proofs::AcceptedRows::layout_ok), unfolding(rows::specs::Store::rows_from))]
    pub fn payoffs(&self, terminal: Terminal) -> Payoffs
        requires { InSheet (bytes_of self.now) terminal }
        ensures { payoffs_of result ≡ rows_from (payoff_row (bytes_of self.now)) terminal.first terminal.count }
    {
        let sheet = sheet::sheet_of(self.links.lookup);
        let count = terminal.count;
        let mut values = [0.0f64; 8];
        for j in 0..count {
            values[j] = sheet.payoff(terminal.first + j).value();
        }
        Payoffs { count, values }
    }
}

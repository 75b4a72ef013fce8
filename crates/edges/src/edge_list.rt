//! The edges of one kind out of a node, one after the other in child-row order.
ghost use Rattle.std.specs.Prelude.{◌≡◌, ◌<◌, Ok};
ghost use Rattle.std.specs.Iterator.{YieldsFirst, item_count};
ghost use Rattle.answer.specs.Checks.{checked};
ghost use Rattle.layout.specs.declared.section.Section.TheVariants.{Nodes};
ghost use Rattle.layout.specs.Layout.{row_count, field};
ghost use Rattle.edges.specs.Kinds.{edges_out};

use crate::{Edge, check_children, check_edges};
use answer::Refusal;
use child_rows::{ChildLinks, ChildrenOf};
use lookup::Lookup;
use std::marker::{Model, PhantomData};

/// The edges of a node that are left. None has a fault, so that their transitions are not looked at.
#[derive(Drop)]
pub struct Edges<'a, E: Edge> {
    lookup: Lookup<'a>,
    children: ChildrenOf<'a>,
    kind: PhantomData<E>,
}

impl<'a, E: Edge> Model for Edges<'a, E> {
    ghost use Rattle.std.specs.Prelude.{◌≡◌, List, Ok};
    ghost use Rattle.answer.specs.Checks.{checked};
    ghost use Rattle.edges.specs.Kinds.{edges_among, found_in};

    ghost Value = { List E };

    ghost view = { λ e. found_in (edges_among E.found E.target_of e.lookup.sheet.now e.children) };

    ghost invariant = { λ e. checked (edges_among E.found E.target_of e.lookup.sheet.now e.children) ≡ Ok tt };
}

impl<'a, E: Edge> Iterator for Edges<'a, E> {
    type Item = E;

    ghost next_gives = { YieldsFirst (λ s. s) };

    ghost remaining = { item_count (λ s. s) };

    #[tactic(auto, using(crate::proofs::AmongLaws::steps))]
    fn next(&mut self) -> Option<E> {
        while let Some(child) = self.children.next() {
            if let Some(edge) = E::find(self.lookup, child) {
                return Some(edge);
            }
        }
        None
    }
}

/// The edges out of a node, which are known to have no fault.
#[tactic(auto, using(crate::proofs::AmongLaws::out))]
pub fn sound_edges<E: Edge>(lookup: Lookup<'_>, source: u32) -> Edges<'_, E>
    requires { checked (edges_out E.found E.target_of lookup.sheet.now source) ≡ Ok tt }
    ensures { edges_out E.found E.target_of lookup.entry.sheet.now source ≡ Ok result }
{
    Edges {
        lookup,
        children: ChildrenOf::new(lookup.sections(), source),
        kind: PhantomData,
    }
}

/// The edges out of a node, or the first fault among them.
pub fn outgoing<E: Edge>(lookup: Lookup<'_>, source: u32) -> Result<Edges<'_, E>, Refusal>
    ensures { result ≡ edges_out E.found E.target_of lookup.entry.sheet.now source }
{
    check_edges::<E>(lookup, source)?;
    Ok(sound_edges(lookup, source))
}

/// The same of the node in a node row, along the links of its child rows.
#[tactic(auto, using(crate::proofs::AmongLaws::out))]
pub fn outgoing_along<E: Edge>(links: ChildLinks<'_>, row: usize) -> Result<Edges<'_, E>, Refusal>
    requires { row < row_count links.lookup.sheet.now Nodes }
    ensures { result ≡ edges_out E.found E.target_of links.entry.lookup.sheet.now (field links.entry.lookup.sheet.now Nodes row 0) }
{
    let lookup = links.lookup;
    check_children::<E>(lookup, ChildrenOf::along(links, row))?;
    Ok(Edges {
        lookup,
        children: ChildrenOf::along(links, row),
        kind: PhantomData,
    })
}

//! The children of a parent, one after the other in child-row order.
ghost use Rattle.std.specs.Prelude.{◌≡◌, ◌+◌, ◌<◌, [], ◌∷◌, None, Some, IfSome, IfNone, option_map};
ghost use Rattle.std.specs.Iterator.{YieldsFirst, item_count};
ghost use Rattle.layout.specs.declared.section.Section.TheVariants.{Nodes};
ghost use Rattle.layout.specs.Layout.{row_count, field};
ghost use Rattle.graph_relations.specs.Relations.{children_of};
ghost use Rattle.graph_relations.specs.RelationRows.{child_rows};
ghost use Rattle.child_rows.specs.Children.{children_left, IsOn};

use crate::{ChildLinks, next_child};
use layout::{Section, Sections};
use std::marker::Model;

/// The children of a parent that are left: each child row is looked at, or those of the parent alone along its links.
#[derive(Drop)]
pub struct ChildrenOf<'a> {
    sections: Sections<'a>,
    links: Option<&'a [u32]>,
    parent: u32,
    row: usize,
    count: usize,
}

impl<'a> Model for ChildrenOf<'a> {
    ghost use Rattle.std.specs.Prelude.{List, ℕ, option_map};
    ghost use Rattle.child_rows.specs.Children.{children_left, IsOn};

    ghost Value = { List ℕ };

    ghost view = { λ c. children_left c.sections.bytes.now c.parent c.row };

    ghost invariant = { λ c. IsOn c.sections.bytes.now (option_map (λ l. l.now) c.links) c.parent c.count c.row };
}

/// The first child that a child row from one on gives, and that row, where each row is looked at.
// Not inlined: among a caller's loops its own goes through the rows more slowly.
#[inline(never)]
#[tactic(auto, using(crate::proofs::ChildrenLaws::child_steps))]
fn child_by_row(sections: Sections, parent: u32, from: usize, count: usize) -> Option<(u32, usize)>
    requires { IsOn sections.bytes.now None parent count from }
    ensures child { IfSome result (λ p. children_left sections.entry.bytes.now parent from ≡ p.0 ∷ children_left sections.entry.bytes.now parent (p.1 + 1)) }
    ensures on { IfSome result (λ p. IsOn sections.entry.bytes.now None parent count (p.1 + 1)) }
    ensures few { IfSome result (λ p. p.1 < count) }
    ensures none { IfNone result (children_left sections.entry.bytes.now parent from ≡ []) }
{
    for i in from..count {
        if let Some(child) = graph_relations::children_of(sections, parent, i) {
            return Some((child, i));
        }
    }
    None
}

/// The first child that a child row from one on gives, and the row after it, along the links.
#[tactic(auto, using(crate::proofs::ChildrenLaws::child_steps))]
fn child_along(
    sections: Sections,
    links: &[u32],
    parent: u32,
    from: usize,
    count: usize,
) -> Option<(u32, usize)>
    requires { IsOn sections.bytes.now (Some links.now) parent count from }
    ensures child { IfSome result (λ p. children_left sections.entry.bytes.now parent from ≡ p.0 ∷ children_left sections.entry.bytes.now parent p.1) }
    ensures on { IfSome result (λ p. IsOn sections.entry.bytes.now (Some links.entry.now) parent count p.1) }
    ensures none { IfNone result (children_left sections.entry.bytes.now parent from ≡ []) }
{
    // A walk along links has no range to count through.
    let mut row = from;
    while row < count {
        let next = next_child(links, row);
        if let Some(child) = graph_relations::children_of(sections, parent, row) {
            return Some((child, next));
        }
        row = next;
    }
    None
}

// The first child that a child row from one on gives, and the row after it.
fn child_from(
    sections: Sections,
    links: Option<&[u32]>,
    parent: u32,
    from: usize,
    count: usize,
) -> Option<(u32, usize)>
    requires { IsOn sections.bytes.now (option_map (λ l. l.now) links) parent count from }
    ensures child { IfSome result (λ p. children_left sections.entry.bytes.now parent from ≡ p.0 ∷ children_left sections.entry.bytes.now parent p.1) }
    ensures on { IfSome result (λ p. IsOn sections.entry.bytes.now (option_map (λ l. l.now) links.entry) parent count p.1) }
    ensures none { IfNone result (children_left sections.entry.bytes.now parent from ≡ []) }
{
    match links {
        Some(links) => child_along(sections, links, parent, from, count),
        None => {
            let (child, row) = child_by_row(sections, parent, from, count)?;
            Some((child, row + 1))
        }
    }
}

impl<'a> Iterator for ChildrenOf<'a> {
    type Item = u32;

    ghost next_gives = { YieldsFirst (λ s. s) };

    ghost remaining = { item_count (λ s. s) };

    fn next(&mut self) -> Option<u32> {
        let (child, row) = child_from(
            self.sections,
            self.links,
            self.parent,
            self.row,
            self.count,
        )?;
        self.row = row;
        Some(child)
    }
}

impl<'a> ChildrenOf<'a> {
    /// The children of a parent, for which each child row is looked at.
    #[tactic(auto, using(crate::proofs::ChildrenLaws::all_children))]
    pub fn new(sections: Sections<'a>, parent: u32) -> ChildrenOf<'a>
        ensures { result ≡ children_of parent (child_rows sections.entry.bytes.now) }
    {
        ChildrenOf {
            sections,
            links: None,
            parent,
            row: 0,
            count: sections.row_count(Section::Children),
        }
    }

    /// The children of the node in a node row, along its links.
    #[tactic(auto, using(crate::proofs::ChildrenLaws::all_along))]
    pub fn along(links: ChildLinks<'a>, row: usize) -> ChildrenOf<'a>
        requires { row < row_count links.lookup.sheet.now Nodes }
        ensures { result ≡ children_of (field links.entry.lookup.sheet.now Nodes row 0) (child_rows links.entry.lookup.sheet.now) }
    {
        let sections = links.lookup.sections();
        ChildrenOf {
            sections,
            links: Some(links.links),
            parent: sections.u32_field(Section::Nodes, row, 0),
            row: links.first_child(row),
            count: sections.row_count(Section::Children),
        }
    }
}

//! The walk that writes paths, once they are known to have no fault and to fit.
ghost use Rattle.std.specs.Prelude.{◌≡◌, ◌+◌, ◌≤◌, ◌<◌, [], map, length, IfSome, IfNone, Ok};
ghost use Rattle.arrayvec.specs.ArrayVec.{array_vec_len};
ghost use Rattle.answer.specs.Checks.{checked};
ghost use Rattle.number.specs.Number.{to_bits};
ghost use Rattle.rows.specs.Store.{rows_from};
ghost use Rattle.text.specs.Written.{Writes};
ghost use Rattle.text.specs.Writing.{appended, Fits};
ghost use Rattle.layout.specs.Layout.{row_count};
ghost use Rattle.layout.specs.declared.section.Section.TheVariants.{Payoffs};
ghost use Rattle.sheet.specs.Meaning.{payoff_row, game_of};
ghost use Rattle.sheet.specs.Found.{InSheet};
ghost use Rattle.path_counts.specs.Paths.{paths, record_of};
ghost use Rattle.paths.specs.Writing.{words_from, path_to, EndsAt, GoesOn};

use arrayvec::ArrayVec;
use game::{ActionEdge, Kind};
use lookup::Lookup;
use sheet::{Sheet, Terminal};
use text::Writer;

#[tactic(auto, using(opening::proofs::AcceptedFields::payoff_finite), unfolding(sheet::specs::Meaning::payoff_row))]
fn payoff_bits(sheet: Sheet, j: usize) -> u64
    requires { j < row_count sheet.bytes.now Payoffs }
    ensures { result ≡ to_bits (payoff_row sheet.entry.bytes.now j) }
{
    number::to_bits(sheet.payoff(j).value())
}

/// Writes the bits of payoff rows.
#[tactic(auto, using(text::proofs::WritingLaws::writing, crate::proofs::Words::payoff_steps))]
fn write_payoffs(words: &mut Writer<u64>, sheet: Sheet, first: usize, count: usize)
    requires rows { first + count ≤ row_count sheet.bytes.now Payoffs }
    requires room { Fits words.old (map to_bits (rows_from (payoff_row sheet.bytes.now) first count)) }
    ensures { words.new ≡ appended words.old (map to_bits (rows_from (payoff_row sheet.entry.bytes.now) first count)) }
{
    for j in first..first + count {
        words.push_one(payoff_bits(sheet, j));
    }
}

/// Writes label numbers.
// One by one: copied at once they would ask the C library for memmove, and the archive needs only memcpy and memset of it.
#[tactic(auto, using(text::proofs::WritingLaws::writing, crate::proofs::Words::label_steps))]
fn write_labels(words: &mut Writer<u64>, labels: &[u64])
    requires { Fits words.old labels.now }
    ensures { words.new ≡ appended words.old labels.now }
{
    for label in labels {
        words.push_one(*label);
    }
}

/// Writes the path to a terminal by the labels.
#[tactic(auto, using(text::proofs::WritingLaws::writing, crate::proofs::Words::record_parts))]
fn write_path(words: &mut Writer<u64>, sheet: Sheet, labels: &[u64], terminal: Terminal)
    requires terminal { InSheet sheet.bytes.now terminal }
    requires room { Fits words.old (record_of (path_to sheet.bytes.now terminal labels.now)) }
    ensures { words.new ≡ appended words.old (record_of (path_to sheet.entry.bytes.now terminal labels.now)) }
{
    words.push(&[
        u64::from(terminal.entity),
        terminal.count as u64,
        labels.len() as u64,
    ]);
    write_labels(words, labels);
    write_payoffs(words, sheet, terminal.first, terminal.count);
}

/// The terminal that a node is, where it is one.
#[tactic(auto, using(crate::proofs::Ends::end_steps))]
fn terminal_at(lookup: Lookup, entity: u32) -> Option<Terminal>
    ensures ends { IfSome result (EndsAt lookup.entry.sheet.now entity) }
    ensures in_sheet { IfSome result (InSheet lookup.entry.sheet.now) }
    ensures goes_on { IfNone result (GoesOn (game_of lookup.entry.sheet.now) entity) }
{
    match sheet::node_of(lookup, entity)?.kind {
        Kind::Terminal => sheet::terminal_of(lookup, entity),
        _ => None,
    }
}

/// Writes the paths from a node, each behind the labels on the way to it. The stack that it takes grows with the depth.
#[cycle(write)]
#[tactic(auto, using(text::proofs::WritingLaws::writing, crate::proofs::Steps::walk_steps))]
fn write_paths(
    words: &mut Writer<u64>,
    lookup: Lookup,
    labels: &mut ArrayVec<u64, 64>,
    entity: u32,
    left: usize,
)
    requires sound { checked (paths (game_of lookup.sheet.now) left entity) ≡ Ok tt }
    requires deep { array_vec_len labels.old + left ≤ 64 }
    requires room { Fits words.old (words_from (game_of lookup.sheet.now) left entity labels.old.items) }
    ensures words { words.new ≡ appended words.old (words_from (game_of lookup.entry.sheet.now) left entity labels.old.items) }
    ensures labels { labels.new.items ≡ labels.old.items }
{
    match terminal_at(lookup, entity) {
        Some(terminal) => write_path(words, sheet::sheet_of(lookup), labels.as_slice(), terminal),
        None => write_edges(words, lookup, labels, entity, left),
    }
}

/// Writes the paths from a node that goes by its edges.
#[cycle(write)]
#[tactic(auto, using(text::proofs::WritingLaws::writing, crate::proofs::Steps::walk_steps), unfolding(game::specs::Edges::outgoing_action_edges))]
fn write_edges(
    words: &mut Writer<u64>,
    lookup: Lookup,
    labels: &mut ArrayVec<u64, 64>,
    entity: u32,
    left: usize,
)
    requires goes_on { GoesOn (game_of lookup.sheet.now) entity }
    requires sound { checked (paths (game_of lookup.sheet.now) left entity) ≡ Ok tt }
    requires deep { array_vec_len labels.old + left ≤ 64 }
    requires room { Fits words.old (words_from (game_of lookup.sheet.now) left entity labels.old.items) }
    ensures words { words.new ≡ appended words.old (words_from (game_of lookup.entry.sheet.now) left entity labels.old.items) }
    ensures labels { labels.new.items ≡ labels.old.items }
{
    for edge in edges::sound_edges::<ActionEdge>(lookup, entity) {
        labels.push(u64::from(edge.label));
        write_paths(words, lookup, labels, edge.target, left - 1);
        labels.pop();
    }
}

/// Writes the paths from a node at the buffer's front: how many words they are.
#[tactic(auto, unfolding(text::specs::Writing::appended))]
pub fn write_all(lookup: Lookup, out: &mut [u64], entity: u32, left: usize) -> usize
    requires sound { checked (paths (game_of lookup.sheet.now) left entity) ≡ Ok tt }
    requires deep { left ≤ 64 }
    requires room { length (words_from (game_of lookup.sheet.now) left entity []) ≤ length out.old }
    ensures { Writes out.old 0 (words_from (game_of lookup.entry.sheet.now) left entity []) out.new result }
{
    let mut words = Writer::new(out);
    let mut labels = ArrayVec::new();
    write_paths(&mut words, lookup, &mut labels, entity, left);
    words.len()
}

// The dependencies of a range of one record, cut for another: which axis is cut, which entries lie in the range, and what is left of
// each. The other layout goes into one part, and they replace its own.
#![tactic(auto)]

ghost use Rattle.std.specs.Prelude.{◌≡◌, true, ◌+◌, ◌≤◌, length};
ghost use Rattle.std.specs.Option.{MatchOption};
ghost use Rattle.rules.specs.Record.{layout_in};
ghost use Rattle.rules.specs.FilterDepsFrom.{filter_deps_from};
ghost use Rattle.tables.specs.Rows.{row_at};
ghost use Rattle.records.specs.Sound.{SoundRecord};
ghost use Rattle.parts.specs.Parts.{part_size};
ghost use Rattle.parts.specs.Answers.{Says};
ghost use Rattle.range.specs.Cutting.{WideIs, uncuttable, CutAlong, EntryAsked, RowAsked, CutAsked, in_cut, cut_dep, DepsCut};

use rules::{Entries, Head, Kind, Refusal};

// The axes whose extent is over 1: how many there are, and the first of them, 0 where there is none.
#[derive(Clone, Copy)]
struct Wide {
    count: usize,
    first: usize,
}

// How entries are cut: along an axis, from a start to below an end, and to a rank.
#[derive(Clone, Copy)]
struct Cut {
    axis: usize,
    start: usize,
    end: usize,
    rank: usize,
}

// Which of the extents at a place are over 1, the last one first.
fn wide_axes(s: &[i32], at: usize, rank: usize) -> Wide
    requires { at + rank ≤ length s.now }
    ensures { WideIs (row_at at rank s.now) result.count result.first }
{
    let mut count: usize = 0;
    let mut first = 0;
    for k in (0..rank).rev() {
        if 1 < cells::get(s, at + k) {
            count += 1;
            first = k;
        }
    }
    Wide { count, first }
}

// The axis along which a source is cut for a target of a rank: none where the source is not dense, has no axis or two extents over 1,
// or has fewer axes than the target.
fn axis_to_cut(source: &[i32], other: Head, rank: usize) -> Option<usize>
    requires { SoundRecord other source.now }
    ensures { MatchOption result (uncuttable rank (layout_in source.now) ≡ true) (CutAlong rank (layout_in source.now)) }
{
    let Kind::Dense = records::kind_at(source, records::KIND) else {
        return None;
    };
    if other.rank == 0 {
        return None;
    }
    if other.rank < rank {
        return None;
    }
    let wide = wide_axes(source, records::EXTENTS, other.rank);
    if 1 < wide.count {
        return None;
    }
    Some(wide.first)
}

// Whether the entry at a place lies in the shape of its record, and in the range.
fn in_range(s: &[i32], at: usize, rank: usize, cut: Cut) -> bool
    requires { EntryAsked at rank cut s.now }
    ensures { result ≡ in_cut cut (row_at 3 rank s.now) (row_at at (rank + 1) s.now) }
{
    if !axes::row_below(s, at, s, records::EXTENTS, rank) {
        return false;
    }
    (cut.start..cut.end).contains(&cells::get(s, at + cut.axis))
}

// What is left of an entry that lies in the range, by value: its index, shortened and less the start on the axis that is cut, if that
// remains, and its number.
#[tactic(auto, using(crate::proofs::Entries::cutting))]
fn cut_row(s: &[i32], at: usize, rank: usize, cut: Cut) -> [i32; 5]
    requires { RowAsked at rank cut s.now }
    ensures { row_at 0 (cut.rank + 1) result ≡ cut_dep cut (row_at at (rank + 1) s.now) }
{
    let places = moving::shorter_places(cut.rank, rank);
    let mut row = moving::picked_row(s, at, rank + 1, 0, places, cut.rank + 1);
    if cut.rank <= cut.axis {
        return row;
    }
    let component = cells::get(s, at + cut.axis);
    cells::store(&mut row, cut.axis, component - cut.start);
    row
}

// The entries of a record that lie in the range, cut, become the table at a place of a part as they come; answers whether they increase.
fn cut_deps(s: &[i32], rank: usize, deps: Entries, cut: Cut, part: &mut [i32], at: usize) -> bool
    requires { CutAsked rank deps cut s.now at part.old }
    ensures { DepsCut rank deps cut s.now at part.old part.new result }
{
    let width = rank + 1;
    let w = cut.rank + 1;
    cells::store(part, at, 0);
    let mut n = 0;
    for i in 0..deps.count {
        let entry = deps.first + i * width;
        if !in_range(s, entry, rank, cut) {
            continue;
        }
        let row = cut_row(s, entry, rank, cut);
        tables::insert_at(part, at, w, n, n, &row, 0);
        n += 1;
    }
    tables::is_increasing(part, at + 1, n, w)
}

// The target with the dependencies of a range of the source goes into a part: 10 where the source cannot be cut; 12 where entries meet or
// fall out of order.
pub fn filter_into(
    target: &[i32],
    head: Head,
    source: &[i32],
    other: Head,
    start: usize,
    end: usize,
    part: &mut [i32],
) -> Result<(), Refusal>
    requires sound_record { SoundRecord head target.now × SoundRecord other source.now }
    requires part_size_in_bounds { part_size ≤ length part.old }
    ensures { Says (filter_deps_from (layout_in target.now) (layout_in source.now) start end) 0 part.new result }
{
    let axis = axis_to_cut(source, other, head.rank).ok_or(Refusal::Unjoinable)?;
    let cut = Cut {
        axis,
        start,
        end,
        rank: head.rank,
    };
    parts::load(target, head, part);
    if !cut_deps(source, other.rank, other.states, cut, part, parts::STATES) {
        return Err(Refusal::MadeUnsound);
    }
    if !cut_deps(source, other.rank, other.inputs, cut, part, parts::INPUTS) {
        return Err(Refusal::MadeUnsound);
    }
    Ok(())
}

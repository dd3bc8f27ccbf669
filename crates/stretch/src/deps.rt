// Dependencies: what each of them, fitted to the new rank, yields on the stretched axes. In mode 0 that is itself, and for each of these axes
// alone every value there; in mode 1 it is every combination of values on all of them.
ghost use Rattle.std.specs.Prelude.{[], ◌∷◌, ◌+◌, ◌<◌};
ghost use Rattle.rules.specs.Lists.{with};
ghost use Rattle.rules.specs.Stretching.{stretched_axes, alone, together, yields};
ghost use Rattle.tables.specs.Rows.{row_at};
ghost use Rattle.tables.specs.Tables.{Taken, Listed};
ghost use Rattle.stretch.specs.Spread.{Shapes, extents_in};
ghost use Rattle.stretch.specs.Tables.{in_turn, ValuesAsked, EntryAsked, yield_on, Cleared, DepsAsked, yielded};

use super::every::put_moved;
use super::spread::{is_stretched, same_shape, spread_extents};
use rules::{Entries, Mode};

// The entry with every value on one axis is put into the table; false where that makes too many entries.
fn put_values(
    entry: [i32; 5],
    axis: usize,
    extent: usize,
    part: &mut [i32],
    to: usize,
    w: usize,
) -> bool
    requires { ValuesAsked entry axis extent to w part.old }
    ensures { Taken to w (in_turn (λ v. with axis v (row_at 0 w entry) ∷ []) extent) part.old part.new result }
{
    let mut row = entry;
    for value in 0..extent {
        cells::store(&mut row, axis, value);
        if !tables::put_row(part, to, w, &row, 0) {
            return false;
        }
    }
    true
}

// The same if the axis is stretched; otherwise nothing is put.
fn put_axis(
    entry: [i32; 5],
    axis: usize,
    from: &[i32],
    old: usize,
    shape: &[i32],
    at: usize,
    rank: usize,
    part: &mut [i32],
    to: usize,
) -> bool
    requires entry_asked { EntryAsked entry old from.now at rank shape.now to part.old }
    requires axis_lt_rank { axis < rank }
    ensures { Taken to (rank + 1) (yield_on (extents_in old from.now) (row_at at rank shape.now) (row_at 0 (rank + 1) entry) axis) part.old part.new result }
{
    if is_stretched(from, old, shape, at, axis) {
        let extent = cells::get(shape, at + axis);
        return put_values(entry, axis, extent, part, to, rank + 1);
    }
    true
}

// The entry itself, and for each stretched axis alone every value there, is put into the table; false where that makes too many entries.
fn put_alone(
    entry: [i32; 5],
    from: &[i32],
    old: usize,
    shape: &[i32],
    at: usize,
    rank: usize,
    part: &mut [i32],
    to: usize,
) -> bool
    requires { EntryAsked entry old from.now at rank shape.now to part.old }
    ensures { Taken to (rank + 1) (alone (row_at at rank shape.now) (stretched_axes (extents_in old from.now) (row_at at rank shape.now)) (row_at 0 (rank + 1) entry)) part.old part.new result }
{
    if !tables::put_row(part, to, rank + 1, &entry, 0) {
        return false;
    }
    for axis in 0..rank {
        if !put_axis(entry, axis, from, old, shape, at, rank, part, to) {
            return false;
        }
    }
    true
}

// The entry with 0 on each stretched axis.
fn cleared(
    entry: [i32; 5],
    from: &[i32],
    old: usize,
    shape: &[i32],
    at: usize,
    rank: usize,
) -> [i32; 5]
    requires { Shapes old from.now at rank shape.now }
    ensures { Cleared (extents_in old from.now) (row_at at rank shape.now) (row_at 0 (rank + 1) entry) (row_at 0 (rank + 1) result) }
{
    let mut row = entry;
    for k in 0..rank {
        if is_stretched(from, old, shape, at, k) {
            cells::store(&mut row, k, 0);
        }
    }
    row
}

// The entry with every combination of values on all stretched axes is put into the table; false where that makes too many entries.
fn put_together(
    entry: [i32; 5],
    from: &[i32],
    old: usize,
    shape: &[i32],
    at: usize,
    rank: usize,
    part: &mut [i32],
    to: usize,
) -> bool
    requires { EntryAsked entry old from.now at rank shape.now to part.old }
    ensures { Taken to (rank + 1) (together (row_at at rank shape.now) (stretched_axes (extents_in old from.now) (row_at at rank shape.now)) (row_at 0 (rank + 1) entry)) part.old part.new result }
{
    let row = cleared(entry, from, old, shape, at, rank);
    let extents = spread_extents(from, old, shape, at, rank, rank);
    let size = axes::product(&extents, 0, rank + 1);
    put_moved(&row, 0, rank + 1, extents, size, part, to)
}

// What the entry yields in a mode is put into the table; false where that makes too many entries.
fn put_yield(
    mode: Mode,
    entry: [i32; 5],
    from: &[i32],
    old: usize,
    shape: &[i32],
    at: usize,
    rank: usize,
    part: &mut [i32],
    to: usize,
) -> bool
    requires { EntryAsked entry old from.now at rank shape.now to part.old }
    ensures { Taken to (rank + 1) (yields mode (row_at at rank shape.now) (stretched_axes (extents_in old from.now) (row_at at rank shape.now)) (row_at 0 (rank + 1) entry)) part.old part.new result }
{
    match mode {
        Mode::Alone => put_alone(entry, from, old, shape, at, rank, part, to),
        Mode::Together => put_together(entry, from, old, shape, at, rank, part, to),
    }
}

// What the dependencies yield in a mode becomes a table of the part, in order and once each; false where they are too many. Where the shape
// stays, each yields itself.
pub fn stretch_deps(
    mode: Mode,
    from: &[i32],
    deps: Entries,
    old: usize,
    shape: &[i32],
    at: usize,
    rank: usize,
    part: &mut [i32],
    to: usize,
) -> bool
    requires { DepsAsked deps.first deps.count old from.now at rank shape.now to part.old }
    ensures { Listed to (rank + 1) (yielded mode deps.first deps.count old from.now (row_at at rank shape.now)) part.old part.new result }
{
    let first = deps.first;
    let count = deps.count;
    if same_shape(from, old, shape, at, rank) {
        tables::sort_from(from, first, count, rank + 1, part, to);
        return true;
    }
    cells::store(part, to, 0);
    for i in 0..count {
        let entry = moving::fitted(from, first + i * (old + 1), old, rank);
        if !put_yield(mode, entry, from, old, shape, at, rank, part, to) {
            return false;
        }
    }
    true
}

// A record stretched to another shape, into a part of the working buffer: which axes stretch, and what a row and a dependency take there.
#![tactic(auto)]

mod spread; // spread.rt: which axes stretch
mod every; // every.rt: every combination of values on some axes
mod rows; // rows.rt: the rows
mod deps; // deps.rt: the dependencies

ghost use Rattle.std.specs.Prelude.{◌≡◌, not, ◌&&◌, ◌+◌, ◌-◌, ◌<◌, ◌≤◌, eqb, length, get_or};
ghost use Rattle.rules.specs.Layout.{alike};
ghost use Rattle.rules.specs.Record.{layout_in};
ghost use Rattle.rules.specs.Stretching.{broadcast_to_shape, broadcast_to_rank};
ghost use Rattle.cells.specs.View.{view};
ghost use Rattle.tables.specs.Rows.{row_at};
ghost use Rattle.records.specs.Sound.{SoundRecord};
ghost use Rattle.parts.specs.Parts.{part_size};
ghost use Rattle.parts.specs.Answers.{Says};
ghost use Rattle.stretch.specs.Layouts.{StretchAsked, FillAsked, TablesMade};

use deps::stretch_deps;
use parts::{INPUTS, STATES};
use rows::stretch_rows;
use rules::{Head, Kind, Mode, Refusal};
use spread::{cut_fit, fitted_extents, shared_fit, spread_extents};

// The rows and both lists of dependencies go into the part; false where one of them is too long.
fn fill(
    mode: Mode,
    from: &[i32],
    head: Head,
    shape: &[i32],
    at: usize,
    rank: usize,
    part: &mut [i32],
) -> bool
    requires { FillAsked head from.now at rank shape.now part.old }
    ensures { TablesMade mode (layout_in from.now) (row_at at rank shape.now) part.old part.new result }
{
    let old = head.rank;
    let rows = head.rows;
    let extents = spread_extents(from, old, shape, at, rank, head.width);
    if !stretch_rows(from, rows.first, rows.count, head.width, extents, part) {
        return false;
    }
    if !stretch_deps(mode, from, head.states, old, shape, at, rank, part, STATES) {
        return false;
    }
    stretch_deps(mode, from, head.inputs, old, shape, at, rank, part, INPUTS)
}

// Whether a record is a diagonal whose axes would no longer be alike.
fn bends(from: &[i32], width: usize, shape: &[i32], at: usize) -> bool
    requires { (0 < length from.now) × (at + width ≤ length shape.now) }
    ensures { result ≡ (eqb (get_or (view from.now) 0 0) 1 && not (alike (row_at at width shape.now))) }
{
    match records::kind_at(from, records::KIND) {
        Kind::Diagonal => !records::alike(shape, at, width),
        _ => false,
    }
}

// The record stretched in a mode to the shape of `rank` extents at a place goes into the part.
pub fn stretch_into(
    mode: Mode,
    from: &[i32],
    head: Head,
    shape: &[i32],
    at: usize,
    rank: usize,
    part: &mut [i32],
) -> Result<(), Refusal>
    requires stretch_asked { StretchAsked head from.now at rank shape.now }
    requires part_size_in_bounds { part_size ≤ length part.old }
    ensures { Says (broadcast_to_shape mode (layout_in from.now) (row_at at rank shape.now)) 0 part.new result }
{
    if !shared_fit(from, head.rank, shape, at, rank) {
        return Err(Refusal::ShapesDisagree);
    }
    if rank < head.width {
        return Err(Refusal::DenseAxes);
    }
    if bends(from, head.width, shape, at) {
        return Err(Refusal::MadeUnsound);
    }
    let kind = cells::get(from, records::KIND);
    let end = at + rank;
    moving::write_head(part, kind, rank - head.width, &shape[at..end]);
    if fill(mode, from, head, shape, at, rank, part) {
        return Ok(());
    }
    Err(Refusal::MadeTooLarge)
}

// The record stretched in a mode, or cut, to a rank goes into the part.
pub fn stretch_to_rank(
    mode: Mode,
    from: &[i32],
    head: Head,
    rank: usize,
    part: &mut [i32],
) -> Result<(), Refusal>
    requires sound_record { SoundRecord head from.now × (rank ≤ 4) }
    requires part_size_in_bounds { part_size ≤ length part.old }
    ensures { Says (broadcast_to_rank mode (layout_in from.now) rank) 0 part.new result }
{
    if !cut_fit(from, head.rank, rank) {
        return Err(Refusal::ShapesDisagree);
    }
    let extents = fitted_extents(from, head.rank, rank);
    stretch_into(mode, from, head, &extents, 0, rank, part)
}

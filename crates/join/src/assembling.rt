// The layout that blocks are joined to, in the target of a window.
ghost use Rattle.std.specs.Prelude.{Ok};
ghost use Rattle.std.specs.Prelude.{◌≡◌, ◌+◌, ◌-◌, ◌<◌, ◌≤◌, pos, length, set};
ghost use Rattle.rules.specs.Layout.{made};
ghost use Rattle.rules.specs.CountsAndForms.{new_scalar};
ghost use Rattle.rules.specs.Concatenate.{join_blocks, concatenate};
ghost use Rattle.rules.specs.Refusals.{given};
ghost use Rattle.cells.specs.View.{view, Low};
ghost use Rattle.tables.specs.Rows.{row_at};
ghost use Rattle.parts.specs.Parts.{window_size, target, rows_from, layout_at};
ghost use Rattle.parts.specs.Answers.{Says};
ghost use Rattle.entries.specs.Merging.{blocks_of};
ghost use Rattle.join.specs.Assembling.{bare, with_joined, by_rows, FrameAsked, FrameMade, DepsAsked, DepsMade, CompleteAsked, BareAsked, DiagonalAsked, RowsAsked, RowsMade, SparseAsked, JoinAsked};

use blocks::Way;
use entries::{Listed, merge_blocks};
use lists::Places;
use parts::{DENSE, INPUTS, ROWS, SPARE, STATES, TARGET};
use rules::Refusal;

const TARGET_DENSE: usize = TARGET + DENSE;

const TARGET_ROWS: usize = TARGET + ROWS;

const TARGET_STATES: usize = TARGET + STATES;

const TARGET_INPUTS: usize = TARGET + INPUTS;

// A kind, a D and extents become the head of the target, which has no rows.
fn write_frame(window: &mut [i32], kind: usize, dense: usize, extents: [i32; 4], rank: usize)
    requires { FrameAsked kind dense rank window.old }
    ensures { FrameMade (bare kind dense (row_at 0 rank extents)) window.old window.new }
{
    moving::write_head(&mut window[TARGET..SPARE], kind, dense, &extents[0..rank]);
    cells::store(window, TARGET_ROWS, 0);
}

// The dependencies of all blocks go to the target; false where they are too many, or too large.
fn add_deps(
    s: &[i32],
    places: &Places,
    starts: [[usize; 4]; 16],
    rank: usize,
    window: &mut [i32],
) -> bool
    requires { DepsAsked rank places.now.count places.now.at starts s.now window.old }
    ensures { DepsMade rank (blocks_of rank places.now.count places.now.at s.now) window.old window.new result }
{
    let w = rank + 1;
    if !merge_blocks(
        Listed::States,
        s,
        places,
        starts,
        rank,
        w,
        window,
        TARGET_STATES,
    ) {
        return false;
    }
    merge_blocks(
        Listed::Inputs,
        s,
        places,
        starts,
        rank,
        w,
        window,
        TARGET_INPUTS,
    )
}

// The head and the rows in the target become a layout with the dependencies of all blocks.
fn complete(
    s: &[i32],
    places: &Places,
    starts: [[usize; 4]; 16],
    rank: usize,
    window: &mut [i32],
) -> Result<(), Refusal>
    requires { CompleteAsked rank places.now.count places.now.at starts s.now window.old }
    ensures { Says (made (with_joined rank (blocks_of rank places.now.count places.now.at s.now) (layout_at target window.old))) target window.new result }
{
    if add_deps(s, places, starts, rank, window) {
        return Ok(());
    }
    Err(Refusal::MadeTooLarge)
}

// The blocks become a layout with a head, no rows and the dependencies of all of them.
fn join_bare(
    s: &[i32],
    places: &Places,
    starts: [[usize; 4]; 16],
    kind: usize,
    dense: usize,
    extents: [i32; 4],
    rank: usize,
    window: &mut [i32],
) -> Result<(), Refusal>
    requires { BareAsked kind dense extents rank places.now.count places.now.at starts s.now window.old }
    ensures { Says (made (with_joined rank (blocks_of rank places.now.count places.now.at s.now) (bare kind dense (row_at 0 rank extents)))) target window.new result }
{
    if !axes::within_product(&extents, 0, rank) {
        return Err(Refusal::MadeTooLarge);
    }
    write_frame(window, kind, dense, extents, rank);
    complete(s, places, starts, rank, window)
}

// The blocks become a diagonal: 12 where no axis is left for it.
fn join_diagonal(
    s: &[i32],
    places: &Places,
    starts: [[usize; 4]; 16],
    dense: usize,
    extents: [i32; 4],
    rank: usize,
    window: &mut [i32],
) -> Result<(), Refusal>
    requires { DiagonalAsked dense extents rank places.now.count places.now.at starts s.now window.old }
    ensures { Says (made (with_joined rank (blocks_of rank places.now.count places.now.at s.now) (bare 1 dense (row_at 0 rank extents)))) target window.new result }
{
    if rank == dense {
        return Err(Refusal::MadeUnsound);
    }
    join_bare(s, places, starts, 1, dense, extents, rank, window)
}

// The layout in the target becomes dense, with no rows.
fn turn_dense(window: &mut [i32], rank: usize)
    requires { (window_size ≤ length window.old) × (rank ≤ 4) }
    ensures { window.new ≡ set (set (set window.old target (pos 0)) (target + 1) (pos rank)) (target + rows_from) (pos 0) }
{
    cells::store(window, TARGET, 0);
    cells::store(window, TARGET_DENSE, rank);
    cells::store(window, TARGET_ROWS, 0);
}

// The rows of all blocks go to the target, which is dense if they number the product; false where they are too many.
fn add_rows(
    s: &[i32],
    places: &Places,
    starts: [[usize; 4]; 16],
    dense: usize,
    extents: [i32; 4],
    rank: usize,
    window: &mut [i32],
) -> bool
    requires { RowsAsked dense extents rank places.now.count places.now.at starts s.now window.old }
    ensures { RowsMade dense extents rank (blocks_of rank places.now.count places.now.at s.now) window.old window.new result }
{
    write_frame(window, 2, dense, extents, rank);
    if !merge_blocks(
        Listed::Rows,
        s,
        places,
        starts,
        rank,
        rank - dense,
        window,
        TARGET_ROWS,
    ) {
        return false;
    }
    if cells::get(window, TARGET_ROWS) == axes::product(&extents, 0, rank) {
        turn_dense(window, rank);
    }
    true
}

// The blocks are joined by their rows, and are dense if these number the product.
fn join_rows(
    s: &[i32],
    places: &Places,
    starts: [[usize; 4]; 16],
    dense: usize,
    extents: [i32; 4],
    rank: usize,
    window: &mut [i32],
) -> Result<(), Refusal>
    requires { SparseAsked dense extents rank places.now.count places.now.at starts s.now window.old }
    ensures { Says (by_rows dense (row_at 0 rank extents) rank (blocks_of rank places.now.count places.now.at s.now)) target window.new result }
{
    if !axes::within_product(&extents, 0, rank) {
        return Err(Refusal::MadeTooLarge);
    }
    if !add_rows(s, places, starts, dense, extents, rank, window) {
        return Err(Refusal::MadeTooLarge);
    }
    complete(s, places, starts, rank, window)
}

// Extents as a slice holds them.
fn whole_extents(e: [usize; 4]) -> [i32; 4]
    requires { Low e × (length e ≡ 4) }
    ensures { view result ≡ e }
{
    // Not `e.map(cells::whole)`: its `map-requires` did not close, as std has no lemma on the items of an array.
    [
        cells::whole(e[0]),
        cells::whole(e[1]),
        cells::whole(e[2]),
        cells::whole(e[3]),
    ]
}

// One block or more are joined to one layout in the target.
fn join_blocks(
    s: &[i32],
    places: &Places,
    records: &Places,
    starts: [[usize; 4]; 16],
    rank: usize,
    window: &mut [i32],
) -> Result<(), Refusal>
    requires join_asked { JoinAsked rank places.now.count places.now.at records.now.at starts s.now window.old × (0 < places.now.count) }
    requires counts { records.now.count ≡ places.now.count }
    ensures { Says (join_blocks rank (blocks_of rank places.now.count places.now.at s.now)) target window.new result }
{
    let join = blocks::join_of(s, records, starts, rank);
    let dense = join.dense;
    let extents = whole_extents(join.extents);
    match join.way {
        Way::Unjoinable => Err(Refusal::Unjoinable),
        Way::Dense => join_bare(s, places, starts, 0, dense, extents, rank, window),
        Way::Diagonal => join_diagonal(s, places, starts, dense, extents, rank, window),
        Way::Rows => join_rows(s, places, starts, dense, extents, rank, window),
    }
}

// The scalar goes to the target.
fn write_scalar(window: &mut [i32])
    requires { window_size ≤ length window.old }
    ensures { Says (given new_scalar) target window.new (Ok tt) }
{
    write_frame(window, 0, 0, [0; 4], 0);
    cells::store(window, TARGET_STATES, 0);
    cells::store(window, TARGET_INPUTS, 0);
}

// Blocks are joined to one layout in the target; no blocks are the scalar.
pub fn concatenate_into(
    s: &[i32],
    places: &Places,
    records: &Places,
    starts: [[usize; 4]; 16],
    rank: usize,
    window: &mut [i32],
) -> Result<(), Refusal>
    requires join_asked { JoinAsked rank places.now.count places.now.at records.now.at starts s.now window.old }
    requires counts { records.now.count ≡ places.now.count }
    ensures { Says (concatenate (blocks_of rank places.now.count places.now.at s.now) rank) target window.new result }
{
    if places.count == 0 {
        write_scalar(window);
        return Ok(());
    }
    join_blocks(s, places, records, starts, rank, window)
}

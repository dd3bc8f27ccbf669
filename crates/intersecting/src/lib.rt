// The intersection of the left and the right layout of a window.
#![tactic(auto)]

mod filter; // filter.rt: the dependencies of both, lowered, merged, and filtered by the head and the rows in the target

ghost use Rattle.std.specs.Prelude.{◌≡◌};
ghost use Rattle.rules.specs.Intersect.{intersect};
ghost use Rattle.parts.specs.Parts.{left, layout_at, Window};
ghost use Rattle.combine.specs.Window.{RowsAsked, BothAsked, Rising, Combined};
ghost use Rattle.intersecting.specs.Intersecting.{OrderedWindow, other_of, DenseAsked, CommonMade, FillAsked, FilledUp, CommonLaid};

use combine::{LEFT_DENSE, LEFT_RANK, OTHER_SPARE_ROWS, SPARE_ROWS, TARGET_ROWS, Way};
use filter::{bars_common, bars_filter, merge_held};
use parts::{DENSE, EXTENTS, LEFT, RANK, RIGHT, STATES, TARGET};
use rules::Refusal;

// Where the other one than a dense one stands: the right layout if the left one is dense, else the left one.
fn other_of(window: &[i32]) -> usize
    requires { Window window.now }
    ensures { result ≡ other_of (layout_at left window.now) }
{
    if combine::is_dense(window, LEFT) {
        RIGHT
    } else {
        LEFT
    }
}

// With a dense one: the head and the rows of the other one, and the dependencies of both that it holds; 11 where its dense axes stand in
// the way.
fn with_dense(window: &mut [i32]) -> Result<(), Refusal>
    requires { DenseAsked window.old }
    ensures { Combined intersect window.old window.new result }
{
    let other = other_of(window);
    if bars_filter(window, other) {
        return Err(Refusal::DenseAxes);
    }
    let rank = cells::get(window, LEFT_RANK);
    cells::move_part(window, other, TARGET, STATES);
    combine::made(merge_held(window, rank))
}

// The rows that both layouts have, with D lowered to d, stand in the target behind a head; false where one has too many rows.
fn common_rows(window: &mut [i32], d: usize) -> bool
    requires both_asked { BothAsked d window.old }
    requires rising { Rising window.old }
    ensures { CommonMade d window.old window.new result }
{
    if combine::lower_both(window, d, true) {
        let w = cells::get(window, LEFT_RANK) - d;
        tables::common_into(window, SPARE_ROWS, OTHER_SPARE_ROWS, TARGET_ROWS, w);
        combine::write_head(window, 2, d);
        return true;
    }
    false
}

// The sparse layout in the target becomes dense if its rows number the product of its extents.
fn fill_up(window: &mut [i32])
    requires { FillAsked window.old }
    ensures { FilledUp window.old window.new }
{
    let rank = cells::get(window, TARGET + RANK);
    if cells::get(window, TARGET_ROWS) != axes::product(window, TARGET + EXTENTS, rank) {
        return;
    }
    cells::store(window, TARGET, 0);
    cells::store(window, TARGET + DENSE, rank);
    cells::store(window, TARGET_ROWS, 0);
}

// The common rows of both layouts, with D lowered to d, become the intersection of both; false where a list of a lowered one or of it is
// too long.
fn common_layout(window: &mut [i32], d: usize) -> bool
    requires both_asked { BothAsked d window.old }
    requires rising { Rising window.old }
    ensures { CommonLaid d window.old window.new result }
{
    if !common_rows(window, d) {
        return false;
    }
    if !merge_held(window, d) {
        return false;
    }
    fill_up(window);
    true
}

// The intersection of both layouts by their rows: 11 where a diagonal or the common rows have dense axes in the way, 12 where a row would be
// listed while dense axes are left.
fn intersect_rows(window: &mut [i32]) -> Result<(), Refusal>
    requires rows_asked { RowsAsked window.old }
    requires rising { Rising window.old }
    ensures { Combined intersect window.old window.new result }
{
    if combine::either_bars(window) {
        return Err(Refusal::DenseAxes);
    }
    let d = combine::lower_dense(window);
    if bars_common(window, d) {
        return Err(Refusal::DenseAxes);
    }
    if combine::either_lists(window, d) {
        return Err(Refusal::MadeUnsound);
    }
    combine::made(common_layout(window, d))
}

// The intersection of the left and the right layout, whose rows are in order, goes to the target.
pub fn intersect_in(window: &mut [i32]) -> Result<(), Refusal>
    requires { OrderedWindow window.old }
    ensures { Combined intersect window.old window.new result }
{
    if !combine::same_shapes(window) {
        return Err(Refusal::ShapesDisagree);
    }
    match combine::way_of(window) {
        Way::Dense => with_dense(window),
        Way::Diagonals => {
            let dense = cells::get(window, LEFT_DENSE);
            combine::made(combine::complete_bare(window, 1, dense))
        }
        Way::Rows => intersect_rows(window),
    }
}

// The union of the left and the right layout of a window.
ghost use Rattle.std.specs.Prelude.{◌≡◌, true};
ghost use Rattle.rules.specs.Union.{union};
ghost use Rattle.parts.specs.Parts.{left, right, layout_at, Window};
ghost use Rattle.combine.specs.Window.{RowsAsked, BothAsked, Rising, Made, Combined};
ghost use Rattle.combine.specs.Uniting.{RowsJoined, united_rows};

use super::window::{
    LEFT_DENSE, LEFT_RANK, OTHER_SPARE_ROWS, SPARE_ROWS, TARGET_ROWS, Way, complete, complete_bare,
    either_bars, either_lists, lower_both, lower_dense, made, same_shapes, way_of,
};
use rules::Refusal;

// The rows of both layouts, with D lowered to d, are joined in the target; false where they are too many.
fn join_rows(window: &mut [i32], d: usize, rising: bool) -> bool
    requires both_asked { BothAsked d window.old }
    requires rising { rising ≡ true → Rising window.old }
    ensures { RowsJoined d window.old window.new result }
{
    if lower_both(window, d, rising) {
        let w = cells::get(window, LEFT_RANK) - d;
        return tables::merge_into(window, SPARE_ROWS, OTHER_SPARE_ROWS, TARGET_ROWS, w);
    }
    false
}

// The rows of both layouts, with D lowered to d, become the union of both; false where a list of it is too long.
fn join_layouts(window: &mut [i32], d: usize, rising: bool) -> bool
    requires both_asked { BothAsked d window.old }
    requires rising { rising ≡ true → Rising window.old }
    ensures { Made (united_rows (layout_at left window.old) (layout_at right window.old)) window.old window.new result }
{
    if join_rows(window, d, rising) {
        return complete(window, 2, d);
    }
    false
}

// The union of both layouts by their rows: 11 where a diagonal has dense axes, 12 where a row would be listed while dense axes are left.
fn unite_rows(window: &mut [i32], rising: bool) -> Result<(), Refusal>
    requires rows_asked { RowsAsked window.old }
    requires rising { rising ≡ true → Rising window.old }
    ensures { Combined union window.old window.new result }
{
    if either_bars(window) {
        return Err(Refusal::DenseAxes);
    }
    let d = lower_dense(window);
    if either_lists(window, d) {
        return Err(Refusal::MadeUnsound);
    }
    made(join_layouts(window, d, rising))
}

// The union of the left and the right layout goes to the target. Whether the rows of both are known to increase is told.
pub fn union_in(window: &mut [i32], rising: bool) -> Result<(), Refusal>
    requires window { Window window.old }
    requires rising { rising ≡ true → Rising window.old }
    ensures { Combined union window.old window.new result }
{
    if !same_shapes(window) {
        return Err(Refusal::ShapesDisagree);
    }
    match way_of(window) {
        Way::Dense => {
            let rank = cells::get(window, LEFT_RANK);
            made(complete_bare(window, 0, rank))
        }
        Way::Diagonals => {
            let dense = cells::get(window, LEFT_DENSE);
            made(complete_bare(window, 1, dense))
        }
        Way::Rows => unite_rows(window, rising),
    }
}

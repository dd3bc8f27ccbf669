// The dependencies of both layouts, lowered, merged, and filtered by the head and the rows in the target.
ghost use Rattle.std.specs.Prelude.{◌≡◌, ◌&&◌, ◌||◌, ltb};
ghost use Rattle.rules.specs.Intersect.{bars_merged};
ghost use Rattle.parts.specs.Parts.{left, right, layout_at, Holds, Window};
ghost use Rattle.intersecting.specs.Intersecting.{depends, OtherAsked, TakeAsked, HeldTaken, ListAsked, ListMerged, MergeAsked, DepsMerged};

use combine::LEFT_RANK;
use parts::{DENSE, EXTENTS, INPUTS, LEFT, OTHER_SPARE, RANK, RIGHT, SPARE, STATES, TARGET};
use rules::Kind;

// Whether the layout at a place has a dependency, with its D lowered to d.
fn has_deps(s: &[i32], at: usize, d: usize) -> bool
    requires { Holds at s.now }
    ensures { result ≡ depends (layout_at at s.now) d }
{
    if cells::get(s, at + STATES) + cells::get(s, at + INPUTS) == 0 {
        return false;
    }
    if lowering::removes_axes(s, at, d) {
        let rank = cells::get(s, at + RANK);
        let w = rank - (cells::get(s, at + DENSE) - d);
        return 0 < lowering::product(s, at + EXTENTS, w, rank);
    }
    true
}

// Whether one of both layouts has such a dependency.
fn either_has_deps(window: &[i32], d: usize) -> bool
    requires { Window window.now }
    ensures { result ≡ (depends (layout_at left window.now) d || depends (layout_at right window.now) d) }
{
    has_deps(window, LEFT, d) || has_deps(window, RIGHT, d)
}

// Whether the layout at a place is sparse with dense axes, and either one has a dependency.
pub fn bars_filter(window: &[i32], other: usize) -> bool
    requires { OtherAsked other window.now }
    ensures { result ≡ bars_merged (layout_at left window.now) (layout_at right window.now) (layout_at other window.now) }
{
    let Kind::Sparse = records::kind_at(window, other) else {
        return false;
    };
    if cells::get(window, other + DENSE) == 0 {
        return false;
    }
    let rank = cells::get(window, LEFT_RANK);
    either_has_deps(window, rank)
}

// Whether d axes stay dense, and either one has a dependency with its D lowered to d.
pub fn bars_common(window: &[i32], d: usize) -> bool
    requires { Window window.now }
    ensures { result ≡ (ltb 0 d && (depends (layout_at left window.now) d || depends (layout_at right window.now) d)) }
{
    0 < d && either_has_deps(window, d)
}

// One list of the layout at a place, lowered to d: those entries that the target holds go to the same list of another part; false where
// the lowered ones are too many.
fn take_held(window: &mut [i32], at: usize, d: usize, list: usize, to: usize) -> bool
    requires { TakeAsked at list to window.old }
    ensures { HeldTaken at d list to window.old window.new result }
{
    if lowering::lower_deps_into(window, at, d, at + list, TARGET + list) {
        filtering::keep_held(window, TARGET, TARGET + list, to + list);
        return true;
    }
    false
}

// One list of both layouts, lowered to d and filtered, is merged into the target; false where a list is too long.
fn merge_list(window: &mut [i32], d: usize, list: usize) -> bool
    requires { ListAsked list window.old }
    ensures { ListMerged d list window.old window.new result }
{
    if !take_held(window, LEFT, d, list, SPARE) {
        return false;
    }
    if !take_held(window, RIGHT, d, list, OTHER_SPARE) {
        return false;
    }
    let w = cells::get(window, LEFT_RANK) + 1;
    tables::merge_into(window, SPARE + list, OTHER_SPARE + list, TARGET + list, w)
}

// Both lists of both layouts, lowered to d and filtered, are merged into the target; false where a list is too long.
pub fn merge_held(window: &mut [i32], d: usize) -> bool
    requires { MergeAsked window.old }
    ensures { DepsMerged d window.old window.new result }
{
    merge_list(window, d, STATES) && merge_list(window, d, INPUTS)
}

// One shape at the front of a slice: its count, then its extents.
ghost use Rattle.std.specs.Prelude.{◌≡◌, ◌≤◌, eqb, length, get_or};
ghost use Rattle.rules.specs.Lists.{any};
ghost use Rattle.rules.specs.Layout.{within_product};
ghost use Rattle.rules.specs.Record.{shape_in, good_shape};
ghost use Rattle.rules.specs.Arguments.{over_shape};
ghost use Rattle.rules.specs.Shapes.{can_broadcast_to};
ghost use Rattle.cells.specs.View.{Low};
ghost use Rattle.shapes.specs.Judged.{Judged, axis_stretches};

use super::numbers::natural_at;

// Whether the count of extents is over 4.
pub fn over_shape(s: &[i32]) -> bool
    ensures { result ≡ over_shape s.now }
{
    4 < natural_at(s, 0)
}

// Whether the product of those of four extents by value that are not zero is at most 65,536.
pub fn within_product(extents: [usize; 4]) -> bool
    requires { Low extents }
    ensures { result ≡ within_product extents }
{
    let row = [
        cells::whole(extents[0]),
        cells::whole(extents[1]),
        cells::whole(extents[2]),
        cells::whole(extents[3]),
    ];
    axes::within_product(&row, 0, 4)
}

// Whether the shape obeys the extent rules.
pub fn good_shape(s: &[i32]) -> bool
    ensures { result ≡ good_shape s.now }
{
    match records::section_at(s, 0, 1) {
        Some(extents) => {
            if !records::all_natural(s, extents.next) {
                return false;
            }
            axes::within_product(s, 1, extents.count)
        }
        None => false,
    }
}

// The count of extents.
pub fn rank(s: &[i32]) -> usize
    requires { Judged s.now }
    ensures { (result ≡ length (shape_in s.now)) × (result ≤ 4) }
{
    natural_at(s, 0)
}

// The extent of an axis; a missing axis counts 1.
pub fn extent(s: &[i32], axis: usize) -> usize
    requires { Judged s.now }
    ensures { (result ≡ get_or (shape_in s.now) axis 1) × (result ≤ 65536) }
{
    if axis < rank(s) {
        return natural_at(s, axis + 1);
    }
    1
}

// Whether an extent is zero.
pub fn any_zero(s: &[i32]) -> bool
    requires { Judged s.now }
    ensures { result ≡ any (eqb 0) (shape_in s.now) }
{
    let axes = rank(s);
    for axis in 0..axes {
        if extent(s, axis) == 0 {
            return true;
        }
    }
    false
}

// Whether an axis of the extent `from` stretches to the extent `to`.
fn axis_stretches(to: usize, from: usize) -> bool
    ensures { result ≡ axis_stretches to from }
{
    from <= to && (from == 1 || from == to)
}

// Whether the shape `from` broadcasts to the shape `to`.
pub fn stretches(to: &[i32], from: &[i32]) -> bool
    requires judged { Judged to.now }
    requires judged_2 { Judged from.now }
    ensures { result ≡ can_broadcast_to (shape_in to.now) (shape_in from.now) }
{
    let axes = rank(to);
    if axes < rank(from) {
        return false;
    }
    for axis in 0..axes {
        if !axis_stretches(extent(to, axis), extent(from, axis)) {
            return false;
        }
    }
    true
}

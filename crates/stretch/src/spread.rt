// Which axes stretch: those added, and those of extent 1 that change. The old extents stand in a record, the new ones at a place of a slice.
ghost use Rattle.std.specs.Prelude.{◌≡◌, ◌||◌, ◌+◌, ◌≤◌, ◌<◌, eqb, length, drop};
ghost use Rattle.rules.specs.Lists.{all, same, fit_to};
ghost use Rattle.rules.specs.Stretching.{shared_axes_fit, is_stretched};
ghost use Rattle.cells.specs.View.{view};
ghost use Rattle.tables.specs.Rows.{row_at};
ghost use Rattle.stretch.specs.Spread.{Shapes, extents_in, values_on, SpreadIs};

use records::EXTENTS;

// Whether an extent may become another one: it is 1, or the same.
fn axis_fits(extent: usize, new: usize) -> bool
    ensures { result ≡ (eqb extent 1 || eqb extent new) }
{
    extent == 1 || extent == new
}

// Whether each axis that both shapes have is 1 or equal.
pub fn shared_fit(from: &[i32], old: usize, shape: &[i32], at: usize, rank: usize) -> bool
    requires { Shapes old from.now at rank shape.now }
    ensures { result ≡ shared_axes_fit (extents_in old from.now) (row_at at rank shape.now) }
{
    let both = old.min(rank);
    for k in 0..both {
        if !axis_fits(cells::get(from, EXTENTS + k), cells::get(shape, at + k)) {
            return false;
        }
    }
    true
}

// Whether the new shape is the old one.
pub fn same_shape(from: &[i32], old: usize, shape: &[i32], at: usize, rank: usize) -> bool
    requires { Shapes old from.now at rank shape.now }
    ensures { result ≡ same (extents_in old from.now) (row_at at rank shape.now) }
{
    old == rank && tables::same_numbers(from, EXTENTS, shape, at, rank)
}

// Whether each axis from a rank on has extent 1.
pub fn cut_fit(from: &[i32], old: usize, rank: usize) -> bool
    requires { 3 + old ≤ length from.now }
    ensures { result ≡ all (eqb 1) (drop rank (extents_in old from.now)) }
{
    for k in rank..old {
        if cells::get(from, EXTENTS + k) != 1 {
            return false;
        }
    }
    true
}

// The extents of a record, cut to a rank or filled up with 1.
pub fn fitted_extents(from: &[i32], old: usize, rank: usize) -> [i32; 4]
    requires { (3 + old ≤ length from.now) × (old ≤ 4) × (rank ≤ 4) }
    ensures { row_at 0 rank result ≡ fit_to rank 1 (extents_in old from.now) }
{
    let mut extents = [1i32; 4];
    let end = EXTENTS + old.min(rank);
    cells::copy(&from[EXTENTS..end], &mut extents);
    extents
}

// Whether an axis is stretched.
pub fn is_stretched(from: &[i32], old: usize, shape: &[i32], at: usize, axis: usize) -> bool
    requires { (3 + old ≤ length from.now) × (at + axis < length shape.now) }
    ensures { result ≡ is_stretched (extents_in old from.now) (drop at (view shape.now)) axis }
{
    old <= axis || (cells::get(from, EXTENTS + axis) == 1 && cells::get(shape, at + axis) != 1)
}

// How many values an axis takes: as many as its new extent says where it is stretched, 1 otherwise.
fn values(from: &[i32], old: usize, shape: &[i32], at: usize, axis: usize) -> usize
    requires { (3 + old ≤ length from.now) × (at + axis < length shape.now) }
    ensures { result ≡ values_on (extents_in old from.now) (drop at (view shape.now)) axis }
{
    if is_stretched(from, old, shape, at, axis) {
        cells::get(shape, at + axis)
    } else {
        1
    }
}

// How many values each of the first w axes takes, and 1 behind them.
pub fn spread_extents(
    from: &[i32],
    old: usize,
    shape: &[i32],
    at: usize,
    rank: usize,
    w: usize,
) -> [i32; 5]
    requires shapes { Shapes old from.now at rank shape.now }
    requires w_le_rank { w ≤ rank }
    ensures { SpreadIs (extents_in old from.now) (row_at at rank shape.now) w result }
{
    let mut extents = [1i32; 5];
    for k in 0..w {
        cells::store(&mut extents, k, values(from, old, shape, at, k));
    }
    extents
}

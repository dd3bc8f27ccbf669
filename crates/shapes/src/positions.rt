// Indices and their numbers in row-major order.
ghost use Rattle.std.specs.Prelude.{◌≡◌, true, false, eqb, length};
ghost use Rattle.rules.specs.Limits.{rank_limit};
ghost use Rattle.rules.specs.Lists.{any, fit_to};
ghost use Rattle.rules.specs.Record.{naturals, shape_in};
ghost use Rattle.rules.specs.Arguments.{good_index};
ghost use Rattle.rules.specs.Positions.{ravel_index, unravel};
ghost use Rattle.shapes.specs.Judged.{Judged};

use super::extents::{extent, rank};
use super::numbers::natural_at;

// The number of an index, which may lie outside its shape.
pub fn ravel(index: &[i32], shape: &[i32]) -> usize
    requires judged { Judged shape.now }
    requires shape_value { good_index index.now (length (shape_in shape.now)) ≡ true }
    ensures { result ≡ ravel_index (naturals index.now) (shape_in shape.now) }
{
    let mut number: usize = 0;
    for k in 0..index.len() {
        number = number * extent(shape, k) + natural_at(index, k);
    }
    number
}

// The index of a number by value, zeros behind it.
pub fn unravel(n: usize, shape: &[i32]) -> [usize; 4]
    requires judged { Judged shape.now }
    requires shape_value { any (eqb 0) (shape_in shape.now) ≡ false }
    ensures { result ≡ fit_to rank_limit 0 (unravel n (shape_in shape.now)) }
{
    let mut index = [0i32; 4];
    axes::unravel_into(n, shape, 1, rank(shape), &mut index, 0);
    [
        cells::get(&index, 0),
        cells::get(&index, 1),
        cells::get(&index, 2),
        cells::get(&index, 3),
    ]
}

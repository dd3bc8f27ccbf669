// Module 2, positions: indices and their numbers in row-major order.
ghost use Rattle.std.specs.Prelude.{◌≡◌};
ghost use Rattle.rules.specs.Endings.{says, TupleIs};
ghost use Rattle.rules.specs.Record.{shape_in};
ghost use Rattle.rules.specs.Positions.{ravel_index_call, unravel_index, unravel_index_call, cmp_index_call};
ghost use Rattle.shapes.specs.Judged.{Judged};

use rules::{Refusal, Tuple};
use std::cmp::Ordering;

// The number of an index in row-major order.
pub fn ravel_index(index: &[i32], shape: &[i32]) -> Result<usize, Refusal>
    ensures { says result ≡ ravel_index_call index.now shape.now }
{
    if shapes::over_shape(shape) {
        return Err(Refusal::OverCount);
    }
    if !shapes::good_shape(shape) {
        return Err(Refusal::WrongArgument);
    }
    if !shapes::good_index(index, shapes::rank(shape)) {
        return Err(Refusal::WrongArgument);
    }
    Ok(shapes::ravel(index, shape))
}

// The index of a number over a shape that was judged.
fn index_of(number: usize, shape: &[i32]) -> Result<Tuple, Refusal>
    requires { Judged shape.now }
    ensures { TupleIs (unravel_index number (shape_in shape.now)) result }
{
    if shapes::any_zero(shape) {
        return Err(Refusal::ShapesDisagree);
    }
    Ok(Tuple {
        count: shapes::rank(shape),
        numbers: shapes::unravel(number, shape),
    })
}

// The index of a number in row-major order.
pub fn unravel_index(n: i32, shape: &[i32]) -> Result<Tuple, Refusal>
    ensures { TupleIs (unravel_index_call n shape.now) result }
{
    if shapes::over_shape(shape) {
        return Err(Refusal::OverCount);
    }
    if !shapes::good_shape(shape) {
        return Err(Refusal::WrongArgument);
    }
    let number = cells::sign_of(n).ok_or(Refusal::WrongArgument)?;
    index_of(number, shape)
}

// How two indices compare.
pub fn cmp_index(a: &[i32], b: &[i32]) -> Result<Ordering, Refusal>
    ensures { says result ≡ cmp_index_call a.now b.now }
{
    if !shapes::comparable(a, b) {
        return Err(Refusal::WrongArgument);
    }
    Ok(tables::cmp_rows(a, 0, b, 0, a.len()))
}

// Module 1, shapes: the common shape, and whether a shape broadcasts to another.
ghost use Rattle.std.specs.Prelude.{◌≡◌};
ghost use Rattle.rules.specs.Endings.{says, TupleIs};
ghost use Rattle.rules.specs.Shapes.{broadcast_shapes_call, can_broadcast_to_call};

use lists::{Ask, Thing};
use rules::{Refusal, Tuple};

// The common shape of as many shapes as `count` says, end to end.
pub fn broadcast_shapes(shapes: &[i32], count: i32) -> Result<Tuple, Refusal>
    ensures { TupleIs (broadcast_shapes_call shapes.now count) result }
{
    if shapes::over_count(count) {
        return Err(Refusal::OverCount);
    }
    let n = shapes::list_count(count);
    let places = lists::places_of(Thing::Shape, shapes, n);
    if !lists::all_pass(Ask::FewAxes, shapes, &places) {
        return Err(Refusal::OverCount);
    }
    if !lists::all_pass(Ask::GoodShape, shapes, &places) {
        return Err(Refusal::WrongArgument);
    }
    lists::agreed_shape(shapes, &places)
}

// Whether the shape `from` broadcasts to the shape `to`.
pub fn can_broadcast_to(to: &[i32], from: &[i32]) -> Result<bool, Refusal>
    ensures { says result ≡ can_broadcast_to_call to.now from.now }
{
    if shapes::over_shape(to) {
        return Err(Refusal::OverCount);
    }
    if shapes::over_shape(from) {
        return Err(Refusal::OverCount);
    }
    if !shapes::good_shape(to) {
        return Err(Refusal::WrongArgument);
    }
    if !shapes::good_shape(from) {
        return Err(Refusal::WrongArgument);
    }
    Ok(shapes::stretches(to, from))
}

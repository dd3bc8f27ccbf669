// The common shape of shapes, each a count and its extents at one of the places.
ghost use Rattle.std.specs.Prelude.{◌≡◌, map, ◌≤◌, length};
ghost use Rattle.rules.specs.Limits.{rank_limit};
ghost use Rattle.rules.specs.Lists.{larger, largest, fit_to};
ghost use Rattle.rules.specs.Record.{shape_in};
ghost use Rattle.rules.specs.Refusals.{refused, number_of};
ghost use Rattle.rules.specs.Shapes.{shapes_agree, common_shape, broadcast_shapes};
ghost use Rattle.rules.specs.Endings.{TupleIs};
ghost use Rattle.shapes.specs.Judged.{Judged};
ghost use Rattle.lists.specs.Places.{EachAt};
ghost use Rattle.lists.specs.Asked.{measure, shapes_at, RankFew};

use super::asks::{Ask, all_pass};
use super::walking::Places;
use rules::{Refusal, Tuple};

// What is measured of a shape.
#[derive(Clone, Copy)]
enum Measure {
    Rank,
    Extent(usize),
}

// The measure of the shape at the front of a slice.
fn measured(what: Measure, s: &[i32]) -> usize
    requires { Judged s.now }
    ensures { result ≡ measure what (shape_in s.now) }
{
    match what {
        Measure::Rank => shapes::rank(s),
        Measure::Extent(axis) => shapes::extent(s, axis),
    }
}

// The larger of two numbers.
pub fn larger(x: usize, y: usize) -> usize
    ensures { result ≡ larger x y }
{
    if x < y {
        return y;
    }
    x
}

// The largest measure of the shapes.
fn largest(what: Measure, s: &[i32], places: &Places) -> usize
    requires { EachAt Judged places.now.count places.now.at s.now }
    ensures { result ≡ largest (map (measure what) (shapes_at places.now.count places.now.at s.now)) }
{
    let mut most = 0;
    for i in 0..places.count {
        let at = places.at[i];
        most = larger(most, measured(what, &s[at..]));
    }
    most
}

// The largest count of extents.
fn longest(s: &[i32], places: &Places) -> usize
    requires { EachAt Judged places.now.count places.now.at s.now }
    ensures { (result ≡ largest (map length (shapes_at places.now.count places.now.at s.now))) × (result ≤ 4) }
{
    largest(Measure::Rank, s, places)
}

// Whether the shapes agree on every axis: each extent is 1 or the largest one.
fn shapes_agree(s: &[i32], places: &Places) -> bool
    requires { EachAt Judged places.now.count places.now.at s.now }
    ensures { result ≡ shapes_agree (shapes_at places.now.count places.now.at s.now) }
{
    let axes = longest(s, places);
    for axis in 0..axes {
        let common = largest(Measure::Extent(axis), s, places);
        if !all_pass(Ask::Agrees(axis, common), s, places) {
            return false;
        }
    }
    true
}

// The extents of the common shape by value, zeros behind them: the largest of each axis.
fn common_extents(s: &[i32], places: &Places) -> [usize; 4]
    requires { EachAt Judged places.now.count places.now.at s.now }
    ensures { result ≡ fit_to rank_limit 0 (common_shape (shapes_at places.now.count places.now.at s.now)) }
{
    let mut extents = [0usize; 4];
    let axes = longest(s, places);
    for axis in 0..axes {
        extents[axis] = largest(Measure::Extent(axis), s, places);
    }
    extents
}

// The common shape of shapes that were judged: 6 where they do not agree or there are none, 13 where it passes the limit.
pub fn agreed_shape(s: &[i32], places: &Places) -> Result<Tuple, Refusal>
    requires { EachAt Judged places.now.count places.now.at s.now }
    ensures is { TupleIs (broadcast_shapes (shapes_at places.now.count places.now.at s.now)) result }
    ensures few { RankFew places.now.count result }
{
    if places.count == 0 {
        return Err(Refusal::ShapesDisagree);
    }
    if !shapes_agree(s, places) {
        return Err(Refusal::ShapesDisagree);
    }
    let axes = longest(s, places);
    let numbers = common_extents(s, places);
    if !shapes::within_product(numbers) {
        return Err(Refusal::MadeTooLarge);
    }
    Ok(Tuple {
        count: axes,
        numbers,
    })
}

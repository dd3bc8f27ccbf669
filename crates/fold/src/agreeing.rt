// The common shape of the records of a list.
ghost use Rattle.rules.specs.Endings.{TupleIs};
ghost use Rattle.cells.specs.View.{Low};
ghost use Rattle.lists.specs.Places.{EachAt};
ghost use Rattle.lists.specs.Asked.{RankFew};
ghost use Rattle.lists.specs.Records.{JudgedRecord};
ghost use Rattle.fold.specs.Stretched.{common_of, ShapeIs};

use lists::Places;
use rules::{Refusal, Tuple};

// A shape as slices hold it: how many extents it has, and these, with zeros behind them.
#[derive(Clone, Copy)]
pub struct Shape {
    pub rank: usize,
    pub extents: [i32; 4],
}

// The common shape of the records: 6 where they do not agree or there are none, 13 where it passes the limit.
pub fn common_shape(layouts: &[i32], places: &Places) -> Result<Tuple, Refusal>
    requires { EachAt JudgedRecord places.now.count places.now.at layouts.now }
    ensures is { TupleIs (common_of places.now.count places.now.at layouts.now) result }
    ensures few { RankFew places.now.count result }
{
    let shapes = lists::moved(layouts, places, records::RANK);
    lists::agreed_shape(layouts, &shapes)
}

// A shape by value, as slices hold it.
pub fn as_shape(rank: usize, e: [usize; 4]) -> Shape
    requires { Low e }
    ensures { ShapeIs rank e result }
{
    Shape {
        rank,
        // Not `e.map(cells::whole)`: its `map-requires` did not close, as std has no lemma on the items of an array.
        extents: [
            cells::whole(e[0]),
            cells::whole(e[1]),
            cells::whole(e[2]),
            cells::whole(e[3]),
        ],
    }
}

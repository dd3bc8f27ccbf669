// Where things that stand end to end begin.
ghost use Rattle.std.specs.Prelude.{◌≡◌, map, ◌≤◌, length, drop};
ghost use Rattle.rules.specs.Limits.{list_limit};
ghost use Rattle.rules.specs.Record.{end_to_end, behind_shape, behind_record};
ghost use Rattle.records.specs.EndToEnd.{Behind};
ghost use Rattle.lists.specs.Places.{behind_thing, standing, Inside, PlacesOf};

// Where things begin in a slice: how many there are, and the place of each; zeros behind them.
#[derive(Clone, Copy)]
pub struct Places {
    pub at: [usize; 16],
    pub count: usize,
}

// What stands end to end; a block has a start of so many numbers, a flag and a record.
#[derive(Clone, Copy)]
pub enum Thing {
    Shape,
    Record,
    Block(usize),
}

// The place so many numbers further on; the end, if the slice has fewer.
fn further(s: &[i32], at: usize, by: usize) -> usize
    requires { at ≤ length s.now }
    ensures { Behind (drop by) at s.now result }
{
    if s.len() - at < by {
        return s.len();
    }
    at + by
}

// Where the shape that begins at a place ends; one that cannot be walked takes the rest.
fn behind_shape(s: &[i32], at: usize) -> usize
    requires { at ≤ length s.now }
    ensures { Behind behind_shape at s.now result }
{
    match records::section_at(&s[at..], 0, 1) {
        Some(extents) => at + extents.next,
        None => s.len(),
    }
}

// Where the record that begins at a place ends; one that cannot be walked takes the rest.
pub fn behind_record(s: &[i32], at: usize) -> usize
    requires { at ≤ length s.now }
    ensures { Behind behind_record at s.now result }
{
    match records::walk_record(&s[at..]) {
        Some(head) => at + head.inputs.next,
        None => s.len(),
    }
}

// Where the thing that begins at a place ends.
fn behind(thing: Thing, s: &[i32], at: usize) -> usize
    requires { at ≤ length s.now }
    ensures { Behind (behind_thing thing) at s.now result }
{
    match thing {
        Thing::Shape => behind_shape(s, at),
        Thing::Record => behind_record(s, at),
        Thing::Block(rank) => {
            let flag = further(s, at, rank);
            behind_record(s, further(s, flag, 1))
        }
    }
}

// Where each of n things begins, by value; zeros behind them.
pub fn places_of(thing: Thing, s: &[i32], n: usize) -> Places
    requires { n ≤ list_limit }
    ensures is { PlacesOf (end_to_end (behind_thing thing) result.count s.now) result.count s.now result.at }
    ensures count { result.count ≡ n }
{
    let mut places = [0usize; 16];
    let mut at = 0;
    for i in 0..n {
        places[i] = at;
        at = behind(thing, s, at);
    }
    Places {
        at: places,
        count: n,
    }
}

// Each of the places so many numbers further on: the shapes of records, the records of blocks.
pub fn moved(s: &[i32], places: &Places, by: usize) -> Places
    requires { Inside places.now.count places.now.at s.now }
    ensures is { PlacesOf (map (drop by) (standing places.now.count places.now.at s.now)) result.count s.now result.at }
    ensures count { result.count ≡ places.now.count }
{
    let mut moved = [0usize; 16];
    for i in 0..places.count {
        moved[i] = further(s, places.at[i], by);
    }
    Places {
        at: moved,
        count: places.count,
    }
}

// What stands in front of the record of a block: its start and its flag.
ghost use Rattle.std.specs.Prelude.{◌≡◌, true, ◌≤◌};
ghost use Rattle.rules.specs.Limits.{rank_limit};
ghost use Rattle.rules.specs.Lists.{all};
ghost use Rattle.rules.specs.Record.{naturals, block_at};
ghost use Rattle.rules.specs.Concatenate.{good_block, block_of};
ghost use Rattle.lists.specs.Places.{Inside};
ghost use Rattle.lists.specs.Starts.{blocks_at, starts_in, StartOf, StartsOf};

use super::walking::Places;

// The start of the block at the front of a slice by value, zeros behind it.
fn start_of(s: &[i32], rank: usize) -> [usize; 4]
    requires { rank ≤ rank_limit }
    ensures { StartOf (naturals (block_at rank s.now).start) result }
{
    let mut start = [0usize; 4];
    for k in 0..rank {
        start[k] = shapes::natural_at(s, k);
    }
    start
}

// The starts of blocks by value, each with zeros behind it; zeros behind the last one.
pub fn block_starts(s: &[i32], places: &Places, rank: usize) -> [[usize; 4]; 16]
    requires inside { Inside places.now.count places.now.at s.now × (rank ≤ rank_limit) }
    requires s_value { all good_block (blocks_at rank places.now.count places.now.at s.now) ≡ true }
    ensures { StartsOf (starts_in (blocks_at rank places.now.count places.now.at s.now)) result }
{
    let mut starts = [[0usize; 4]; 16];
    for b in 0..places.count {
        let at = places.at[b];
        starts[b] = start_of(&s[at..], rank);
    }
    starts
}

// Whether the block of the asked rank at the front of a slice is flagged as zero.
pub fn is_zero(s: &[i32], rank: usize) -> bool
    ensures { result ≡ (block_of (block_at rank s.now)).zero }
{
    shapes::natural_at(s, rank) == 1
}

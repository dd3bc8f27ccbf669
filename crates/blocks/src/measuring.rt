// What is measured of all blocks.
ghost use Rattle.std.specs.Prelude.{◌≡◌, true, map, ℕ, ◌<◌, ◌≤◌, ◌^◌, length, get_or};
ghost use Rattle.rules.specs.Limits.{rank_limit, product_limit};
ghost use Rattle.rules.specs.Record.{layout_in, sound};
ghost use Rattle.blocks.specs.Blocks.{BlocksAt, block_with, blocks_by};
ghost use Rattle.blocks.specs.Measured.{measure, added, folded, Measurable, measure_limit, fold_limit};

use super::reading::extent;
use lists::Places;

// What is measured of a block.
#[derive(Clone, Copy)]
pub enum Measure {
    // Its first extent; a scalar's is 1.
    First,
    // The extent of an axis.
    Extent(usize),
    // Where it ends on an axis: its start and its extent.
    Reach(usize),
}

// How measures are taken together.
#[derive(Clone, Copy)]
pub enum Fold {
    Sum,
    Largest,
}

// The measure of the block with this start whose record is at the front of a slice.
fn measured(what: Measure, start: [usize; 4], s: &[i32]) -> usize
    requires s_value { sound s.now ≡ true }
    requires start_len { (length start ≡ rank_limit) × Measurable what }
    requires by_index { (k : ℕ) → get_or start k 0 ≤ product_limit }
    ensures { (result ≡ measure what (block_with start (layout_in s.now))) × (result ≤ measure_limit) }
{
    match what {
        Measure::First => extent(s, 0, 1),
        Measure::Extent(axis) => extent(s, axis, 0),
        Measure::Reach(axis) => start[axis] + extent(s, axis, 0),
    }
}

// A measure taken together with those before it.
fn added(how: Fold, total: usize, x: usize) -> usize
    requires { (total < 2 ^ 31) × (x < 2 ^ 31) }
    ensures { result ≡ added how total x }
{
    match how {
        Fold::Sum => total + x,
        Fold::Largest => lists::larger(total, x),
    }
}

// The sum or the largest of a measure of the blocks.
pub fn measure_all(
    how: Fold,
    what: Measure,
    s: &[i32],
    records: &Places,
    starts: [[usize; 4]; 16],
) -> usize
    requires { BlocksAt records.now.count records.now.at starts s.now × Measurable what }
    ensures { (result ≡ folded how (map (measure what) (blocks_by rank_limit records.now.count records.now.at starts s.now))) × (result ≤ fold_limit) }
{
    let mut total = 0;
    for i in 0..records.count {
        let at = records.at[i];
        total = added(how, total, measured(what, starts[i], &s[at..]));
    }
    total
}

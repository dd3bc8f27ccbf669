// The way in which blocks are joined, and what they are joined to.
ghost use Rattle.std.specs.Prelude.{◌≡◌, true, ◌&&◌, map, ◌-◌, ◌<◌, ◌≤◌};
ghost use Rattle.rules.specs.Limits.{rank_limit};
ghost use Rattle.rules.specs.Lists.{all, keep, fit_to};
ghost use Rattle.rules.specs.Concatenate.{shapes_of, start_at, later_agree, first_d, last_agree};
ghost use Rattle.cells.specs.View.{Low};
ghost use Rattle.lists.specs.Places.{EachAt};
ghost use Rattle.lists.specs.Records.{layouts_at};
ghost use Rattle.blocks.specs.Blocks.{SoundAt, BlocksAt, blocks_by};
ghost use Rattle.blocks.specs.Asked.{asked, otherwise};
ghost use Rattle.blocks.specs.Measured.{fold_limit};
ghost use Rattle.blocks.specs.Lines.{place_on};
ghost use Rattle.blocks.specs.Joins.{agree_on, way_other, way_of, dense_by, shape_by, extent_by, join_of};

use super::asking::{Ask, all_pass, first_d};
use super::measuring::{Fold, Measure, measure_all};
use super::reading::extent;
use super::running::{Line, starts_run};
use lists::Places;

// How blocks are joined.
#[derive(Clone, Copy)]
pub enum Way {
    Unjoinable,
    Dense,
    Diagonal,
    Rows,
}

// How blocks are joined, to how many dense axes and to which extents, zeros behind them; all zeros where they cannot be.
#[derive(Clone, Copy)]
pub struct Join {
    pub way: Way,
    pub dense: usize,
    pub extents: [usize; 4],
}

// The extent of an axis to which blocks are joined in this way.
fn extent_by(way: Way, axis: usize, s: &[i32], records: &Places, starts: [[usize; 4]; 16]) -> usize
    requires { BlocksAt records.now.count records.now.at starts s.now × (axis < rank_limit) }
    ensures { (result ≡ extent_by way (blocks_by rank_limit records.now.count records.now.at starts s.now) axis) × (result ≤ fold_limit) }
{
    match way {
        Way::Unjoinable => 0,
        Way::Dense => {
            if axis == 0 {
                return measure_all(Fold::Sum, Measure::First, s, records, starts);
            }
            lists::larger(
                1,
                measure_all(Fold::Largest, Measure::Extent(axis), s, records, starts),
            )
        }
        Way::Diagonal => measure_all(Fold::Sum, Measure::Extent(axis), s, records, starts),
        Way::Rows => measure_all(Fold::Largest, Measure::Reach(axis), s, records, starts),
    }
}

// The extents to which blocks are joined in this way, zeros behind them.
fn extents_by(
    way: Way,
    s: &[i32],
    records: &Places,
    starts: [[usize; 4]; 16],
    rank: usize,
) -> [usize; 4]
    requires { BlocksAt records.now.count records.now.at starts s.now × (rank ≤ rank_limit) }
    ensures { (result ≡ fit_to rank_limit 0 (shape_by way rank (blocks_by rank records.now.count records.now.at starts s.now))) × Low result }
{
    let mut extents = [0usize; 4];
    for axis in 0..rank {
        extents[axis] = extent_by(way, axis, s, records, starts);
    }
    extents
}

// Whether each extent of every axis after the first is 1 or the largest one.
fn later_agree(s: &[i32], records: &Places, starts: [[usize; 4]; 16], rank: usize) -> bool
    requires { BlocksAt records.now.count records.now.at starts s.now × (rank ≤ rank_limit) }
    ensures { result ≡ later_agree rank (shapes_of (blocks_by rank records.now.count records.now.at starts s.now)) }
{
    for axis in 1..rank {
        let common = extent_by(Way::Dense, axis, s, records, starts);
        if !all_pass(Ask::Stretches(axis, common), s, records) {
            return false;
        }
    }
    true
}

// Whether the last d extents of layouts of one rank do not differ.
fn last_agree(s: &[i32], records: &Places, rank: usize, d: usize) -> bool
    requires each_at { EachAt SoundAt records.now.count records.now.at s.now × (0 < records.now.count) }
    requires s_value { all (asked (Ask.OfRank rank)) (layouts_at records.now.count records.now.at s.now) ≡ true }
    requires d_le_rank { d ≤ rank }
    ensures { result ≡ last_agree (rank - d) (map (λ l. l.shape) (layouts_at records.now.count records.now.at s.now)) }
{
    let first = records.at[0];
    let kept = rank - d;
    for axis in kept..rank {
        let e = extent(&s[first..], axis, 0);
        if !all_pass(Ask::Extent(axis, e), s, records) {
            return false;
        }
    }
    true
}

// Whether blocks that are not all dense agree, d being the D of the first one not dense.
fn agree(s: &[i32], records: &Places, rank: usize, d: usize) -> bool
    requires each_at { EachAt SoundAt records.now.count records.now.at s.now × (0 < records.now.count) }
    requires d_value { d ≡ first_d (keep otherwise (layouts_at records.now.count records.now.at s.now)) }
    ensures { result ≡ agree_on d rank (layouts_at records.now.count records.now.at s.now) }
{
    if !all_pass(Ask::DenseAxes(d), s, records) {
        return false;
    }
    if !all_pass(Ask::OfRank(rank), s, records) {
        return false;
    }
    last_agree(s, records, rank, d)
}

// Whether the blocks pass and their starts run along a line.
fn pass_along(
    ask: Ask,
    line: Line,
    s: &[i32],
    records: &Places,
    starts: [[usize; 4]; 16],
    rank: usize,
) -> bool
    requires { BlocksAt records.now.count records.now.at starts s.now × (rank ≤ rank_limit) }
    ensures { result ≡ all (asked ask) (layouts_at records.now.count records.now.at s.now) && start_at (place_on line rank) 0 (blocks_by rank records.now.count records.now.at starts s.now) }
{
    if !all_pass(ask, s, records) {
        return false;
    }
    starts_run(line, s, records, starts, rank)
}

// The way of blocks that are not all dense one behind the other: along the diagonal, or by rows, with dense axes only if all are sparse.
fn way_other(s: &[i32], records: &Places, starts: [[usize; 4]; 16], rank: usize) -> Way
    requires { BlocksAt records.now.count records.now.at starts s.now × (rank ≤ rank_limit) }
    ensures { result ≡ way_other rank (blocks_by rank records.now.count records.now.at starts s.now) }
{
    let d = first_d(s, records);
    if !agree(s, records, rank, d) {
        return Way::Unjoinable;
    }
    if pass_along(Ask::Diagonal, Line::Diagonal, s, records, starts, rank) {
        return Way::Diagonal;
    }
    if d == 0 {
        return Way::Rows;
    }
    if all_pass(Ask::Sparse, s, records) {
        return Way::Rows;
    }
    Way::Unjoinable
}

// The way in which blocks are joined to a layout of the asked rank.
fn way_of(s: &[i32], records: &Places, starts: [[usize; 4]; 16], rank: usize) -> Way
    requires { BlocksAt records.now.count records.now.at starts s.now × (rank ≤ rank_limit) }
    ensures { result ≡ way_of rank (blocks_by rank records.now.count records.now.at starts s.now) }
{
    if !all_pass(Ask::Within(rank), s, records) {
        return Way::Unjoinable;
    }
    if pass_along(Ask::Dense, Line::First, s, records, starts, rank) {
        if later_agree(s, records, starts, rank) {
            return Way::Dense;
        }
        return Way::Unjoinable;
    }
    way_other(s, records, starts, rank)
}

// The dense-axis count of what blocks are joined to in this way.
fn dense_by(way: Way, s: &[i32], records: &Places, rank: usize) -> usize
    requires { EachAt SoundAt records.now.count records.now.at s.now × (rank ≤ rank_limit) }
    ensures { (result ≡ dense_by way rank (layouts_at records.now.count records.now.at s.now)) × (result ≤ rank_limit) }
{
    match way {
        Way::Unjoinable => 0,
        Way::Dense => rank,
        Way::Diagonal => first_d(s, records),
        Way::Rows => first_d(s, records),
    }
}

// How blocks are joined to a layout of the asked rank.
pub fn join_of(s: &[i32], records: &Places, starts: [[usize; 4]; 16], rank: usize) -> Join
    requires { BlocksAt records.now.count records.now.at starts s.now × (rank ≤ rank_limit) }
    ensures is { result ≡ join_of rank (blocks_by rank records.now.count records.now.at starts s.now) }
    ensures low { Low result.extents × (result.dense ≤ rank_limit) }
{
    let way = way_of(s, records, starts, rank);
    let dense = dense_by(way, s, records, rank);
    let extents = extents_by(way, s, records, starts, rank);
    Join {
        way,
        dense,
        extents,
    }
}

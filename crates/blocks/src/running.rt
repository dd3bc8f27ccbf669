// Starts that run along a line.
ghost use Rattle.std.specs.Prelude.{◌≡◌, ◌≤◌, length, take};
ghost use Rattle.rules.specs.Limits.{rank_limit};
ghost use Rattle.rules.specs.Lists.{same};
ghost use Rattle.rules.specs.Concatenate.{start_at};
ghost use Rattle.blocks.specs.Blocks.{BlocksAt, blocks_by};
ghost use Rattle.blocks.specs.Lines.{number_on, place_on};

use super::reading::extent;
use lists::Places;

// The lines that starts run along: the first axis, and the diagonal.
#[derive(Clone, Copy)]
pub enum Line {
    First,
    Diagonal,
}

// The number of an axis, of a start that has come so far along a line.
fn number_on(line: Line, run: usize, axis: usize) -> usize
    ensures { result ≡ number_on line run axis }
{
    match line {
        Line::First => {
            if axis == 0 {
                return run;
            }
            0
        }
        Line::Diagonal => run,
    }
}

// Whether a start has come so far along a line.
fn starts_on(line: Line, run: usize, start: [usize; 4], rank: usize) -> bool
    requires { (rank ≤ rank_limit) × (length start ≡ rank_limit) }
    ensures { result ≡ same (take rank start) (place_on line rank run) }
{
    for axis in 0..rank {
        if start[axis] != number_on(line, run, axis) {
            return false;
        }
    }
    true
}

// Whether each of the blocks starts on a line, as far as the first extents before it come to.
pub fn starts_run(
    line: Line,
    s: &[i32],
    records: &Places,
    starts: [[usize; 4]; 16],
    rank: usize,
) -> bool
    requires { BlocksAt records.now.count records.now.at starts s.now × (rank ≤ rank_limit) }
    ensures { result ≡ start_at (place_on line rank) 0 (blocks_by rank records.now.count records.now.at starts s.now) }
{
    let mut run = 0;
    for i in 0..records.count {
        if !starts_on(line, run, starts[i], rank) {
            return false;
        }
        let at = records.at[i];
        run += extent(&s[at..], 0, 1);
    }
    true
}

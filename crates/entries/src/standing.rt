// Entries of a block that stand in its record as they are listed: found there, and moved into a table by the start of the block.
ghost use Rattle.std.specs.Prelude.{None, Some};
ghost use Rattle.std.specs.Prelude.{◌≡◌, map, eqb, take};
ghost use Rattle.rules.specs.Lists.{if};
ghost use Rattle.rules.specs.Concatenate.{moved_by};
ghost use Rattle.tables.specs.Rows.{row_at, rows_at};
ghost use Rattle.records.specs.Sound.{SoundRecord};
ghost use Rattle.entries.specs.Standing.{StandsAs, PlaceAsked, Placed, RowsAsked, AllPlaced};

use super::entries::Listed;
use rules::{Entries, Head, Kind};

// Dependencies stand in a record as they are listed if they have the asked rank.
fn deps_of(deps: Entries, old: usize, rank: usize) -> Option<Entries>
    ensures { result ≡ if (eqb old rank) (Some deps) None }
{
    if old == rank { Some(deps) } else { None }
}

// Where the entries of a list of a block stand in its record as they are listed: the rows of a sparse block, dependencies of the asked rank.
pub fn standing_of(list: Listed, from: &[i32], head: Head, rank: usize) -> Option<Entries>
    requires { SoundRecord head from.now }
    ensures { StandsAs list rank from.now result }
{
    match list {
        Listed::Rows => match records::kind_at(from, records::KIND) {
            Kind::Sparse => Some(head.rows),
            _ => None,
        },
        Listed::States => deps_of(head.states, head.rank, rank),
        Listed::Inputs => deps_of(head.inputs, head.rank, rank),
    }
}

// The w numbers at a place, the first n of them moved by a start, go to a place of the window; false where one of these n is above 65,535.
fn move_entry(
    from: &[i32],
    p: usize,
    start: [usize; 4],
    n: usize,
    w: usize,
    window: &mut [i32],
    to: usize,
) -> bool
    requires { PlaceAsked p from.now start n w to window.old }
    ensures { Placed to w n (moved_by (take n start) (row_at p w from.now)) window.old window.new result }
{
    cells::copy_row(from, p, window, to, w);
    for k in 0..n {
        let number = start[k] + cells::low(from, p + k);
        if rules::COMPONENT_LIMIT < number {
            return false;
        }
        cells::store(window, to + k, number);
    }
    true
}

// Rows of w numbers, the first n of each moved by a start, become the table at a place, as they come; false where one of these numbers is
// above 65,535.
pub fn move_entries(
    from: &[i32],
    rows: Entries,
    start: [usize; 4],
    n: usize,
    w: usize,
    window: &mut [i32],
    to: usize,
) -> bool
    requires { RowsAsked rows.first rows.count from.now start n w to window.old }
    ensures { AllPlaced to w n (map (moved_by (take n start)) (rows_at rows.first w rows.count from.now)) window.old window.new result }
{
    let first = rows.first;
    let count = rows.count;
    cells::store(window, to, count);
    for i in 0..count {
        if !move_entry(from, first + i * w, start, n, w, window, to + 1 + i * w) {
            return false;
        }
    }
    true
}

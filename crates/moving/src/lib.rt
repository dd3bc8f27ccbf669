// A layout made in one part, section by section: its head, rows as they stand in a record, and rows and dependencies whose numbers are picked
// from those of a record; and dependencies fitted to another rank.
#![tactic(auto)]

ghost use Rattle.std.specs.Prelude.{◌≡◌, map, ◌+◌, ◌≤◌, length, take};
ghost use Rattle.rules.specs.Lists.{fit_to};
ghost use Rattle.rules.specs.RowsInOrder.{sorted};
ghost use Rattle.rules.specs.Record.{layout_in};
ghost use Rattle.rules.specs.Dependencies.{on_index};
ghost use Rattle.cells.specs.View.{view};
ghost use Rattle.tables.specs.Rows.{row_at, rows_at};
ghost use Rattle.records.specs.Sound.{SoundRecord};
ghost use Rattle.parts.specs.Parts.{part_size, rows_from};
ghost use Rattle.moving.specs.Sections.{HeadAsked, HeadMade, TableMade};
ghost use Rattle.moving.specs.Fitting.{FitAsked};
ghost use Rattle.moving.specs.Picking.{picked, shorter_places, RowAsked, PickAsked, DepsPicked};

use rules::{Entries, Head};

// A kind, a D and extents become the head of the layout in a part.
pub fn write_head(part: &mut [i32], kind: usize, dense: usize, extents: &[i32])
    requires { HeadAsked kind dense extents.now part.old }
    ensures { HeadMade kind dense (view extents.now) part.old part.new }
{
    cells::store(part, parts::KIND, kind);
    cells::store(part, parts::DENSE, dense);
    cells::store(part, parts::RANK, extents.len());
    cells::copy_into(extents, part, parts::EXTENTS);
}

// The rows of a record, as they stand there, become those of a part.
pub fn keep_rows(s: &[i32], head: Head, part: &mut [i32])
    requires sound_record { SoundRecord head s.now }
    requires part_size_in_bounds { part_size ≤ length part.old }
    ensures { TableMade rows_from head.width (layout_in s.now).rows part.old part.new }
{
    let rows = head.rank + records::EXTENTS;
    let states = head.rows.next;
    cells::copy_into(&s[rows..states], part, parts::ROWS);
}

// The places of the numbers of a dependency that is shortened: so many components of its index, then its number, which stands behind
// `rank` components.
pub fn shorter_places(kept: usize, rank: usize) -> [usize; 5]
    requires { kept ≤ 4 }
    ensures { result ≡ shorter_places kept rank }
{
    let mut places = [0usize, 1, 2, 3, 4];
    places[kept] = rank;
    places
}

// A row of w numbers by value: each is the one at a place of the row of `width` numbers that stands at `at`, or the missing number
// where its place lies behind that row.
pub fn picked_row(
    s: &[i32],
    at: usize,
    width: usize,
    missing: usize,
    places: [usize; 5],
    w: usize,
) -> [i32; 5]
    requires { RowAsked at width missing w s.now }
    ensures { row_at 0 w result ≡ picked missing (take w places) (row_at at width s.now) }
{
    let number = cells::whole(missing);
    let mut row = [number; 5];
    for k in 0..w {
        let place = places[k];
        if width <= place {
            continue;
        }
        cells::copy_at(&mut row, k, s, at + place);
    }
    row
}

// Rows, each picked to w numbers, become the table at a place of a part, in order and once each. A row that is in order costs one
// comparison.
pub fn pick_sorted(
    s: &[i32],
    rows: Entries,
    width: usize,
    places: [usize; 5],
    w: usize,
    part: &mut [i32],
    at: usize,
)
    requires { PickAsked rows width w s.now at part.old }
    ensures { TableMade at w (sorted (map (picked 0 (take w places)) (rows_at rows.first width rows.count s.now))) part.old part.new }
{
    cells::store(part, at, 0);
    for i in 0..rows.count {
        let row = picked_row(s, rows.first + i * width, width, 0, places, w);
        tables::put_row(part, at, w, &row, 0);
    }
}

// The same with the rows as they come. One function for both would be lent what is done with a row, as a closure: it saves the two
// lines that they share, and its contract has to say what each turn keeps.
pub fn pick_as_they_come(
    s: &[i32],
    rows: Entries,
    width: usize,
    places: [usize; 5],
    w: usize,
    part: &mut [i32],
    at: usize,
)
    requires { PickAsked rows width w s.now at part.old }
    ensures { TableMade at w (map (picked 0 (take w places)) (rows_at rows.first width rows.count s.now)) part.old part.new }
{
    cells::store(part, at, 0);
    for i in 0..rows.count {
        let row = picked_row(s, rows.first + i * width, width, 0, places, w);
        tables::insert_at(part, at, w, i, i, &row, 0);
    }
}

// Rows, each cut to its first w numbers, become the table at a place of a part, in order and once each. `pick_sorted` with the
// places 0 to 4 makes the same of 64 rows in 4,182 instructions more, by callgrind: it copies each row.
pub fn cut_sorted(s: &[i32], rows: Entries, width: usize, w: usize, part: &mut [i32], at: usize)
    requires pick_asked { PickAsked rows width w s.now at part.old }
    requires w_le_width { w ≤ width }
    ensures { TableMade at w (sorted (map (take w) (rows_at rows.first width rows.count s.now))) part.old part.new }
{
    cells::store(part, at, 0);
    for i in 0..rows.count {
        tables::put_row(part, at, w, s, rows.first + i * width);
    }
}

// The dependencies of a record, each picked to w numbers, become those of a part.
pub fn pick_deps(s: &[i32], head: Head, places: [usize; 5], w: usize, part: &mut [i32])
    requires sound_record { SoundRecord head s.now }
    requires w_bound { (w ≤ 5) × (part_size ≤ length part.old) }
    ensures { DepsPicked (take w places) w (layout_in s.now) part.old part.new }
{
    let width = head.rank + 1;
    pick_sorted(s, head.states, width, places, w, part, parts::STATES);
    pick_sorted(s, head.inputs, width, places, w, part, parts::INPUTS);
}

// The dependency at a place fitted to a rank: its index cut, or 0 on the new axes; its number stays behind.
pub fn fitted(from: &[i32], at: usize, old: usize, rank: usize) -> [i32; 5]
    requires { FitAsked at old rank from.now }
    ensures { row_at 0 (rank + 1) result ≡ on_index (fit_to rank 0) (row_at at (old + 1) from.now) }
{
    let mut entry = [0i32; 5];
    let end = at + old.min(rank);
    cells::copy(&from[at..end], &mut entry);
    cells::copy_at(&mut entry, rank, from, at + old);
    entry
}

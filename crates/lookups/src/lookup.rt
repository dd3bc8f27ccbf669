// The place of an index in a sound and ordered record.
ghost use Rattle.std.specs.Prelude.{◌≡◌, true, map, eqb, pos, length, get_or};
ghost use Rattle.rules.specs.Lists.{if, all};
ghost use Rattle.rules.specs.Buffers.{over, zeros};
ghost use Rattle.rules.specs.RowsInOrder.{Increasing};
ghost use Rattle.rules.specs.Record.{natural, naturals, shape_in, layout_in, ordered};
ghost use Rattle.rules.specs.Arguments.{good_index};
ghost use Rattle.rules.specs.Endings.{lookup_of, found, nothing};
ghost use Rattle.rules.specs.Lookup.{read_index, place_from, lookup};
ghost use Rattle.tables.specs.Rows.{row_at, rows_at, HasRow, HasRows};
ghost use Rattle.records.specs.Sound.{SoundRecord};
ghost use Rattle.shapes.specs.Judged.{Judged};
ghost use Rattle.lookups.specs.Indices.{IndexRead};

use rules::{Entries, Head, Kind};

// What a component is read as on an axis: 0 where the extent is 1.
fn component(c: usize, extent: usize) -> usize
    ensures { result ≡ if (eqb extent 1) 0 c }
{
    if extent == 1 { 0 } else { c }
}

// The index as lookup reads it, in the first of four numbers.
#[tactic(auto, using(crate::proofs::Reading::reading))]
fn read_index(index: &[i32], shape: &[i32]) -> [i32; 4]
    requires judged { Judged shape.now }
    requires index_len { length index.now ≡ length (shape_in shape.now) }
    ensures { result ≡ over (map pos (read_index (naturals index.now) (shape_in shape.now))) (zeros 4) }
{
    let mut read = [0i32; 4];
    for k in 0..index.len() {
        let c = component(shapes::natural_at(index, k), shapes::extent(shape, k));
        read[k] = cells::whole(c);
    }
    read
}

// Whether every component is v.
fn all_are(index: &[i32], v: usize) -> bool
    ensures { result ≡ all (eqb v) (naturals index.now) }
{
    (0..index.len()).all(|k| shapes::natural_at(index, k) == v)
}

// On a diagonal the place is the first component as it is read, if all are that.
fn on_diagonal(index: &[i32], first: usize) -> Option<usize>
    ensures { lookup_of result ≡ if (all (eqb first) (naturals index.now)) (found first) nothing }
{
    if all_are(index, first) {
        return Some(first);
    }
    None
}

// The place of the first w numbers of a row among rows that increase.
fn among_rows(s: &[i32], rows: Entries, w: usize, row: &[i32]) -> Option<usize>
    requires has_rows { HasRows rows.first w rows.count s.now }
    requires increasing { Increasing (rows_at rows.first w rows.count s.now) }
    requires has_row { HasRow 0 w row.now }
    ensures { lookup_of result ≡ place_from 0 (row_at 0 w row.now) (rows_at rows.first w rows.count s.now) }
{
    tables::search(s, rows.first, rows.count, w, row, 0).ok()
}

// Where a record has an index that was read.
#[tactic(auto, using(crate::proofs::SoundRecords::lent, crate::proofs::Finding::places, rules::proofs::KindRead::kind_laws))]
fn place_of(s: &[i32], head: Head, index: &[i32], read: &[i32]) -> Option<usize>
    requires sound_record { SoundRecord head s.now }
    requires s_value { ordered s.now ≡ true }
    requires index_read { IndexRead s.now index.now read.now }
    ensures { lookup_of result ≡ lookup (layout_in s.now) (naturals index.now) }
{
    if !axes::row_below(read, 0, s, records::EXTENTS, head.rank) {
        return None;
    }
    match records::kind_at(s, records::KIND) {
        Kind::Dense => Some(shapes::ravel(read, &s[records::RANK..])),
        Kind::Diagonal => on_diagonal(index, shapes::natural_at(read, 0)),
        Kind::Sparse => among_rows(s, head.rows, head.width, read),
    }
}

// Where a record has an index.
#[tactic(auto, using(crate::proofs::SoundRecords::lent, crate::proofs::Finding::reads))]
pub fn find(s: &[i32], head: Head, index: &[i32]) -> Option<usize>
    requires sound_record { SoundRecord head s.now }
    requires s_value { ordered s.now ≡ true }
    requires pos_value { good_index index.now (natural (get_or s.now 2 (pos 0))) ≡ true }
    ensures { lookup_of result ≡ lookup (layout_in s.now) (naturals index.now) }
{
    let read = read_index(index, &s[records::RANK..]);
    let n = index.len();
    place_of(s, head, index, &read[..n])
}

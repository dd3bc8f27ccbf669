// A record in a slice: its sections walked, its soundness and order judged, a row of it found. The only crate that knows where
// a number of a record stands.
#![tactic(auto)]

ghost use Rattle.std.specs.Prelude.{Some};
ghost use Rattle.std.specs.Prelude.{◌≡◌, true, ◌+◌, ◌^◌, ◌<◌, ◌≤◌, length, get_or, take};
ghost use Rattle.std.specs.Int.Signed.{non_neg};
ghost use Rattle.rules.specs.Lists.{all};
ghost use Rattle.rules.specs.RowsInOrder.{increasing};
ghost use Rattle.rules.specs.Buffers.{part};
ghost use Rattle.rules.specs.Layout.{kind_of, alike, well_formed, within_sizes};
ghost use Rattle.rules.specs.Record.{section_at, walk, layout_by, sound_from, sound, ordered, row_part, row_start, row, row_place};
ghost use Rattle.rules.specs.Arguments.{over_record};
ghost use Rattle.cells.specs.View.{view, Low};
ghost use Rattle.tables.specs.Rows.{rows_at, HasRow, HasRows};
ghost use Rattle.axes.specs.Extents.{Extents};
ghost use Rattle.rules.specs.Endings.{BeginsAt};
ghost use Rattle.records.specs.Sections.{SectionIn};
ghost use Rattle.records.specs.Heads.{HeadOf};
ghost use Rattle.records.specs.Judging.{Readable, few_entries, kind_fits, axes_fit, rows_fit, small, small_deps, fit_of, rows_increase, ReadableFit};
ghost use Rattle.records.specs.Sound.{SoundRecord, sound_head, ReadableHead, Found};

use rules::{Entries, Head, Kind};

// Where a record has its kind.
pub const KIND: usize = 0;

// Where it has its dense-axis count.
pub const DENSE: usize = 1;

// Where it has the count of its extents, its rank; its shape begins here.
pub const RANK: usize = 2;

// Where its extents begin.
pub const EXTENTS: usize = 3;

// The kind that the number at a place stands for.
pub fn kind_at(s: &[i32], at: usize) -> Kind
    requires { at < length s.now }
    ensures { result ≡ kind_of (get_or (view s.now) at 0) }
{
    match cells::get(s, at) {
        0 => Kind::Dense,
        1 => Kind::Diagonal,
        _ => Kind::Sparse,
    }
}

// The section whose count stands at a place and whose entries have so many numbers each.
pub fn section_at(s: &[i32], at: usize, width: usize) -> Option<Entries>
    requires { width < 2 ^ 32 }
    ensures is { result ≡ section_at at width s.now }
    ensures lies { SectionIn at width s.now result }
{
    if s.len() <= at {
        return None;
    }
    let count = cells::sign_at(s, at)?;
    let first = at + 1;
    let size = count * width;
    if s.len() - first < size {
        return None;
    }
    Some(Entries {
        count,
        first,
        next: first + size,
    })
}

// The head of the record at the front of a slice, if the record can be walked to its end. Its first section stands behind two numbers.
pub fn walk_record(s: &[i32]) -> Option<Head>
    ensures { result ≡ walk s.now }
{
    let extents = section_at(s, RANK, 1)?;
    let rank = extents.count;
    let kind = s[KIND];
    let dense = s[DENSE];
    let width = cells::less_by(rank, dense)?;
    let rows = section_at(s, extents.next, width)?;
    let states = section_at(s, rows.next, rank + 1)?;
    let inputs = section_at(s, states.next, rank + 1)?;
    Some(Head {
        kind,
        dense,
        rank,
        width,
        rows,
        states,
        inputs,
    })
}

// Whether the count of a record's extents stands in the slice and is over 4.
pub fn over_record(s: &[i32]) -> bool
    ensures { result ≡ over_record s.now }
{
    if s.len() <= RANK {
        return false;
    }
    match cells::sign_at(s, RANK) {
        Some(rank) => rules::RANK_LIMIT < rank,
        None => false,
    }
}

// Whether none of the first n numbers is negative, by the least of them and 0; if so, their views are low.
pub fn all_natural(s: &[i32], n: usize) -> bool
    requires { n ≤ length s.now }
    ensures is { result ≡ all non_neg (take n s.now) }
    ensures low { result ≡ true → Low (take n (view s.now)) }
{
    let mut least = 0;
    for k in 0..n {
        least = least.min(s[k]);
    }
    0 <= least
}

// Whether the n numbers from a on are all the same.
pub fn alike(s: &[i32], a: usize, n: usize) -> bool
    requires { a + n ≤ length s.now }
    ensures { result ≡ alike (part a n (view s.now)) }
{
    for k in 0..n {
        if !cells::same(s, a, s, a + k) {
            return false;
        }
    }
    true
}

// Whether each of the n numbers from a on is at most 65,535. Two are tested without a loop.
fn small_numbers(s: &[i32], a: usize, n: usize) -> bool
    requires { HasRow a n s.now }
    ensures { result ≡ all small (part a n (view s.now)) }
{
    if n == 2 {
        if rules::COMPONENT_LIMIT < cells::low(s, a) {
            return false;
        }
        return cells::low(s, a + 1) <= rules::COMPONENT_LIMIT;
    }
    for k in 0..n {
        if rules::COMPONENT_LIMIT < cells::low(s, a + k) {
            return false;
        }
    }
    true
}

// Whether the components of the n dependencies from a on are at most 65,535; the number behind them may be any.
fn small_deps(s: &[i32], a: usize, n: usize, rank: usize) -> bool
    requires { HasRows a (rank + 1) n s.now }
    ensures { result ≡ small_deps a rank n s.now }
{
    for i in 0..n {
        if !small_numbers(s, a + i * (rank + 1), rank) {
            return false;
        }
    }
    true
}

// Whether the rank is at most 4 and no section has more than 128 entries.
fn few_entries(h: Head) -> bool
    ensures { result ≡ few_entries h }
{
    let rows = h.rows;
    let states = h.states;
    let inputs = h.inputs;
    if rules::RANK_LIMIT < h.rank {
        return false;
    }
    if rules::ENTRY_LIMIT < rows.count {
        return false;
    }
    if rules::ENTRY_LIMIT < states.count {
        return false;
    }
    inputs.count <= rules::ENTRY_LIMIT
}

// Whether the kind is one of the three, and sparse where there are rows. The number itself is judged here and below, so it is not
// read as a `Kind`.
fn kind_fits(s: &[i32], count: usize) -> bool
    requires { 0 < length s.now }
    ensures { result ≡ kind_fits count s.now }
{
    let kind = cells::get(s, KIND);
    if 2 < kind {
        return false;
    }
    if kind == 2 {
        return true;
    }
    count == 0
}

// Whether a dense layout has no axis for rows, and a diagonal one has some, all of the same extent.
fn axes_fit(s: &[i32], width: usize) -> bool
    requires { 3 + width ≤ length s.now }
    ensures { result ≡ axes_fit width s.now }
{
    let kind = cells::get(s, KIND);
    if kind == 0 {
        return width == 0;
    }
    if kind == 1 {
        if width == 0 {
            return false;
        }
        return alike(s, EXTENTS, width);
    }
    true
}

// Whether the rows increase, if their components are below the extents and the rows differ from each other.
fn rows_fit(s: &[i32], rows: Entries, width: usize) -> Option<bool>
    requires has_rows { HasRows rows.first width rows.count s.now }
    requires extents { Extents 3 width s.now }
    ensures { result ≡ fit_of (rows_fit rows width s.now) (increasing (rows_at rows.first width rows.count s.now)) }
{
    if !axes::rows_below(s, rows.first, rows.count, s, EXTENTS, width) {
        return None;
    }
    if tables::is_increasing(s, rows.first, rows.count, width) {
        return Some(true);
    }
    if axes::differ(s, rows.first, rows.count, s, EXTENTS, width) {
        return Some(false);
    }
    None
}

// Whether a readable record keeps the limits of size.
fn within_sizes(s: &[i32], h: Head) -> bool
    requires { Readable h s.now }
    ensures { result ≡ within_sizes (layout_by h s.now) }
{
    let states = h.states;
    let inputs = h.inputs;
    if !axes::within_product(s, EXTENTS, h.rank) {
        return false;
    }
    if !small_deps(s, states.first, states.count, h.rank) {
        return false;
    }
    small_deps(s, inputs.first, inputs.count, h.rank)
}

// Whether the rows of a readable record that keeps the limits of size increase, if it obeys the other rules of soundness.
fn well_formed(s: &[i32], h: Head) -> Option<bool>
    requires readable { Readable h s.now }
    requires sizes_kept { within_sizes (layout_by h s.now) ≡ true }
    ensures { result ≡ fit_of (well_formed (layout_by h s.now)) (rows_increase h s.now) }
{
    let rows = h.rows;
    let states = h.states;
    let inputs = h.inputs;
    let wide = h.rank + 1;
    if !kind_fits(s, rows.count) {
        return None;
    }
    if !axes_fit(s, h.width) {
        return None;
    }
    if !tables::is_increasing(s, states.first, states.count, wide) {
        return None;
    }
    if !tables::is_increasing(s, inputs.first, inputs.count, wide) {
        return None;
    }
    rows_fit(s, rows, h.width)
}

// Whether the rows of a walked record increase, if it is sound; it is readable then, too. The counts are tested first, so that no
// later test takes long.
fn sound_by(s: &[i32], h: Head) -> Option<bool>
    requires { HeadOf h s.now }
    ensures is { result ≡ fit_of (sound_from (Some h) s.now) (rows_increase h s.now) }
    ensures readable { ReadableFit result h s.now }
{
    if !few_entries(h) {
        return None;
    }
    let inputs = h.inputs;
    if !all_natural(s, inputs.next) {
        return None;
    }
    if !within_sizes(s, h) {
        return None;
    }
    well_formed(s, h)
}

// The head of the record at the front of a slice and whether its rows increase, if the record is sound.
pub fn judged(s: &[i32]) -> Option<(Head, bool)>
    ensures { Found result s.now }
{
    let head = walk_record(s)?;
    let increase = sound_by(s, head)?;
    Some((head, increase))
}

// The head of the record at the front of a slice, if the record is sound; it is readable then.
pub fn sound_head(s: &[i32]) -> Option<Head>
    ensures is { result ≡ sound_head s.now }
    ensures readable { ReadableHead result s.now }
{
    judged(s).map(|(head, _)| head)
}

// Whether the record at the front of a slice is sound.
pub fn sound(s: &[i32]) -> bool
    ensures { result ≡ sound s.now }
{
    judged(s).is_some()
}

// Whether the rows of a sound record increase.
pub fn rows_ordered(s: &[i32], h: Head) -> bool
    requires { SoundRecord h s.now }
    ensures { result ≡ ordered s.now }
{
    let rows = h.rows;
    tables::is_increasing(s, rows.first, rows.count, h.width)
}

// Whether the record at the front of a slice is sound and its rows increase.
pub fn ordered(s: &[i32]) -> bool
    ensures { result ≡ ordered s.now }
{
    matches!(judged(s), Some((_, true)))
}

// Row i of a readable record, as the part of the slice that it is; an empty part if there is none.
fn row_of(s: &[i32], h: Head, i: usize) -> &[i32]
    requires { Readable h s.now }
    ensures is { result.now ≡ row_part i (Some h) s.now }
    ensures place { BeginsAt (row_start i (Some h)) s.entry result }
{
    let rows = h.rows;
    if rows.count <= i {
        return &s[0..0];
    }
    let from = rows.first + i * h.width;
    let to = from + h.width;
    &s[from..to]
}

// Row n of the record at the front of a slice, as the part of the slice that it is; an empty part if there is none or the record is not
// sound.
pub fn row(s: &[i32], n: i32) -> &[i32]
    ensures is { result.now ≡ row s.now n }
    ensures place { BeginsAt (row_place s.now n) s.entry result }
{
    let Some(h) = sound_head(s) else {
        return &s[0..0];
    };
    let Some(i) = cells::sign_of(n) else {
        return &s[0..0];
    };
    row_of(s, h, i)
}

// Extents in a slice, indices over them, and rows held against them and told apart by their numbers. A shape is a slice, the place of its
// first extent and its rank, wherever it stands: in a record, in an argument, in a part of the working buffer.
#![tactic(auto)]

ghost use Rattle.std.specs.Prelude.{◌≡◌, map, ◌+◌, ◌≤◌, pos, length};
ghost use Rattle.rules.specs.Lists.{all, all_below, product};
ghost use Rattle.rules.specs.Buffers.{put};
ghost use Rattle.rules.specs.Layout.{within_product, distinct};
ghost use Rattle.rules.specs.Positions.{ravel_index, unravel};
ghost use Rattle.tables.specs.Rows.{row_at, rows_at, HasRow, HasRows};
ghost use Rattle.axes.specs.Extents.{Extents, IndexAsked};
ghost use Rattle.axes.specs.Numbers.{RowInside, RowsInside, row_numbers, DifferIn};

// Whether the product of those extents that are not zero is at most 65,536.
pub fn within_product(s: &[i32], at: usize, rank: usize) -> bool
    requires { at + rank ≤ length s.now }
    ensures { result ≡ within_product (row_at at rank s.now) }
{
    let mut product: usize = 1;
    for k in 0..rank {
        let extent = cells::get(s, at + k);
        if extent == 0 {
            continue;
        }
        product *= extent;
        if rules::PRODUCT_LIMIT < product {
            return false;
        }
    }
    true
}

// The product of all extents.
pub fn product(s: &[i32], at: usize, rank: usize) -> usize
    requires { Extents at rank s.now }
    ensures { result ≡ product (row_at at rank s.now) }
{
    let mut product: usize = 1;
    for k in 0..rank {
        product *= cells::get(s, at + k);
    }
    product
}

// Whether each of the w components at a of s is below the extent of its axis; the first extent stands at a place of t. Two are compared without a
// loop.
pub fn row_below(s: &[i32], a: usize, t: &[i32], at: usize, w: usize) -> bool
    requires has_row { HasRow a w s.now }
    requires w_in_bounds { at + w ≤ length t.now }
    ensures { result ≡ all_below (row_at a w s.now) (row_at at w t.now) }
{
    if w == 2 {
        if cells::below(s, a, t, at) {
            return cells::below(s, a + 1, t, at + 1);
        }
        return false;
    }
    for k in 0..w {
        if !cells::below(s, a + k, t, at + k) {
            return false;
        }
    }
    true
}

// The same of n rows from a of s on.
pub fn rows_below(s: &[i32], a: usize, n: usize, t: &[i32], at: usize, w: usize) -> bool
    requires has_rows { HasRows a w n s.now }
    requires w_in_bounds { at + w ≤ length t.now }
    ensures { result ≡ all (λ row. all_below row (row_at at w t.now)) (rows_at a w n s.now) }
{
    for i in 0..n {
        if !row_below(s, a + i * w, t, at, w) {
            return false;
        }
    }
    true
}

// The row-major number of the row of w numbers at a of s, by the extents at a place of t. Two are put together without a loop.
fn number_of(s: &[i32], a: usize, t: &[i32], at: usize, w: usize) -> usize
    requires { RowInside a at w s.now t.now }
    ensures { result ≡ ravel_index (row_at a w s.now) (row_at at w t.now) }
{
    if w == 2 {
        return cells::low(s, a) * cells::low(t, at + 1) + cells::low(s, a + 1);
    }
    let mut number = 0;
    for k in 0..w {
        number = number * cells::low(t, at + k) + cells::low(s, a + k);
    }
    number
}

// Whether no two of the n rows from a of s on have one of the 4,096 numbers from a number on: each is marked where it comes first.
fn differ_in_window(
    s: &[i32],
    a: usize,
    n: usize,
    t: &[i32],
    at: usize,
    w: usize,
    from: usize,
) -> bool
    requires { RowsInside a at w n s.now t.now }
    ensures { DifferIn from (from + 4096) (row_numbers a at w n s.now t.now) result }
{
    let mut marks = [false; 4096];
    for i in 0..n {
        let number = number_of(s, a + i * w, t, at, w);
        if number < from {
            continue;
        }
        let mark = number - from;
        if 4096 <= mark {
            continue;
        }
        if marks[mark] {
            return false;
        }
        marks[mark] = true;
    }
    true
}

// Whether no two of the rows are the same, by their numbers: one walk through them for each window below the product of the extents.
fn differ_by_numbers(s: &[i32], a: usize, n: usize, t: &[i32], at: usize, w: usize) -> bool
    requires { RowsInside a at w n s.now t.now }
    ensures { result ≡ distinct (rows_at a w n s.now) }
{
    let size = product(t, at, w);
    for from in (0..size).step_by(4096) {
        if !differ_in_window(s, a, n, t, at, w, from) {
            return false;
        }
    }
    true
}

// Whether no two of the n rows from a of s on are the same, which are below the extents at a place of t: up to 16 pair by pair, more by their
// numbers.
pub fn differ(s: &[i32], a: usize, n: usize, t: &[i32], at: usize, w: usize) -> bool
    requires { RowsInside a at w n s.now t.now }
    ensures { result ≡ distinct (rows_at a w n s.now) }
{
    if n <= 16 {
        return tables::distinct(s, a, n, w);
    }
    differ_by_numbers(s, a, n, t, at, w)
}

// The same, but that rows which increase are told by one walk.
pub fn all_differ(s: &[i32], a: usize, n: usize, t: &[i32], at: usize, w: usize) -> bool
    requires { RowsInside a at w n s.now t.now }
    ensures { result ≡ distinct (rows_at a w n s.now) }
{
    if tables::is_increasing(s, a, n, w) {
        return true;
    }
    differ(s, a, n, t, at, w)
}

// The index of a number goes into a slice from a place on: the last axis first, each by its remainder.
pub fn unravel_into(number: usize, s: &[i32], at: usize, rank: usize, out: &mut [i32], to: usize)
    requires { IndexAsked at rank s.now to out.old }
    ensures { out.new ≡ put to (map pos (unravel number (row_at at rank s.now))) out.old }
{
    let mut left = number;
    for k in (0..rank).rev() {
        let extent = cells::get(s, at + k);
        cells::store(out, to + k, left % extent);
        left /= extent;
    }
}

// Module 3, `filter_deps`: which indices a layout in a part holds, and the entries of a table that it holds.
#![tactic(auto)]

ghost use Rattle.std.specs.Prelude.{◌≡◌};
ghost use Rattle.rules.specs.RowsInOrder.{among};
ghost use Rattle.rules.specs.Layout.{kind_of};
ghost use Rattle.rules.specs.Dependencies.{on_diagonal, held, index_of};
ghost use Rattle.tables.specs.Rows.{row_at};
ghost use Rattle.tables.specs.Tables.{Taken};
ghost use Rattle.parts.specs.Parts.{kind_at, dense_at, rank_at};
ghost use Rattle.filtering.specs.Filtering.{filter_at, HeldAsked, DiagonalAsked, taken_if, EntryAsked, KeepAsked, Kept};

use rules::Kind;
use std::cmp::Ordering;

// Whether the index at p is a row of the layout at a place: where axes are dense, no row is as long as an index.
fn is_row(s: &[i32], at: usize, p: usize) -> bool
    requires { HeldAsked at p s.now }
    ensures { result ≡ among (row_at p (rank_at at s.now) s.now) (filter_at at s.now).rows }
{
    if 0 < cells::get(s, at + parts::DENSE) {
        return false;
    }
    let n = cells::get(s, at + parts::ROWS);
    let rank = cells::get(s, at + parts::RANK);
    match tables::search(s, at + parts::FIRST_ROW, n, rank, s, p) {
        Ok(_) => true,
        Err(_) => false,
    }
}

// Whether the index at p is (i,..,i), with i below the first extent of the layout at a place.
fn on_diagonal(s: &[i32], at: usize, p: usize) -> bool
    requires { DiagonalAsked at p s.now }
    ensures { result ≡ on_diagonal (filter_at at s.now) (row_at p (rank_at at s.now) s.now) }
{
    let rank = cells::get(s, at + parts::RANK);
    records::alike(s, p, rank) && cells::get(s, p) < cells::get(s, at + parts::EXTENTS)
}

// Whether the layout at a place holds the index at p.
pub fn is_held(s: &[i32], at: usize, p: usize) -> bool
    requires { HeldAsked at p s.now }
    ensures { result ≡ held (filter_at at s.now) (row_at p (rank_at at s.now) s.now) }
{
    match records::kind_at(s, at) {
        Kind::Dense => axes::row_below(
            s,
            p,
            s,
            at + parts::EXTENTS,
            cells::get(s, at + parts::RANK),
        ),
        Kind::Diagonal => on_diagonal(s, at, p),
        Kind::Sparse => is_row(s, at, p),
    }
}

// The entry at p is put into a table of entries of width w, if the layout at a place holds its index; false where it would be the 129th.
fn put_held(s: &mut [i32], at: usize, p: usize, to: usize, w: usize) -> bool
    requires { EntryAsked at p to w s.old }
    ensures { Taken to w (taken_if (held (filter_at at s.old) (index_of (row_at p w s.old))) (row_at p w s.old)) s.old s.new result }
{
    if is_held(s, at, p) {
        return tables::put_own(s, to, w, p);
    }
    true
}

// The entries of a table whose index the layout at a place holds become another table, one after the other.
fn keep_each(s: &mut [i32], at: usize, from: usize, to: usize)
    requires { KeepAsked at from to s.old }
    ensures { Kept at from to s.old s.new }
{
    let w = cells::get(s, at + parts::RANK) + 1;
    let n = cells::get(s, from);
    cells::store(s, to, 0);
    for i in 0..n {
        put_held(s, at, from + 1 + i * w, to, w);
    }
}

// The same of a sparse layout without dense axes, in one walk over the entries and its rows, which both increase.
fn keep_listed(s: &mut [i32], at: usize, from: usize, to: usize)
    requires keep_asked { KeepAsked at from to s.old }
    requires s_value { (kind_of (kind_at at s.old) ≡ Kind.Sparse) × (dense_at at s.old ≡ 0) }
    ensures { Kept at from to s.old s.new }
{
    let rank = cells::get(s, at + parts::RANK);
    let w = rank + 1;
    let mut n = cells::get(s, from);
    let mut m = cells::get(s, at + parts::ROWS);
    let mut p = from + 1;
    let mut q = at + parts::FIRST_ROW;
    let mut k = 0;
    // A turn moves on in the entries, in the rows or in both, so a `for` over either does not walk them.
    while 0 < n && 0 < m {
        match tables::cmp_rows(s, p, s, q, rank) {
            Ordering::Less => {
                p += w;
                n -= 1;
            }
            Ordering::Equal => {
                cells::move_row(s, p, to + 1 + k * w, w);
                p += w;
                n -= 1;
                k += 1;
            }
            Ordering::Greater => {
                q += rank;
                m -= 1;
            }
        }
    }
    cells::store(s, to, k);
}

// The entries of a table whose index the layout at a place holds become another table.
pub fn keep_held(s: &mut [i32], at: usize, from: usize, to: usize)
    requires { KeepAsked at from to s.old }
    ensures { Kept at from to s.old s.new }
{
    if matches!(records::kind_at(s, at), Kind::Sparse) && cells::get(s, at + parts::DENSE) == 0 {
        keep_listed(s, at, from, to);
    } else {
        keep_each(s, at, from, to);
    }
}

// The rows and the dependencies of a layout in a part of the working slice, with a smaller D, put in order into a table of the slice.
#![tactic(auto)]

ghost use Rattle.std.specs.Prelude.{◌≡◌, true, ◌+◌, ◌-◌};
ghost use Rattle.rules.specs.Lists.{product as product_of};
ghost use Rattle.rules.specs.RowsInOrder.{Increasing};
ghost use Rattle.rules.specs.Pairs.{lowered};
ghost use Rattle.tables.specs.Rows.{row_at};
ghost use Rattle.tables.specs.Tables.{table_at, Taken, Listed};
ghost use Rattle.parts.specs.Parts.{rank_at, layout_at, Holds};
ghost use Rattle.lowering.specs.Lowering.{Axes, last_axes, last_positions, with_tails, all_tails, RowAsked, RowsAsked, DiagonalAsked, diagonal_of, LowerAsked, removes_axes, lowered_deps, DepsAsked};

// The product of the extents from axis w on, of the shape of `rank` extents at a place.
#[tactic(auto, using(crate::proofs::LastAxes::laws))]
pub fn product(s: &[i32], at: usize, w: usize, rank: usize) -> usize
    requires { Axes at w rank s.now }
    ensures { result ≡ product_of (last_axes at w rank s.now) }
{
    axes::product(s, at + w, rank - w)
}

// The row of so many numbers at a place, with each index of the last axes in place of its numbers from w up to the rank, is put into a table
// of rows of a width; false where that makes too many rows.
pub fn list_row(
    s: &mut [i32],
    from: usize,
    read: usize,
    extents: usize,
    w: usize,
    rank: usize,
    size: usize,
    to: usize,
    width: usize,
) -> bool
    requires { RowAsked from read extents w rank size to width s.old }
    ensures { Taken to width (with_tails w rank (row_at from read s.old) (last_positions extents w rank s.old)) s.old s.new result }
{
    let mut row = tables::read_row(s, from, read);
    for number in 0..size {
        axes::unravel_into(number, s, extents + w, rank - w, &mut row, w);
        if !tables::put_row(s, to, width, &row, 0) {
            return false;
        }
    }
    true
}

// The same of each row of a table.
pub fn list_rows(
    s: &mut [i32],
    from: usize,
    read: usize,
    extents: usize,
    w: usize,
    rank: usize,
    to: usize,
    width: usize,
) -> bool
    requires { RowsAsked from read extents w rank to width s.old }
    ensures { Taken to width (all_tails w rank (table_at from read s.old) (last_positions extents w rank s.old)) s.old s.new result }
{
    let count = cells::get(s, from);
    let size = product(s, extents, w, rank);
    for i in 0..count {
        if !list_row(
            s,
            from + 1 + i * read,
            read,
            extents,
            w,
            rank,
            size,
            to,
            width,
        ) {
            return false;
        }
    }
    true
}

// The rows (i,..,i) for each i below an extent are put into the table; false where that makes too many rows.
#[tactic(auto, using(crate::proofs::Diagonals::laws))]
pub fn list_diagonal(s: &mut [i32], to: usize, w: usize, extent: usize) -> bool
    requires { DiagonalAsked to w extent s.old }
    ensures { Taken to w (diagonal_of w extent) s.old s.new result }
{
    for i in 0..extent {
        let number = cells::whole(i);
        let row = [number; 5];
        if !tables::put_row(s, to, w, &row, 0) {
            return false;
        }
    }
    true
}

// The rows of the layout at a place, with its D lowered to d, become a table, in order; false where they are too many. Whether they are
// known to increase is told, so that it is not asked again.
pub fn lower_into(s: &mut [i32], at: usize, d: usize, to: usize, rising: bool) -> bool
    requires lower_asked { LowerAsked at to d s.old }
    requires increasing { rising ≡ true → Increasing (layout_at at s.old).rows }
    ensures { Listed to (rank_at at s.old - d) (lowered (layout_at at s.old) d).rows s.old s.new result }
{
    let rank = cells::get(s, at + parts::RANK);
    if cells::get(s, at) == 1 {
        let extent = cells::get(s, at + parts::EXTENTS);
        cells::store(s, to, 0);
        return list_diagonal(s, to, rank, extent);
    }
    let dense = cells::get(s, at + parts::DENSE);
    if dense == d {
        if rising {
            tables::move_table(s, at + parts::ROWS, to, rank - d);
            return true;
        }
        tables::sort_into(s, at + parts::ROWS, to, rank - d);
        return true;
    }
    cells::store(s, to, 0);
    if 0 < d {
        return true;
    }
    let w = rank - dense;
    list_rows(
        s,
        at + parts::ROWS,
        w,
        at + parts::EXTENTS,
        w,
        rank,
        to,
        rank,
    )
}

// Whether the layout at a place loses dense axes where its D is lowered to d.
#[tactic(auto, using(crate::proofs::LoweredDeps::removes_laws))]
pub fn removes_axes(s: &[i32], at: usize, d: usize) -> bool
    requires { Holds at s.now }
    ensures { result ≡ removes_axes (layout_at at s.now) d }
{
    cells::get(s, at) != 1 && d < cells::get(s, at + parts::DENSE)
}

// One list of the dependencies of the layout at a place, with its D lowered to d, becomes a table, in order; false where they are too many.
// Where no axis is removed they are copied: they stand in order.
pub fn lower_deps_into(s: &mut [i32], at: usize, d: usize, from: usize, to: usize) -> bool
    requires { DepsAsked at d from to s.old }
    ensures { Listed to (rank_at at s.old + 1) (lowered_deps (layout_at at s.old) d (table_at from (rank_at at s.old + 1) s.old)) s.old s.new result }
{
    let rank = cells::get(s, at + parts::RANK);
    if removes_axes(s, at, d) {
        let w = rank - (cells::get(s, at + parts::DENSE) - d);
        cells::store(s, to, 0);
        return list_rows(
            s,
            from,
            rank + 1,
            at + parts::EXTENTS,
            w,
            rank,
            to,
            rank + 1,
        );
    }
    tables::move_table(s, from, to, rank + 1);
    true
}

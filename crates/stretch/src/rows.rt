// Rows that take every value on the stretched axes. A row is 0 on these axes.
ghost use Rattle.tables.specs.Rows.{row_at};
ghost use Rattle.tables.specs.Tables.{Listed};
ghost use Rattle.parts.specs.Parts.{rows_from};
ghost use Rattle.stretch.specs.Tables.{RowsAsked, moved_rows};

use super::every::put_moved;

// Each of the rows plus each index of the extents becomes a row of the part, in order and once; false where they are too many. Where
// there is one index, the rows stay as they are.
pub fn stretch_rows(
    from: &[i32],
    first: usize,
    count: usize,
    w: usize,
    extents: [i32; 5],
    part: &mut [i32],
) -> bool
    requires { RowsAsked first count w from.now extents part.old }
    ensures { Listed rows_from w (moved_rows first count w from.now (row_at 0 w extents)) part.old part.new result }
{
    let size = axes::product(&extents, 0, w);
    if size == 1 {
        tables::sort_from(from, first, count, w, part, parts::ROWS);
        return true;
    }
    cells::store(part, parts::ROWS, 0);
    for i in 0..count {
        if !put_moved(from, first + i * w, w, extents, size, part, parts::ROWS) {
            return false;
        }
    }
    true
}

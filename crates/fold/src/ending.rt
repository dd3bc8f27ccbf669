// What a folded layout becomes: a sparse one that is full is dense, one whose rows are a diagonal is diagonal.
ghost use Rattle.std.specs.Prelude.{◌≡◌, ◌+◌, ◌*◌, ◌<◌, ◌≤◌, length};
ghost use Rattle.rules.specs.Lists.{all};
ghost use Rattle.rules.specs.Layout.{alike};
ghost use Rattle.rules.specs.Broadcast.{is_diagonal_in_rows, end_of_broadcast};
ghost use Rattle.tables.specs.Rows.{rows_at};
ghost use Rattle.parts.specs.Parts.{rank_at, layout_at, Holds};
ghost use Rattle.parts.specs.Answers.{Says};
ghost use Rattle.fold.specs.Ended.{BareAsked, Bared, SparseEnd};

use parts::{DENSE, EXTENTS, FIRST_ROW, KIND, RANK, ROWS};
use rules::{Kind, Refusal};

// Whether each of n rows has equal components.
fn rows_alike(part: &[i32], n: usize, w: usize) -> bool
    requires { 8 + n * w ≤ length part.now }
    ensures { result ≡ all alike (rows_at 8 w n part.now) }
{
    for i in 0..n {
        if !records::alike(part, FIRST_ROW + i * w, w) {
            return false;
        }
    }
    true
}

// Whether the rows of a layout with axes are a diagonal: R is not 1, all extents are equal, there are as many rows as the first extent, each of equal components.
fn is_diagonal_in_rows(part: &[i32]) -> bool
    requires { Holds 0 part.now × (0 < rank_at 0 part.now) }
    ensures { result ≡ is_diagonal_in_rows (layout_at 0 part.now) }
{
    let rank = cells::get(part, RANK);
    if rank == 1 {
        return false;
    }
    if !records::alike(part, EXTENTS, rank) {
        return false;
    }
    let count = cells::get(part, ROWS);
    if count != cells::get(part, EXTENTS) {
        return false;
    }
    rows_alike(part, count, rank - cells::get(part, DENSE))
}

// A layout with a kind and a D, and no rows.
fn bare(part: &mut [i32], kind: usize, dense: usize)
    requires { BareAsked kind dense part.old }
    ensures { Bared kind dense part.old part.new }
{
    cells::store(part, KIND, kind);
    cells::store(part, DENSE, dense);
    cells::store(part, ROWS, 0);
}

// The end of a sparse layout that is not full.
fn end_sparse(part: &mut [i32]) -> Result<(), Refusal>
    requires { SparseEnd part.old }
    ensures { Says (end_of_broadcast (layout_at 0 part.old)) 0 part.new result }
{
    if cells::get(part, RANK) == 0 {
        return Err(Refusal::MadeUnsound);
    }
    if is_diagonal_in_rows(part) {
        let dense = cells::get(part, DENSE);
        bare(part, 1, dense);
    }
    Ok(())
}

// The end: a sparse layout with as many rows as the product becomes dense, one of rank 0 gives 12, and one whose rows are a
// diagonal becomes diagonal; any other stays.
pub fn end(part: &mut [i32]) -> Result<(), Refusal>
    requires { Holds 0 part.old }
    ensures { Says (end_of_broadcast (layout_at 0 part.old)) 0 part.new result }
{
    let Kind::Sparse = records::kind_at(part, KIND) else {
        return Ok(());
    };
    let rank = cells::get(part, RANK);
    if cells::get(part, ROWS) == axes::product(part, EXTENTS, rank) {
        bare(part, 0, rank);
        return Ok(());
    }
    end_sparse(part)
}

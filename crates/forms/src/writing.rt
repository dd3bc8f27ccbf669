// A record written to the front of a result from its pieces.
ghost use Rattle.std.specs.Prelude.{[], map, ◌≤◌, pos, length};
ghost use Rattle.rules.specs.Limits.{result_size};
ghost use Rattle.rules.specs.Layout.{encode};
ghost use Rattle.rules.specs.Record.{shape_in, layout_in};
ghost use Rattle.rules.specs.Refusals.{given, in_form};
ghost use Rattle.rules.specs.Endings.{EndsIn};
ghost use Rattle.rules.specs.CountsAndForms.{to_dense, to_data_layout, dense, new_empty, new_scalar, diagonal};
ghost use Rattle.shapes.specs.Judged.{Judged};
ghost use Rattle.records.specs.Sound.{SoundRecord};
ghost use Rattle.forms.specs.Pieces.{pieces, PiecesFit, no_deps};

use records::EXTENTS;
use rules::{Head, Refusal};

// Kind, dense axes, extents, the numbers of so many rows and both dependency sections are written; the answer is how many numbers.
pub fn write_record(
    res: &mut [i32],
    kind: usize,
    dense: usize,
    extents: &[i32],
    count: usize,
    rows: &[i32],
    deps: &[i32],
) -> Result<usize, Refusal>
    requires { PiecesFit kind dense count extents.now rows.now deps.now res.old }
    ensures { EndsIn (given (pieces kind dense extents.now count rows.now deps.now)) res.old result res.new }
{
    let rank = extents.len();
    let first = [cells::whole(kind), cells::whole(dense), cells::whole(rank)];
    let at = EXTENTS + rank;
    let next = at + 1 + rows.len();
    cells::copy(&first, res);
    cells::copy_into(extents, res, EXTENTS);
    cells::store(res, at, count);
    cells::copy_into(rows, res, at + 1);
    cells::copy_into(deps, res, next);
    Ok(next + deps.len())
}

// A record without rows and dependencies is written.
fn write_shape(
    res: &mut [i32],
    kind: usize,
    dense: usize,
    extents: &[i32],
) -> Result<usize, Refusal>
    requires { PiecesFit kind dense 0 extents.now [] no_deps res.old }
    ensures { EndsIn (given (pieces kind dense extents.now 0 [] no_deps)) res.old result res.new }
{
    let none = [0i32; 2];
    write_record(res, kind, dense, extents, 0, &extents[..0], &none)
}

// The dense record of the same shape and dependencies is written.
pub fn to_dense(s: &[i32], head: Head, res: &mut [i32]) -> Result<usize, Refusal>
    requires sound_record { SoundRecord head s.now }
    requires result_size_in_bounds { result_size ≤ length res.old }
    ensures { EndsIn (given (encode (to_dense (layout_in s.now)))) res.old result res.new }
{
    let end = EXTENTS + head.rank;
    let deps = &s[head.rows.next..head.inputs.next];
    write_record(res, 0, head.rank, &s[EXTENTS..end], 0, &s[..0], deps)
}

// The numbers of the rows are written, of a sparse record alone.
pub fn to_data_layout(s: &[i32], head: Head, res: &mut [i32]) -> Result<usize, Refusal>
    requires sound_record { SoundRecord head s.now }
    requires result_size_in_bounds { result_size ≤ length res.old }
    ensures { EndsIn (given (map pos (to_data_layout (layout_in s.now)))) res.old result res.new }
{
    let rows = head.rows;
    let from = rows.first;
    let to = rows.next;
    cells::copy(&s[from..to], res);
    Ok(to - from)
}

// The dense record of a shape is written.
pub fn dense(shape: &[i32], res: &mut [i32]) -> Result<usize, Refusal>
    requires judged { Judged shape.now }
    requires result_size_in_bounds { result_size ≤ length res.old }
    ensures { EndsIn (given (encode (dense (shape_in shape.now)))) res.old result res.new }
{
    let rank = shapes::rank(shape);
    let end = 1 + rank;
    write_shape(res, 0, rank, &shape[1..end])
}

// The dense record of a rank up to 4 and extents 0 is written.
pub fn new_empty(rank: usize, res: &mut [i32]) -> Result<usize, Refusal>
    requires rank_bound { rank ≤ 4 }
    requires result_size_in_bounds { result_size ≤ length res.old }
    ensures { EndsIn (given (encode (new_empty rank))) res.old result res.new }
{
    let zeros = [0i32; 4];
    write_shape(res, 0, rank, &zeros[..rank])
}

// The dense record without axes is written.
pub fn new_scalar(res: &mut [i32]) -> Result<usize, Refusal>
    requires { result_size ≤ length res.old }
    ensures { EndsIn (given (encode new_scalar)) res.old result res.new }
{
    new_empty(0, res)
}

// The diagonal record of a shape is written, if it has axes and all are of one extent.
pub fn diagonal(shape: &[i32], res: &mut [i32]) -> Result<usize, Refusal>
    requires judged { Judged shape.now }
    requires result_size_in_bounds { result_size ≤ length res.old }
    ensures { EndsIn (in_form encode (diagonal (shape_in shape.now))) res.old result res.new }
{
    let rank = shapes::rank(shape);
    if rank == 0 {
        return Err(Refusal::MadeUnsound);
    }
    if !records::alike(shape, 1, rank) {
        return Err(Refusal::MadeUnsound);
    }
    let end = 1 + rank;
    write_shape(res, 1, 0, &shape[1..end])
}

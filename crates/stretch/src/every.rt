// Every combination of values on some axes: a row is 0 there, and each index of the values is added to it.
ghost use Rattle.std.specs.Prelude.{◌≡◌, [], ◌∷◌};
ghost use Rattle.rules.specs.Positions.{unravel};
ghost use Rattle.tables.specs.Rows.{row_at};
ghost use Rattle.tables.specs.Tables.{Taken};
ghost use Rattle.stretch.specs.Spread.{plus};
ghost use Rattle.stretch.specs.Tables.{in_turn, AddAsked, TurnAsked, Turned, MovesAsked};

// The row at a place plus an index, number by number.
fn added(from: &[i32], at: usize, w: usize, index: [i32; 5]) -> [i32; 5]
    requires { AddAsked at w from.now index }
    ensures { row_at 0 w result ≡ plus (row_at at w from.now) (row_at 0 w index) }
{
    let mut row = index;
    for k in 0..w {
        let number = cells::get(from, at + k) + cells::get(&row, k);
        cells::store(&mut row, k, number);
    }
    row
}

// An index becomes the next one: the last component that can grow does, and those behind it begin again at 0.
fn turn(index: &mut [i32], extents: &[i32], w: usize)
    requires { TurnAsked w extents.now index.old }
    ensures { Turned w extents.now index.old index.new }
{
    for k in (0..w).rev() {
        let number = cells::low(index, k) + 1;
        if number < cells::low(extents, k) {
            cells::store(index, k, number);
            return;
        }
        cells::store(index, k, 0);
    }
}

// The row at a place plus each index is put into the table; false where that makes too many rows.
pub fn put_moved(
    from: &[i32],
    at: usize,
    w: usize,
    extents: [i32; 5],
    size: usize,
    part: &mut [i32],
    to: usize,
) -> bool
    requires { MovesAsked at w from.now extents size to part.old }
    ensures { Taken to w (in_turn (λ n. plus (row_at at w from.now) (unravel n (row_at 0 w extents)) ∷ []) size) part.old part.new result }
{
    let mut index = [0i32; 5];
    for _number in 0..size {
        let row = added(from, at, w, index);
        if !tables::put_row(part, to, w, &row, 0) {
            return false;
        }
        turn(&mut index, &extents, w);
    }
    true
}

// A layout with its axes moved: each axis goes where its entry says.
ghost use Rattle.std.specs.Prelude.{◌≡◌, false, ◌≤◌, length};
ghost use Rattle.std.specs.Option.{MatchOption};
ghost use Rattle.rules.specs.Record.{layout_in};
ghost use Rattle.rules.specs.Permute.{permute};
ghost use Rattle.records.specs.Sound.{SoundRecord};
ghost use Rattle.parts.specs.Parts.{part_size};
ghost use Rattle.parts.specs.Answers.{Says};
ghost use Rattle.reshape.specs.Permuting.{names_axes, MovesAre, MoveAsked, FrontMoved, AxesMoved};

use rules::{Head, Kind, Refusal};

// The largest of the axes that entries name, and for each axis the place of its entry, 5 where it has none.
#[derive(Clone, Copy)]
struct Moves {
    largest: usize,
    places: [usize; 5],
}

// Where the entries send each axis, the last one first; none where they do not name axes, each once.
fn moves_of(entries: &[i32]) -> Option<Moves>
    requires { length entries.now ≤ 4 }
    ensures { MatchOption result (names_axes entries.now ≡ false) (λ moves. MovesAre entries.now moves.largest moves.places) }
{
    let mut places = [5usize; 5];
    let mut largest = 0;
    for k in (0..entries.len()).rev() {
        let axis = cells::sign_at(entries, k)?;
        if 3 < axis {
            return None;
        }
        if places[axis] < 5 {
            return None;
        }
        places[axis] = k;
        largest = axis.max(largest);
    }
    Some(Moves { largest, places })
}

// Kind, D, extents and rows of the layout with its axes moved: 12 where a diagonal stays none, 11 where dense axes stand in the way of
// rows, which are moved as they come.
fn move_front(
    record: &[i32],
    head: Head,
    largest: usize,
    places: [usize; 5],
    part: &mut [i32],
) -> Result<(), Refusal>
    requires { MoveAsked head largest «record».now part.old }
    ensures { FrontMoved largest places (layout_in «record».now) part.old part.new result }
{
    let rank = largest + 1;
    let dense = head.rank - head.width;
    let extents = moving::picked_row(record, records::EXTENTS, head.rank, 1, places, rank);
    match records::kind_at(record, records::KIND) {
        Kind::Dense => {
            cells::store(part, parts::ROWS, 0);
            moving::write_head(part, 0, rank, &extents[..rank]);
            Ok(())
        }
        Kind::Diagonal => {
            if largest < dense {
                return Err(Refusal::MadeUnsound);
            }
            if !records::alike(&extents, 0, rank - dense) {
                return Err(Refusal::MadeUnsound);
            }
            cells::store(part, parts::ROWS, 0);
            moving::write_head(part, 1, dense, &extents[..rank]);
            Ok(())
        }
        Kind::Sparse => {
            if 0 < dense {
                return Err(Refusal::DenseAxes);
            }
            let rows = head.rows;
            moving::pick_as_they_come(record, rows, head.width, places, rank, part, parts::ROWS);
            moving::write_head(part, 2, 0, &extents[..rank]);
            Ok(())
        }
    }
}

// The layout with its axes moved by entries that can be used, of which there is one.
fn move_axes(
    record: &[i32],
    head: Head,
    largest: usize,
    places: [usize; 5],
    part: &mut [i32],
) -> Result<(), Refusal>
    requires { MoveAsked head largest «record».now part.old }
    ensures { AxesMoved largest places (layout_in «record».now) part.new result }
{
    move_front(record, head, largest, places, part)?;
    let mut deps = places;
    deps[largest + 1] = head.rank;
    moving::pick_deps(record, head, deps, largest + 2, part);
    Ok(())
}

// The layout of a record with its axes moved by entries goes into a part: 8 where they are not a usable permutation; a copy where there
// is none.
pub fn permute_into(
    record: &[i32],
    head: Head,
    entries: &[i32],
    part: &mut [i32],
) -> Result<(), Refusal>
    requires sound_record { SoundRecord head «record».now }
    requires part_size_in_bounds { part_size ≤ length part.old }
    ensures { Says (permute (layout_in «record».now) entries.now) 0 part.new result }
{
    let count = entries.len();
    if head.rank < count {
        return Err(Refusal::NoPermutation);
    }
    if count < lookups::min_rank(&record[records::RANK..]) {
        return Err(Refusal::NoPermutation);
    }
    let moves = moves_of(entries).ok_or(Refusal::NoPermutation)?;
    if count == 0 {
        parts::load(record, head, part);
        return Ok(());
    }
    move_axes(record, head, moves.largest, moves.places, part)
}

// A layout summed over its last axis. Which arm is taken depends on D first, then on the kind.
ghost use Rattle.std.specs.Prelude.{◌<◌, ◌≤◌, length};
ghost use Rattle.rules.specs.Record.{layout_in};
ghost use Rattle.rules.specs.ContractLastAxis.{contracted, contract_last_axis};
ghost use Rattle.records.specs.Sound.{SoundRecord};
ghost use Rattle.parts.specs.Parts.{part_size};
ghost use Rattle.parts.specs.Answers.{Says};
ghost use Rattle.reshape.specs.Contracting.{FrontMade, SumAsked, NoDenseAxis};

use rules::{Head, Kind, Refusal};

// With dense axes: one less, and the rows as they stand in the record.
fn sum_dense_axis(record: &[i32], head: Head, part: &mut [i32])
    requires sum_asked { SumAsked head «record».now part.old }
    requires width_lt_rank { head.width < head.rank }
    ensures { FrontMade (contracted (layout_in «record».now)) part.old part.new }
{
    let kind = cells::get(record, records::KIND);
    let dense = head.rank - head.width;
    let last = head.rank + records::RANK;
    moving::keep_rows(record, head, part);
    moving::write_head(part, kind, dense - 1, &record[records::EXTENTS..last]);
}

// A diagonal without dense axes: a diagonal if it has more than two axes, else dense.
fn sum_diagonal(record: &[i32], head: Head, part: &mut [i32])
    requires sum_asked { SumAsked head «record».now part.old }
    requires no_dense_axis { NoDenseAxis 1 head (layout_in «record».now) }
    ensures { FrontMade (contracted (layout_in «record».now)) part.old part.new }
{
    let rank = head.rank - 1;
    let last = head.rank + records::RANK;
    cells::store(part, parts::ROWS, 0);
    if 1 < rank {
        moving::write_head(part, 1, 0, &record[records::EXTENTS..last]);
    } else {
        moving::write_head(part, 0, rank, &record[records::EXTENTS..last]);
    }
}

// Sparse without dense axes: its rows without their last number, in order and once each; dense if they are as many as the product of
// the extents that are left.
fn sum_rows(record: &[i32], head: Head, part: &mut [i32])
    requires sum_asked { SumAsked head «record».now part.old }
    requires no_dense_axis { NoDenseAxis 2 head (layout_in «record».now) }
    ensures { FrontMade (contracted (layout_in «record».now)) part.old part.new }
{
    let rank = head.rank - 1;
    let last = head.rank + records::RANK;
    let rows = head.rows;
    moving::cut_sorted(record, rows, head.width, rank, part, parts::ROWS);
    if cells::get(part, parts::ROWS) == axes::product(record, records::EXTENTS, rank) {
        cells::store(part, parts::ROWS, 0);
        moving::write_head(part, 0, rank, &record[records::EXTENTS..last]);
    } else {
        moving::write_head(part, 2, 0, &record[records::EXTENTS..last]);
    }
}

// Kind, D, extents and rows of the layout summed over its last axis.
fn sum_front(record: &[i32], head: Head, part: &mut [i32])
    requires { SumAsked head «record».now part.old }
    ensures { FrontMade (contracted (layout_in «record».now)) part.old part.new }
{
    if head.width < head.rank {
        sum_dense_axis(record, head, part);
    } else if matches!(records::kind_at(record, records::KIND), Kind::Diagonal) {
        sum_diagonal(record, head, part);
    } else {
        sum_rows(record, head, part);
    }
}

// The layout of a record, summed over its last axis, goes into a part; one without axes is refused with 7.
pub fn contract_into(record: &[i32], head: Head, part: &mut [i32]) -> Result<(), Refusal>
    requires sound_record { SoundRecord head «record».now }
    requires part_size_in_bounds { part_size ≤ length part.old }
    ensures { Says (contract_last_axis (layout_in «record».now)) 0 part.new result }
{
    if head.rank == 0 {
        return Err(Refusal::ScalarContracted);
    }
    sum_front(record, head, part);
    let places = moving::shorter_places(head.rank - 1, head.rank);
    moving::pick_deps(record, head, places, head.rank, part);
    Ok(())
}

// What a block lists, one entry at a time: its rows, or its dependencies fitted to the asked rank, moved by its start.
ghost use Rattle.std.specs.Prelude.{◌≡◌, [], ◌+◌, ◌*◌, ◌<◌, length, get_or, take};
ghost use Rattle.rules.specs.Lists.{fit_to};
ghost use Rattle.rules.specs.Record.{layout_in};
ghost use Rattle.rules.specs.Dependencies.{on_index};
ghost use Rattle.rules.specs.Concatenate.{rows_of_block};
ghost use Rattle.tables.specs.Rows.{row_at};
ghost use Rattle.records.specs.Sound.{SoundRecord};
ghost use Rattle.entries.specs.Listing.{listed, moved_list, row_width, axes_in, ListAsked, DepAsked, StartLow, MoveAsked, Moved, EntryIs};

use rules::{Entries, Head, Kind};

// The lists of a block.
#[derive(Clone, Copy)]
pub enum Listed {
    // Every index of a dense block, the diagonal of a diagonal one, the rows of a sparse one.
    Rows,
    // The dependencies on states.
    States,
    // The dependencies on inputs.
    Inputs,
}

// How many numbers of an entry belong to axes: all w of a row, as many as the asked rank of a dependency.
pub fn axes_in(list: Listed, rank: usize, w: usize) -> usize
    ensures { result ≡ axes_in list rank w }
{
    match list {
        Listed::Rows => w,
        Listed::States | Listed::Inputs => rank,
    }
}

// Row i that a block lists.
fn row_of(from: &[i32], head: Head, i: usize) -> [i32; 5]
    requires sound_record { SoundRecord head from.now }
    requires i_in_bounds { i < length (rows_of_block (layout_in from.now)) }
    ensures { row_at 0 (row_width (layout_in from.now)) result ≡ get_or (rows_of_block (layout_in from.now)) i [] }
{
    match records::kind_at(from, records::KIND) {
        Kind::Dense => {
            let mut index = [0i32; 5];
            axes::unravel_into(i, from, records::EXTENTS, head.rank, &mut index, 0);
            index
        }
        Kind::Diagonal => [cells::whole(i); 5],
        Kind::Sparse => tables::read_row(from, head.rows.first + i * head.width, head.width),
    }
}

// Dependency i of a list of them, fitted to a rank.
fn dep_of(from: &[i32], deps: Entries, old: usize, rank: usize, i: usize) -> [i32; 5]
    requires { DepAsked deps old rank i from.now }
    ensures { row_at 0 (rank + 1) result ≡ on_index (fit_to rank 0) (row_at (deps.first + i * (old + 1)) (old + 1) from.now) }
{
    moving::fitted(from, deps.first + i * (old + 1), old, rank)
}

// How many entries a list of a block has.
pub fn count_of(list: Listed, from: &[i32], head: Head, rank: usize) -> usize
    requires { SoundRecord head from.now }
    ensures { result ≡ length (listed list rank (layout_in from.now)) }
{
    match list {
        Listed::Rows => lookups::nnz(from, head),
        Listed::States => head.states.count,
        Listed::Inputs => head.inputs.count,
    }
}

// Entry i of a list of a block.
fn entry_of(list: Listed, from: &[i32], head: Head, rank: usize, w: usize, i: usize) -> [i32; 5]
    requires list_asked { ListAsked list head from.now rank w }
    requires i_in_bounds { i < length (listed list rank (layout_in from.now)) }
    ensures { row_at 0 w result ≡ get_or (listed list rank (layout_in from.now)) i [] }
{
    match list {
        Listed::Rows => row_of(from, head, i),
        Listed::States => dep_of(from, head.states, head.rank, rank, i),
        Listed::Inputs => dep_of(from, head.inputs, head.rank, rank, i),
    }
}

// A row whose first n numbers are moved by a start.
fn moved(row: [i32; 5], start: [usize; 4], n: usize) -> [i32; 5]
    requires { MoveAsked row start n }
    ensures { Moved n start row result }
{
    let mut sum = row;
    for k in 0..n {
        let number = start[k] + cells::get(&sum, k);
        cells::store(&mut sum, k, number);
    }
    sum
}

// Entry i of a list of a block, moved by the start of the block.
pub fn moved_entry(
    list: Listed,
    from: &[i32],
    head: Head,
    start: [usize; 4],
    rank: usize,
    w: usize,
    i: usize,
) -> [i32; 5]
    requires list_asked { ListAsked list head from.now rank w }
    requires start_low { StartLow start × (i < length (listed list rank (layout_in from.now))) }
    ensures { EntryIs w (get_or (moved_list list rank (take rank start) (layout_in from.now)) i []) result }
{
    let entry = entry_of(list, from, head, rank, w, i);
    moved(entry, start, axes_in(list, rank, w))
}

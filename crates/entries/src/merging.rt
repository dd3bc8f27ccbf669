// The entries of all blocks in one table: those of a block are listed in a spare part and merged with the ones before them.
ghost use Rattle.std.specs.Prelude.{◌≡◌, true, ◌≤◌, length, take};
ghost use Rattle.rules.specs.Lists.{all};
ghost use Rattle.rules.specs.Record.{layout_in, block_at};
ghost use Rattle.rules.specs.Concatenate.{block_of};
ghost use Rattle.tables.specs.Rows.{row_at};
ghost use Rattle.tables.specs.Tables.{table_at, room_end, Ready};
ghost use Rattle.parts.specs.Parts.{window_size, spare, other_spare};
ghost use Rattle.entries.specs.Listing.{moved_list, axes_in};
ghost use Rattle.entries.specs.Merging.{small_to, SmallAsked, PutSmall, TableAsked, Tabled, TargetReady, MergedMore, entries_of, joined, BlockAsked, AllAsked, blocks_of, left_out};

use super::entries::{Listed, axes_in, count_of, moved_entry};
use super::standing::{move_entries, standing_of};
use lists::Places;
use parts::{OTHER_SPARE, SPARE};
use rules::Head;

// The first w numbers of an entry are put into the table at a place, in order and once; false where it would be the 129th entry, or one
// of its first n numbers is above 65,535.
fn put_small(entry: [i32; 5], n: usize, window: &mut [i32], to: usize, w: usize) -> bool
    requires { SmallAsked entry n to w window.old }
    ensures { PutSmall to w n (row_at 0 w entry) window.old window.new result }
{
    let limits = [65536i32; 4];
    axes::row_below(&entry, 0, &limits, 0, n) && tables::put_row(window, to, w, &entry, 0)
}

// A list of a block, made entry by entry and moved by the start of the block, becomes the table at a place; false where it has too
// many entries, or too large ones.
fn list_made(
    list: Listed,
    from: &[i32],
    head: Head,
    start: [usize; 4],
    rank: usize,
    w: usize,
    window: &mut [i32],
    to: usize,
) -> bool
    requires { TableAsked list head from.now start rank w to window.old }
    ensures { Tabled to w (axes_in list rank w) (room_end to w) (moved_list list rank (take rank start) (layout_in from.now)) window.old window.new result }
{
    cells::store(window, to, 0);
    let count = count_of(list, from, head, rank);
    let n = axes_in(list, rank, w);
    for i in 0..count {
        let entry = moved_entry(list, from, head, start, rank, w, i);
        if !put_small(entry, n, window, to, w) {
            return false;
        }
    }
    true
}

// A list of a block, moved by the start of the block, becomes the table in the spare part; false where it has too many entries, or too
// large ones. Entries that stand in the record as they are listed are moved in one walk, and then put in order.
fn list_block(
    list: Listed,
    from: &[i32],
    head: Head,
    start: [usize; 4],
    rank: usize,
    w: usize,
    window: &mut [i32],
) -> bool
    requires { TableAsked list head from.now start rank w other_spare window.old }
    ensures { Tabled spare w (axes_in list rank w) window_size (moved_list list rank (take rank start) (layout_in from.now)) window.old window.new result }
{
    let Some(rows) = standing_of(list, from, head, rank) else {
        return list_made(list, from, head, start, rank, w, window, SPARE);
    };
    if !move_entries(
        from,
        rows,
        start,
        axes_in(list, rank, w),
        w,
        window,
        OTHER_SPARE,
    ) {
        return false;
    }
    tables::sort_into(window, OTHER_SPARE, SPARE, w);
    true
}

// The table in the spare part is merged with the one at a place; false where that makes too many entries.
fn merge_spare(window: &mut [i32], at: usize, w: usize) -> bool
    requires target_ready { TargetReady at w window.old }
    requires ready { Ready spare w window.old }
    ensures { MergedMore at w true (table_at spare w window.old) window.old window.new result }
{
    if !tables::merge_into(window, at, SPARE, OTHER_SPARE, w) {
        return false;
    }
    let size = 1 + cells::get(window, OTHER_SPARE) * w;
    cells::move_part(window, OTHER_SPARE, at, size);
    true
}

// Whether a list of a block is left out: its rows, if it is flagged as zero.
fn left_out(list: Listed, block: &[i32], rank: usize) -> bool
    ensures { result ≡ left_out list (block_of (block_at rank block.now)) }
{
    match list {
        Listed::Rows => lists::is_zero(block, rank),
        Listed::States | Listed::Inputs => false,
    }
}

// A list of the block at the front of a slice, moved by its start, is merged with the table at a place; false where that makes too many
// entries, or too large ones.
fn merge_block(
    list: Listed,
    block: &[i32],
    start: [usize; 4],
    rank: usize,
    w: usize,
    window: &mut [i32],
    at: usize,
) -> bool
    requires block_asked { BlockAsked list rank w start block.now }
    requires target_ready { TargetReady at w window.old }
    ensures { MergedMore at w (all (small_to (axes_in list rank w)) (entries_of list rank (block_of (block_at rank block.now)))) (entries_of list rank (block_of (block_at rank block.now))) window.old window.new result }
{
    if left_out(list, block, rank) {
        return true;
    }
    let record = rank + 1;
    let Some(head) = records::walk_record(&block[record..]) else {
        return false;
    };
    if !list_block(list, &block[record..], head, start, rank, w, window) {
        return false;
    }
    merge_spare(window, at, w)
}

// A list of the blocks, each moved by its start, becomes the table at a place, in order and once each; false where it has too many
// entries, or too large ones.
pub fn merge_blocks(
    list: Listed,
    s: &[i32],
    places: &Places,
    starts: [[usize; 4]; 16],
    rank: usize,
    w: usize,
    window: &mut [i32],
    at: usize,
) -> bool
    requires all_asked { AllAsked list rank w places.now.count places.now.at starts s.now }
    requires w_bound { (room_end at w ≤ spare) × (w ≤ 5) × (window_size ≤ length window.old) }
    ensures { Tabled at w (axes_in list rank w) window_size (joined list rank (blocks_of rank places.now.count places.now.at s.now)) window.old window.new result }
{
    cells::store(window, at, 0);
    for i in 0..places.count {
        let place = places.at[i];
        if !merge_block(list, &s[place..], starts[i], rank, w, window, at) {
            return false;
        }
    }
    true
}

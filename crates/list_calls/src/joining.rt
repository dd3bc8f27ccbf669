// Module 13, `concatenate`: blocks joined to one layout of the asked rank.
ghost use Rattle.std.specs.Prelude.{◌≡◌, not, ◌&&◌, ◌||◌, ◌^◌, ◌<◌, length};
ghost use Rattle.std.specs.Int.Signed.{non_neg};
ghost use Rattle.rules.specs.Lists.{if, all, any};
ghost use Rattle.rules.specs.Refusals.{in_form};
ghost use Rattle.rules.specs.Arguments.{over_count, over_rank, over_record};
ghost use Rattle.rules.specs.Layout.{encode};
ghost use Rattle.rules.specs.Record.{natural};
ghost use Rattle.rules.specs.Endings.{Ends};
ghost use Rattle.rules.specs.Concatenate.{good_block, concatenate_call};
ghost use Rattle.lists.specs.Places.{standing, Inside};
ghost use Rattle.lists.specs.Starts.{blocks_at};

use lists::{Ask, Places, Thing};
use rules::Refusal;

// How many axes are asked; none by a negative rank.
fn axes_of(rank: i32) -> usize
    ensures { (result ≡ natural rank) × (result < 2 ^ 31) }
{
    match cells::sign_of(rank) {
        Some(axes) => axes,
        None => 0,
    }
}

// Where what can be walked of a list ends: by a negative rank nothing can.
fn walkable(blocks: &[i32], rank: i32) -> usize
    ensures { result ≡ if (non_neg rank) (length blocks.now) 0 }
{
    match cells::sign_of(rank) {
        Some(_) => blocks.len(),
        None => 0,
    }
}

// Whether the count, the asked rank or the axes of one of the records are over their limits.
fn over_blocks(list: &[i32], records: &Places, count: i32, rank: i32) -> bool
    requires { Inside records.now.count records.now.at list.now }
    ensures { result ≡ (over_count count || over_rank rank || any over_record (standing records.now.count records.now.at list.now)) }
{
    let numbers = judging::either(shapes::over_count(count), judging::over_rank(rank));
    judging::either(numbers, lists::over_axes(list, records))
}

// Whether the asked rank is negative, or the start or the flag of one of the blocks is wrong.
fn wrong_blocks(list: &[i32], places: &Places, rank: i32) -> bool
    requires { Inside places.now.count places.now.at list.now }
    ensures { result ≡ not (non_neg rank && all good_block (blocks_at (natural rank) places.now.count places.now.at list.now)) }
{
    match cells::sign_of(rank) {
        Some(axes) => !lists::all_pass(Ask::GoodBlock(axes), list, places),
        None => true,
    }
}

// As many blocks as `count` says, end to end, each a start, a flag and a record, are joined to one layout of the asked rank, which goes
// to the result.
pub fn concatenate(
    blocks: &[i32],
    count: i32,
    rank: i32,
    res: &mut [i32],
    work: &mut [i32],
) -> Result<usize, Refusal>
    ensures { Ends (in_form encode (concatenate_call blocks.now count rank (length res.old) (length work.old))) res.old work.old result res.new work.new }
{
    let n = shapes::list_count(count);
    let axes = axes_of(rank);
    let end = walkable(blocks, rank);
    let list = &blocks[0..end];
    let places = lists::places_of(Thing::Block(axes), list, n);
    let records = lists::moved(list, &places, axes + 1);
    let over = over_blocks(list, &records, count, rank);
    judging::judge_sizes(over, res.len(), work.len())?;
    if !lists::all_sound(list, &records) {
        return parts::refuse(Refusal::Unsound, work);
    }
    if wrong_blocks(list, &places, rank) {
        return parts::refuse(Refusal::WrongArgument, work);
    }
    let starts = lists::block_starts(list, &places, axes);
    let step = join::concatenate_into(
        list,
        &places,
        &records,
        starts,
        axes,
        &mut work[0..parts::WINDOW],
    );
    parts::finish(step, work, parts::TARGET, res)
}

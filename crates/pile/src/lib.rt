// A pile of records in one lent slice, a record in each slot of 1,802 numbers: two of them are exchanged for their union and their
// intersection, which are both made in the working buffer before anything of the pile is written.
#![tactic(auto)]

ghost use Rattle.std.specs.Prelude.{◌≡◌, ◌+◌, ◌≤◌, length};
ghost use Rattle.rules.specs.Limits.{result_size, work_size};
ghost use Rattle.rules.specs.Buffers.{put};
ghost use Rattle.rules.specs.Layout.{encode};
ghost use Rattle.parts.specs.Parts.{target, layout_at, Holds, Window};
ghost use Rattle.rules.specs.Pile.{exchange_call, exchange_all_call, Exchanged, AllExchanged};
ghost use Rattle.pile.specs.Slots.{SlotsAre, SlotsIn};
ghost use Rattle.pile.specs.Exchanging.{sixth, United, BothMade, slots_call};

use rules::Refusal;

// The last part of the working buffer, behind the window of a step: the union waits there until the intersection is made too.
const SIXTH: usize = parts::WINDOW;

// The slots at two places of a pile of so many numbers.
fn two_slots(first: i32, second: i32, size: usize) -> Option<(usize, usize)>
    ensures { SlotsAre first second size result }
{
    let i = cells::sign_of(first)?;
    let j = cells::sign_of(second)?;
    let count = size / parts::PART;
    if count <= i {
        return None;
    }
    if count <= j {
        return None;
    }
    if i == j {
        return None;
    }
    Some((i * parts::PART, j * parts::PART))
}

// The union of the two layouts at the front of the working buffer is made and moved to the sixth part; the two stay.
fn unite(work: &mut [i32]) -> Result<(), Refusal>
    requires { Window work.old × (work_size ≤ length work.old) }
    ensures { United work.old work.new result }
{
    combine::union_in(&mut work[0..parts::WINDOW], false)?;
    cells::move_part(work, parts::TARGET, SIXTH, parts::PART);
    Ok(())
}

// The union of two records is made in the sixth part, their intersection in the target; or why one of the two is refused.
fn make_both(left: &[i32], right: &[i32], work: &mut [i32]) -> Result<(), Refusal>
    requires { work_size ≤ length work.old }
    ensures { BothMade left.now right.now work.old work.new result }
{
    let (first, left_ordered) = records::judged(left).ok_or(Refusal::Unsound)?;
    let (second, right_ordered) = records::judged(right).ok_or(Refusal::Unsound)?;
    parts::load_pair(left, first, right, second, &mut work[0..parts::WINDOW]);
    unite(work)?;
    if !left_ordered {
        return Err(Refusal::Unordered);
    }
    if !right_ordered {
        return Err(Refusal::Unordered);
    }
    intersecting::intersect_in(&mut work[0..parts::WINDOW])
}

// The layout of a part goes to the slot that begins at a place, as a record.
fn store_slot(part: &[i32], pile: &mut [i32], at: usize)
    requires holds { Holds 0 part.now }
    requires result_size_in_bounds { at + result_size ≤ length pile.old }
    ensures { pile.new ≡ put at (encode (layout_at 0 part.now)) pile.old }
{
    let end = at + parts::PART;
    parts::store(part, &mut pile[at..end]);
}

// The layout of the sixth part goes to the slot at a, then the one of the target to the slot at b.
fn store_both(work: &[i32], pile: &mut [i32], a: usize, b: usize)
    requires holds { Holds sixth work.now × Holds target work.now }
    requires slots_in { SlotsIn a b (length pile.old) }
    ensures { pile.new ≡ put b (encode (layout_at target work.now)) (put a (encode (layout_at sixth work.now)) pile.old) }
{
    store_slot(&work[SIXTH..parts::WORK], pile, a);
    store_slot(&work[parts::TARGET..parts::SPARE], pile, b);
}

// The records of the slots at a and at b are exchanged; a refused exchange leaves the pile as it is.
fn exchange_slots(pile: &mut [i32], a: usize, b: usize, work: &mut [i32]) -> Result<(), Refusal>
    requires { SlotsIn a b (length pile.old) × (work_size ≤ length work.old) }
    ensures { Exchanged (slots_call pile.old a b) pile.old work.old result pile.new work.new }
{
    let a_end = a + parts::PART;
    let b_end = b + parts::PART;
    if records::over_record(&pile[a..a_end]) {
        return Err(Refusal::OverCount);
    }
    if records::over_record(&pile[b..b_end]) {
        return Err(Refusal::OverCount);
    }
    match make_both(&pile[a..a_end], &pile[b..b_end], work) {
        Ok(()) => {
            store_both(work, pile, a, b);
            cells::clear(work, parts::WORK);
            Ok(())
        }
        Err(why) => {
            cells::clear(work, parts::WORK);
            Err(why)
        }
    }
}

// The records at two different places of a pile are replaced by their union, at the first, and their intersection, at the second.
pub fn exchange(pile: &mut [i32], first: i32, second: i32, work: &mut [i32]) -> Result<(), Refusal>
    ensures { Exchanged (exchange_call pile.old first second (length work.old)) pile.old work.old result pile.new work.new }
{
    if work.len() < parts::WORK {
        return Err(Refusal::ShortBuffer);
    }
    let Some((a, b)) = two_slots(first, second, pile.len()) else {
        cells::clear(work, parts::WORK);
        return Err(Refusal::WrongArgument);
    };
    exchange_slots(pile, a, b, work)
}

// The exchanges of a list of places are made one after the other, two numbers for each, a refused one not; answers how many were made.
pub fn exchange_all(pile: &mut [i32], pairs: &[i32], work: &mut [i32]) -> Result<usize, Refusal>
    ensures { AllExchanged (exchange_all_call pile.old pairs.now (length work.old)) pile.old work.old result pile.new work.new }
{
    if work.len() < parts::WORK {
        return Err(Refusal::ShortBuffer);
    }
    let (places, odd) = pairs.as_chunks::<2>();
    if !odd.is_empty() {
        cells::clear(work, parts::WORK);
        return Err(Refusal::WrongArgument);
    }
    let mut made = 0;
    for [first, second] in places {
        if let Ok(()) = exchange(pile, *first, *second, work) {
            made += 1;
        }
    }
    cells::clear(work, parts::WORK);
    Ok(made)
}

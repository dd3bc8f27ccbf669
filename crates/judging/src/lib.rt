// What is judged of arguments that several calls take. A call judges 1 and 2 first, which leave both buffers as they are, then its other
// reasons one by one, after which the working buffer is cleared.
#![tactic(auto)]

ghost use Rattle.std.specs.Prelude.{◌≡◌, ◌||◌};
ghost use Rattle.rules.specs.Arguments.{over_rank};
ghost use Rattle.judging.specs.LentSizes.{SizesAre};
ghost use Rattle.judging.specs.Judging.{ShapeIs, PairIs, RangeIs, ModeIs};

use rules::{Head, Mode, Refusal};

// Whether one of two tests holds.
pub fn either(a: bool, b: bool) -> bool
    ensures { result ≡ a || b }
{
    if a {
        return true;
    }
    b
}

// Whether an asked rank is over 4.
pub fn over_rank(rank: i32) -> bool
    ensures { result ≡ over_rank rank }
{
    match cells::sign_of(rank) {
        Some(axes) => rules::RANK_LIMIT < axes,
        None => false,
    }
}

// Whether a count is over its limit is told; it, a result of so many numbers and a working buffer of so many are judged with 1 and 2:
// Ok if no count is over and both are long enough.
pub fn judge_sizes(over: bool, res: usize, work: usize) -> Result<(), Refusal>
    ensures { SizesAre over res work result }
{
    if over {
        return Err(Refusal::OverCount);
    }
    if res < parts::PART {
        return Err(Refusal::ShortBuffer);
    }
    if work < parts::WORK {
        return Err(Refusal::ShortBuffer);
    }
    Ok(())
}

// A shape and a result with room for so many numbers, judged with 1, 2 and 5: Ok if the shape is good and the result long enough.
pub fn judge_shape(shape: &[i32], room: usize) -> Result<(), Refusal>
    ensures { ShapeIs shape.now room result }
{
    if shapes::over_shape(shape) {
        return Err(Refusal::OverCount);
    }
    if room < parts::PART {
        return Err(Refusal::ShortBuffer);
    }
    if !shapes::good_shape(shape) {
        return Err(Refusal::WrongArgument);
    }
    Ok(())
}

// The heads of two records, judged with 1 and 3.
pub fn judge_pair(a: &[i32], b: &[i32]) -> Result<(Head, Head), Refusal>
    ensures { PairIs a.now b.now result }
{
    if records::over_record(a) {
        return Err(Refusal::OverCount);
    }
    if records::over_record(b) {
        return Err(Refusal::OverCount);
    }
    let first = records::sound_head(a).ok_or(Refusal::Unsound)?;
    let second = records::sound_head(b).ok_or(Refusal::Unsound)?;
    Ok((first, second))
}

// The start and the end of a range, if each is from 0 to 65,536.
pub fn judge_range(start: i32, end: i32) -> Option<(usize, usize)>
    ensures { RangeIs start end result }
{
    let from = cells::sign_of(start)?;
    let to = cells::sign_of(end)?;
    if rules::PRODUCT_LIMIT < from {
        return None;
    }
    if rules::PRODUCT_LIMIT < to {
        return None;
    }
    Some((from, to))
}

// The mode of stretching that a number names: 0 and 1 name one.
pub fn judge_mode(mode: i32) -> Option<Mode>
    ensures { ModeIs mode result }
{
    let number = cells::sign_of(mode)?;
    match number {
        0 => Some(Mode::Alone),
        1 => Some(Mode::Together),
        _ => None,
    }
}

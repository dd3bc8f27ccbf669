// The public functions that stretch a layout to a shape or a rank, module 6: the step reads the record where it lies. The functions of the
// Rust's names stretch in mode 0, in which each stretched axis takes its values alone; beside each stands one with a mode.
#![tactic(auto)]

ghost use Rattle.std.specs.Prelude.{length};
ghost use Rattle.rules.specs.Refusals.{in_form};
ghost use Rattle.rules.specs.Layout.{encode};
ghost use Rattle.rules.specs.Endings.{Ends};
ghost use Rattle.rules.specs.Stretching.{broadcast_to_shape_call, broadcast_to_rank_call, broadcast_to_shape_with_mode_call, broadcast_to_rank_with_mode_call};

use rules::Refusal;

// The record stretched to a shape in a mode, 0 or 1, goes to the result.
pub fn broadcast_to_shape_with_mode(
    record: &[i32],
    shape: &[i32],
    mode: i32,
    res: &mut [i32],
    work: &mut [i32],
) -> Result<usize, Refusal>
    ensures { Ends (in_form encode (broadcast_to_shape_with_mode_call «record».now shape.now mode (length res.old) (length work.old))) res.old work.old result res.new work.new }
{
    let over = judging::either(records::over_record(record), shapes::over_shape(shape));
    judging::judge_sizes(over, res.len(), work.len())?;
    let Some(head) = records::sound_head(record) else {
        return parts::refuse(Refusal::Unsound, work);
    };
    if !shapes::good_shape(shape) {
        return parts::refuse(Refusal::WrongArgument, work);
    }
    let Some(way) = judging::judge_mode(mode) else {
        return parts::refuse(Refusal::WrongArgument, work);
    };
    let rank = shapes::rank(shape);
    let step = stretch::stretch_into(way, record, head, shape, 1, rank, &mut work[0..parts::PART]);
    parts::finish(step, work, 0, res)
}

// The record stretched to a shape goes to the result.
pub fn broadcast_to_shape(
    record: &[i32],
    shape: &[i32],
    res: &mut [i32],
    work: &mut [i32],
) -> Result<usize, Refusal>
    ensures { Ends (in_form encode (broadcast_to_shape_call «record».now shape.now (length res.old) (length work.old))) res.old work.old result res.new work.new }
{
    broadcast_to_shape_with_mode(record, shape, 0, res, work)
}

// The record stretched in a mode, 0 or 1, to a rank, or cut to it where the axes behind it are 1, goes to the result.
pub fn broadcast_to_rank_with_mode(
    record: &[i32],
    rank: i32,
    mode: i32,
    res: &mut [i32],
    work: &mut [i32],
) -> Result<usize, Refusal>
    ensures { Ends (in_form encode (broadcast_to_rank_with_mode_call «record».now rank mode (length res.old) (length work.old))) res.old work.old result res.new work.new }
{
    let over = judging::either(records::over_record(record), judging::over_rank(rank));
    judging::judge_sizes(over, res.len(), work.len())?;
    let Some(head) = records::sound_head(record) else {
        return parts::refuse(Refusal::Unsound, work);
    };
    let Some(axes) = cells::sign_of(rank) else {
        return parts::refuse(Refusal::WrongArgument, work);
    };
    let Some(way) = judging::judge_mode(mode) else {
        return parts::refuse(Refusal::WrongArgument, work);
    };
    let step = stretch::stretch_to_rank(way, record, head, axes, &mut work[0..parts::PART]);
    parts::finish(step, work, 0, res)
}

// The record stretched to a rank, or cut to it where the axes behind it are 1, goes to the result.
pub fn broadcast_to_rank(
    record: &[i32],
    rank: i32,
    res: &mut [i32],
    work: &mut [i32],
) -> Result<usize, Refusal>
    ensures { Ends (in_form encode (broadcast_to_rank_call «record».now rank (length res.old) (length work.old))) res.old work.old result res.new work.new }
{
    broadcast_to_rank_with_mode(record, rank, 0, res, work)
}

// Module 12, `broadcast`: layouts stretched to their common shape and folded by an operator.
ghost use Rattle.std.specs.Prelude.{◌≡◌, length};
ghost use Rattle.rules.specs.Refusals.{in_form};
ghost use Rattle.rules.specs.Layout.{encode};
ghost use Rattle.rules.specs.Endings.{Ends};
ghost use Rattle.rules.specs.Broadcast.{rule_of, broadcast_call, broadcast_with_mode_call};

use lists::Thing;
use rules::{Refusal, Rule};

// What an operator byte asks: 47 divides, 42 multiplies, every other one unites.
fn rule_of(operator: u8) -> Rule
    ensures { result ≡ rule_of operator }
{
    match operator {
        47 => Rule::Divide,
        42 => Rule::Multiply,
        0..=41 | 43..=46 | 48..=255 => Rule::Unite,
    }
}

// As many records as `count` says, end to end, are stretched in a mode, 0 or 1, to their common shape and folded by an operator; what comes
// out goes to the result.
pub fn broadcast_with_mode(
    layouts: &[i32],
    count: i32,
    operator: u8,
    mode: i32,
    res: &mut [i32],
    work: &mut [i32],
) -> Result<usize, Refusal>
    ensures { Ends (in_form encode (broadcast_with_mode_call layouts.now count operator mode (length res.old) (length work.old))) res.old work.old result res.new work.new }
{
    let n = shapes::list_count(count);
    let places = lists::places_of(Thing::Record, layouts, n);
    let over = judging::either(
        shapes::over_count(count),
        lists::over_axes(layouts, &places),
    );
    judging::judge_sizes(over, res.len(), work.len())?;
    if !lists::all_sound(layouts, &places) {
        return parts::refuse(Refusal::Unsound, work);
    }
    let Some(way) = judging::judge_mode(mode) else {
        return parts::refuse(Refusal::WrongArgument, work);
    };
    let rule = rule_of(operator);
    let step = fold::broadcast_in(way, layouts, &places, rule, &mut work[0..parts::WINDOW]);
    parts::finish(step, work, parts::LEFT, res)
}

// As many records as `count` says, end to end, are stretched to their common shape, each axis alone, and folded by an operator; what comes
// out goes to the result.
pub fn broadcast(
    layouts: &[i32],
    count: i32,
    operator: u8,
    res: &mut [i32],
    work: &mut [i32],
) -> Result<usize, Refusal>
    ensures { Ends (in_form encode (broadcast_call layouts.now count operator (length res.old) (length work.old))) res.old work.old result res.new work.new }
{
    broadcast_with_mode(layouts, count, operator, 0, res, work)
}

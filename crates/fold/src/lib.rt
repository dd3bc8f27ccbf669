// Sound records of a list stretched to their common shape and folded from the last, in a window of parts.
#![tactic(auto)]

mod agreeing; // agreeing.rt: the common shape of records
mod stretching; // stretching.rt: records stretched to it, judged first and brought into a part later
mod folding; // folding.rt: one fold after the other
mod ending; // ending.rt: what a folded layout becomes

ghost use Rattle.std.specs.Prelude.{◌<◌, ◌≤◌, length};
ghost use Rattle.rules.specs.Broadcast.{broadcast};
ghost use Rattle.parts.specs.Parts.{left, window_size};
ghost use Rattle.parts.specs.Answers.{Says};
ghost use Rattle.lists.specs.Places.{EachAt};
ghost use Rattle.lists.specs.Records.{JudgedRecord, layouts_at};
ghost use Rattle.fold.specs.Stretched.{extents_of, AllAsked};
ghost use Rattle.fold.specs.Folded.{broadcast_to};

use agreeing::{Shape, as_shape, common_shape};
use ending::end;
use folding::fold_all;
use lists::Places;
use parts::{LEFT, RIGHT};
use rules::{Mode, Refusal, Rule};
use stretching::judge_all;

// The records are stretched in a mode to a shape, folded and ended; the layout that comes out stands in the left part.
fn stretch_and_fold(
    mode: Mode,
    layouts: &[i32],
    places: &Places,
    shape: Shape,
    rule: Rule,
    window: &mut [i32],
) -> Result<(), Refusal>
    requires all_asked { AllAsked shape places.now.count places.now.at layouts.now × (0 < places.now.count) }
    requires window_size_in_bounds { window_size ≤ length window.old }
    ensures { Says (broadcast_to mode (extents_of shape) (layouts_at places.now.count places.now.at layouts.now) rule) left window.new result }
{
    judge_all(mode, layouts, places, shape, &mut window[LEFT..RIGHT])?;
    fold_all(mode, layouts, places, shape, rule, window)?;
    end(&mut window[LEFT..RIGHT])
}

// The records of a list are broadcast in a mode: the layout that comes out stands in the left part.
pub fn broadcast_in(
    mode: Mode,
    layouts: &[i32],
    places: &Places,
    rule: Rule,
    window: &mut [i32],
) -> Result<(), Refusal>
    requires each_at { EachAt JudgedRecord places.now.count places.now.at layouts.now }
    requires window_size_in_bounds { window_size ≤ length window.old }
    ensures { Says (broadcast mode (layouts_at places.now.count places.now.at layouts.now) rule) left window.new result }
{
    let common = common_shape(layouts, places)?;
    let shape = as_shape(common.count, common.numbers);
    stretch_and_fold(mode, layouts, places, shape, rule, window)
}

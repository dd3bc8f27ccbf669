// Records stretched in a mode to a shape: all are judged in list order, and later each is brought into a part when its turn comes. Each was judged sound
// before, so that it can be walked.
ghost use Rattle.std.specs.Prelude.{◌≡◌, ◌&&◌, ◌≤◌, length};
ghost use Rattle.rules.specs.Lists.{same};
ghost use Rattle.rules.specs.Record.{layout_in, ordered};
ghost use Rattle.rules.specs.Broadcast.{stretch_all};
ghost use Rattle.records.specs.Sound.{SoundRecord};
ghost use Rattle.parts.specs.Parts.{part_size};
ghost use Rattle.lists.specs.Records.{layouts_at};
ghost use Rattle.fold.specs.Stretched.{extents_of, ShapeFits, StretchAsked, BringAsked, AllAsked, Brought, stretched_to, stretching, told, whether};

use super::agreeing::Shape;
use lists::Places;
use rules::{Head, Mode, Refusal};

// Whether a record has the shape already.
#[tactic(auto, using(crate::proofs::Bringing::shape_laws))]
fn has_shape(from: &[i32], head: Head, shape: Shape) -> bool
    requires { SoundRecord head from.now × ShapeFits shape }
    ensures { result ≡ same (layout_in from.now).shape (extents_of shape) }
{
    head.rank == shape.rank
        && tables::same_numbers(from, records::EXTENTS, &shape.extents, 0, shape.rank)
}

// Whether the record may be stretched to the shape; one that has it already may, and nothing is done for it.
fn judge(mode: Mode, from: &[i32], shape: Shape, part: &mut [i32]) -> Result<(), Refusal>
    requires stretch_asked { StretchAsked shape from.now }
    requires part_size_in_bounds { part_size ≤ length part.old }
    ensures { told result ≡ whether (stretching mode shape from.now) }
{
    let head = records::walk_record(from).ok_or(Refusal::Unsound)?;
    if has_shape(from, head, shape) {
        return Ok(());
    }
    stretch::stretch_into(mode, from, head, &shape.extents, 0, shape.rank, part)
}

// Whether each of the records may be stretched to the shape, in list order: the first that may not says why.
pub fn judge_all(
    mode: Mode,
    layouts: &[i32],
    places: &Places,
    shape: Shape,
    part: &mut [i32],
) -> Result<(), Refusal>
    requires all_asked { AllAsked shape places.now.count places.now.at layouts.now }
    requires part_size_in_bounds { part_size ≤ length part.old }
    ensures { told result ≡ whether (stretch_all mode (extents_of shape) (layouts_at places.now.count places.now.at layouts.now)) }
{
    for i in 0..places.count {
        let at = places.at[i];
        judge(mode, &layouts[at..], shape, part)?;
    }
    Ok(())
}

// Whether a record has the shape already and its rows are in order, so that stretching changes nothing.
fn is_unchanged(from: &[i32], head: Head, shape: Shape) -> bool
    requires { SoundRecord head from.now × ShapeFits shape }
    ensures { result ≡ (same (layout_in from.now).shape (extents_of shape) && ordered from.now) }
{
    has_shape(from, head, shape) && records::rows_ordered(from, head)
}

// A record that may be stretched to the shape goes into the part, stretched. That it may was judged before, so that the step is done.
pub fn bring(mode: Mode, from: &[i32], shape: Shape, part: &mut [i32])
    requires bring_asked { BringAsked mode shape from.now }
    requires part_size_in_bounds { part_size ≤ length part.old }
    ensures { Brought (stretched_to mode shape from.now) part.new }
{
    let Some(head) = records::walk_record(from) else {
        return;
    };
    if is_unchanged(from, head, shape) {
        parts::load(from, head, part);
        return;
    }
    let _ = stretch::stretch_into(mode, from, head, &shape.extents, 0, shape.rank, part);
}

// The public functions that make one layout of two. Modules 8 and 9: both records are loaded into the window, and a step combines them there;
// module 14: the step reads both where they lie, and makes the new layout in the first part of the working buffer.
#![tactic(auto)]

mod filter; // filter.rt: module 14

ghost use Rattle.std.specs.Prelude.{◌≡◌, ◌&&◌, length};
ghost use Rattle.rules.specs.Refusals.{in_form};
ghost use Rattle.rules.specs.Layout.{encode};
ghost use Rattle.rules.specs.Endings.{Ends};
ghost use Rattle.rules.specs.Union.{union_call};
ghost use Rattle.rules.specs.Intersect.{intersect_call};

pub use filter::filter_deps_from;
use rules::Refusal;

// Whether both of two tests hold.
fn both(a: bool, b: bool) -> bool
    ensures { result ≡ (a && b) }
{
    if a {
        return b;
    }
    false
}

// The union of two records goes to the result.
pub fn union(
    left: &[i32],
    right: &[i32],
    res: &mut [i32],
    work: &mut [i32],
) -> Result<usize, Refusal>
    ensures { Ends (in_form encode (union_call left.now right.now (length res.old) (length work.old))) res.old work.old result res.new work.new }
{
    let over = judging::either(records::over_record(left), records::over_record(right));
    judging::judge_sizes(over, res.len(), work.len())?;
    let Some((first, left_ordered)) = records::judged(left) else {
        return parts::refuse(Refusal::Unsound, work);
    };
    let Some((second, right_ordered)) = records::judged(right) else {
        return parts::refuse(Refusal::Unsound, work);
    };
    let rising = both(left_ordered, right_ordered);
    parts::load_pair(left, first, right, second, &mut work[0..parts::WINDOW]);
    let step = combine::union_in(&mut work[0..parts::WINDOW], rising);
    parts::finish(step, work, parts::TARGET, res)
}

// The intersection of two ordered records goes to the result.
pub fn intersect(
    left: &[i32],
    right: &[i32],
    res: &mut [i32],
    work: &mut [i32],
) -> Result<usize, Refusal>
    ensures { Ends (in_form encode (intersect_call left.now right.now (length res.old) (length work.old))) res.old work.old result res.new work.new }
{
    let wide = judging::either(records::over_record(left), records::over_record(right));
    judging::judge_sizes(wide, res.len(), work.len())?;
    let Some((first, left_ordered)) = records::judged(left) else {
        return parts::refuse(Refusal::Unsound, work);
    };
    let Some((second, right_ordered)) = records::judged(right) else {
        return parts::refuse(Refusal::Unsound, work);
    };
    if !both(left_ordered, right_ordered) {
        return parts::refuse(Refusal::Unordered, work);
    }
    parts::load_pair(left, first, right, second, &mut work[0..parts::WINDOW]);
    let step = intersecting::intersect_in(&mut work[0..parts::WINDOW]);
    parts::finish(step, work, parts::TARGET, res)
}

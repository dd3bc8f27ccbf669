// The dependencies of a range of one record, for another.
ghost use Rattle.std.specs.Prelude.{length};
ghost use Rattle.rules.specs.Refusals.{in_form};
ghost use Rattle.rules.specs.Layout.{encode};
ghost use Rattle.rules.specs.Endings.{Ends};
ghost use Rattle.rules.specs.FilterDepsFrom.{filter_deps_from_call};

use rules::Refusal;

// The target with the dependencies of a range of the source goes to the result.
pub fn filter_deps_from(
    target: &[i32],
    source: &[i32],
    start: i32,
    end: i32,
    res: &mut [i32],
    work: &mut [i32],
) -> Result<usize, Refusal>
    ensures { Ends (in_form encode (filter_deps_from_call target.now source.now start end (length res.old) (length work.old))) res.old work.old result res.new work.new }
{
    let over = judging::either(records::over_record(target), records::over_record(source));
    judging::judge_sizes(over, res.len(), work.len())?;
    let Some(head) = records::sound_head(target) else {
        return parts::refuse(Refusal::Unsound, work);
    };
    let Some(other) = records::sound_head(source) else {
        return parts::refuse(Refusal::Unsound, work);
    };
    let Some((from, to)) = judging::judge_range(start, end) else {
        return parts::refuse(Refusal::WrongArgument, work);
    };
    let step = range::filter_into(
        target,
        head,
        source,
        other,
        from,
        to,
        &mut work[0..parts::PART],
    );
    parts::finish(step, work, 0, res)
}

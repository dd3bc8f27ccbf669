// The public functions that make one layout of another by cutting or moving its axes, modules 10 and 11: the record is read where it
// lies, and a step makes the new layout in the first part of the working buffer.
#![tactic(auto)]

ghost use Rattle.std.specs.Prelude.{length};
ghost use Rattle.rules.specs.Refusals.{in_form};
ghost use Rattle.rules.specs.Layout.{encode};
ghost use Rattle.rules.specs.Endings.{Ends};
ghost use Rattle.rules.specs.ContractLastAxis.{contract_last_axis_call};
ghost use Rattle.rules.specs.Permute.{permute_call};

use rules::Refusal;

// The layout of a record, summed over its last axis, goes to the result.
pub fn contract_last_axis(
    record: &[i32],
    res: &mut [i32],
    work: &mut [i32],
) -> Result<usize, Refusal>
    ensures { Ends (in_form encode (contract_last_axis_call «record».now (length res.old) (length work.old))) res.old work.old result res.new work.new }
{
    let over = records::over_record(record);
    judging::judge_sizes(over, res.len(), work.len())?;
    let Some(head) = records::sound_head(record) else {
        return parts::refuse(Refusal::Unsound, work);
    };
    let step = reshape::contract_into(record, head, &mut work[0..parts::PART]);
    parts::finish(step, work, 0, res)
}

// The layout of a record with its axes moved by a permutation goes to the result.
pub fn permute(
    record: &[i32],
    permutation: &[i32],
    res: &mut [i32],
    work: &mut [i32],
) -> Result<usize, Refusal>
    ensures { Ends (in_form encode (permute_call «record».now permutation.now (length res.old) (length work.old))) res.old work.old result res.new work.new }
{
    let over = records::over_record(record);
    judging::judge_sizes(over, res.len(), work.len())?;
    let Some(head) = records::sound_head(record) else {
        return parts::refuse(Refusal::Unsound, work);
    };
    let step = reshape::permute_into(record, head, permutation, &mut work[0..parts::PART]);
    parts::finish(step, work, 0, res)
}

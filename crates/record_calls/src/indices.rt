// Module 4, lookup: the places of many indices.
ghost use Rattle.std.specs.Prelude.{length};
ghost use Rattle.rules.specs.Endings.{EndsIn};
ghost use Rattle.rules.specs.Lookup.{find_nnz_indices_call};

use rules::Refusal;

// Where a record has each of so many indices, end to end: a number for each, its place or -1. The record is judged once.
pub fn find_nnz_indices(
    record: &[i32],
    count: i32,
    indices: &[i32],
    res: &mut [i32],
) -> Result<usize, Refusal>
    ensures { EndsIn (find_nnz_indices_call «record».now count indices.now (length res.old)) res.old result res.new }
{
    if records::over_record(record) {
        return Err(Refusal::OverCount);
    }
    if res.len() < rules::RESULT_SIZE {
        return Err(Refusal::ShortBuffer);
    }
    let (head, ordered) = records::judged(record).ok_or(Refusal::Unsound)?;
    if !ordered {
        return Err(Refusal::Unordered);
    }
    let n = cells::sign_of(count).ok_or(Refusal::WrongArgument)?;
    if !shapes::good_indices(indices, n, head.rank) {
        return Err(Refusal::WrongArgument);
    }
    lookups::find_all(record, head, n, indices, res);
    Ok(n)
}

// Module 4, lookup: the place of an index.
ghost use Rattle.std.specs.Prelude.{◌≡◌};
ghost use Rattle.rules.specs.Endings.{place_says};
ghost use Rattle.rules.specs.Lookup.{find_nnz_index_call};

use rules::Refusal;

// Where a record has an index.
pub fn find_nnz_index(record: &[i32], index: &[i32]) -> Result<Option<usize>, Refusal>
    ensures { place_says result ≡ find_nnz_index_call «record».now index.now }
{
    if records::over_record(record) {
        return Err(Refusal::OverCount);
    }
    let (head, ordered) = records::judged(record).ok_or(Refusal::Unsound)?;
    if !ordered {
        return Err(Refusal::Unordered);
    }
    if !shapes::good_index(index, head.rank) {
        return Err(Refusal::WrongArgument);
    }
    Ok(lookups::find(record, head, index))
}

// Module 5, counts: how many positions, how many axes, equality.
ghost use Rattle.std.specs.Prelude.{◌≡◌};
ghost use Rattle.rules.specs.Refusals.{given};
ghost use Rattle.rules.specs.Endings.{says};
ghost use Rattle.rules.specs.CountsAndForms.{nnz_call, min_rank_call, eq_nonzeros_call, eq_nonzeros_and_deps_call};

use judging::judge_pair;
use rules::Refusal;

// How many positions a record stores.
pub fn nnz(record: &[i32]) -> Result<usize, Refusal>
    ensures { says result ≡ nnz_call «record».now }
{
    if records::over_record(record) {
        return Err(Refusal::OverCount);
    }
    let head = records::sound_head(record).ok_or(Refusal::Unsound)?;
    Ok(lookups::nnz(record, head))
}

// How many axes a record has without those of extent 1 at the end.
pub fn min_rank(record: &[i32]) -> Result<usize, Refusal>
    ensures { says result ≡ min_rank_call «record».now }
{
    if records::over_record(record) {
        return Err(Refusal::OverCount);
    }
    let _ = records::sound_head(record).ok_or(Refusal::Unsound)?;
    Ok(lookups::min_rank(&record[records::RANK..]))
}

// Whether two records have the same kind, dense axes, shape and rows.
pub fn eq_nonzeros(a: &[i32], b: &[i32]) -> Result<bool, Refusal>
    ensures { says result ≡ eq_nonzeros_call a.now b.now }
{
    let (x, y) = judge_pair(a, b)?;
    Ok(forms::eq_nonzeros(a, x, b, y))
}

// Whether two records have the same dependencies too.
pub fn eq_nonzeros_and_deps(a: &[i32], b: &[i32]) -> Result<bool, Refusal>
    ensures { says result ≡ eq_nonzeros_and_deps_call a.now b.now }
{
    let (x, y) = judge_pair(a, b)?;
    Ok(forms::eq_nonzeros_and_deps(a, x, b, y))
}

// The public functions that write a record of another form or of a shape, module 5.
#![tactic(auto)]

ghost use Rattle.std.specs.Prelude.{◌≡◌, length};
ghost use Rattle.rules.specs.Layout.{encode};
ghost use Rattle.rules.specs.Refusals.{in_form};
ghost use Rattle.rules.specs.Endings.{EndsIn};
ghost use Rattle.rules.specs.CountsAndForms.{to_dense_call, to_data_layout_call, new_empty_call, new_scalar_call, dense_call, diagonal_call, sparse_call};

use judging::judge_shape;
use rules::Refusal;

// The dense record of the same shape and dependencies.
pub fn to_dense(record: &[i32], res: &mut [i32]) -> Result<usize, Refusal>
    ensures { EndsIn (in_form encode (to_dense_call «record».now (length res.old))) res.old result res.new }
{
    if records::over_record(record) {
        return Err(Refusal::OverCount);
    }
    if res.len() < parts::PART {
        return Err(Refusal::ShortBuffer);
    }
    let head = records::sound_head(record).ok_or(Refusal::Unsound)?;
    forms::to_dense(record, head, res)
}

// The numbers of a sparse record's rows.
pub fn to_data_layout(record: &[i32], res: &mut [i32]) -> Result<usize, Refusal>
    ensures { EndsIn (to_data_layout_call «record».now (length res.old)) res.old result res.new }
{
    if records::over_record(record) {
        return Err(Refusal::OverCount);
    }
    if res.len() < parts::PART {
        return Err(Refusal::ShortBuffer);
    }
    let head = records::sound_head(record).ok_or(Refusal::Unsound)?;
    forms::to_data_layout(record, head, res)
}

// The dense record of a rank whose extents are all 0.
pub fn new_empty(rank: i32, res: &mut [i32]) -> Result<usize, Refusal>
    ensures { EndsIn (in_form encode (new_empty_call rank (length res.old))) res.old result res.new }
{
    if judging::over_rank(rank) {
        return Err(Refusal::OverCount);
    }
    if res.len() < parts::PART {
        return Err(Refusal::ShortBuffer);
    }
    let axes = cells::sign_of(rank).ok_or(Refusal::WrongArgument)?;
    forms::new_empty(axes, res)
}

// The dense record without axes.
pub fn new_scalar(res: &mut [i32]) -> Result<usize, Refusal>
    ensures { EndsIn (in_form encode (new_scalar_call (length res.old))) res.old result res.new }
{
    if res.len() < parts::PART {
        return Err(Refusal::ShortBuffer);
    }
    forms::new_scalar(res)
}

// The dense record of a shape.
pub fn dense(shape: &[i32], res: &mut [i32]) -> Result<usize, Refusal>
    ensures { EndsIn (in_form encode (dense_call shape.now (length res.old))) res.old result res.new }
{
    judge_shape(shape, res.len())?;
    forms::dense(shape, res)
}

// The diagonal record of a shape, whose extents must be the same.
pub fn diagonal(shape: &[i32], res: &mut [i32]) -> Result<usize, Refusal>
    ensures { EndsIn (in_form encode (diagonal_call shape.now (length res.old))) res.old result res.new }
{
    judge_shape(shape, res.len())?;
    forms::diagonal(shape, res)
}

// The sparse record of a shape and so many rows, as they come.
pub fn sparse(shape: &[i32], count: i32, numbers: &[i32], res: &mut [i32]) -> Result<usize, Refusal>
    ensures { EndsIn (in_form encode (sparse_call shape.now count numbers.now (length res.old))) res.old result res.new }
{
    judge_shape(shape, res.len())?;
    let n = cells::sign_of(count).ok_or(Refusal::WrongArgument)?;
    if numbers.len() != n * shapes::rank(shape) {
        return Err(Refusal::WrongArgument);
    }
    forms::sparse(shape, n, numbers, res)
}

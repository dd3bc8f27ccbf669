// Rows that become a sparse record: judged, then written.
ghost use Rattle.std.specs.Prelude.{◌≡◌, ◌&&◌, ◌*◌, ◌≤◌, length};
ghost use Rattle.std.specs.Int.Signed.{non_neg};
ghost use Rattle.rules.specs.Lists.{all};
ghost use Rattle.rules.specs.Limits.{result_size};
ghost use Rattle.rules.specs.Layout.{encode, well_formed};
ghost use Rattle.rules.specs.Record.{shape_in};
ghost use Rattle.rules.specs.Refusals.{in_form};
ghost use Rattle.rules.specs.Endings.{EndsIn};
ghost use Rattle.rules.specs.CountsAndForms.{sparse};
ghost use Rattle.shapes.specs.Judged.{Judged};
ghost use Rattle.forms.specs.Pieces.{sparse_of};

use super::writing::write_record;
use rules::Refusal;

// Whether the numbers are n rows of a sparse layout: natural, inside the shape and all different. Without axes all rows are the same.
#[tactic(auto, using(crate::proofs::Fitting::fits))]
fn rows_fit(shape: &[i32], n: usize, numbers: &[i32]) -> bool
    requires judged { Judged shape.now }
    requires numbers_len { length numbers.now ≡ n * length (shape_in shape.now) }
    ensures { result ≡ (all non_neg numbers.now && well_formed (sparse_of (shape_in shape.now) n numbers.now)) }
{
    let w = shapes::rank(shape);
    if w == 0 {
        return n <= 1;
    }
    if !records::all_natural(numbers, numbers.len()) {
        return false;
    }
    if !axes::rows_below(numbers, 0, n, shape, 1, w) {
        return false;
    }
    axes::all_differ(numbers, 0, n, shape, 1, w)
}

// The sparse record of a shape and n rows is written, if they fit and are not too many.
pub fn sparse(shape: &[i32], n: usize, numbers: &[i32], res: &mut [i32]) -> Result<usize, Refusal>
    requires judged { Judged shape.now }
    requires numbers_len { length numbers.now ≡ n * length (shape_in shape.now) }
    requires result_size_in_bounds { result_size ≤ length res.old }
    ensures { EndsIn (in_form encode (sparse (shape_in shape.now) n numbers.now)) res.old result res.new }
{
    if !rows_fit(shape, n, numbers) {
        return Err(Refusal::MadeUnsound);
    }
    if rules::ENTRY_LIMIT < n {
        return Err(Refusal::MadeTooLarge);
    }
    let none = [0i32; 2];
    let end = 1 + shapes::rank(shape);
    write_record(res, 2, 0, &shape[1..end], n, numbers, &none)
}

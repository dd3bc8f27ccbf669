// Whether two sound records are the same.
ghost use Rattle.std.specs.Prelude.{◌≡◌, ◌≤◌, length, take};
ghost use Rattle.rules.specs.Lists.{same};
ghost use Rattle.rules.specs.Record.{layout_in};
ghost use Rattle.rules.specs.CountsAndForms.{eq_nonzeros, eq_nonzeros_and_deps};
ghost use Rattle.cells.specs.View.{view};
ghost use Rattle.records.specs.Sound.{SoundRecord};

use rules::Head;

// Whether the first m numbers of a are the first n of b.
#[tactic(auto, using(crate::proofs::Matching::fronts))]
fn same_front(a: &[i32], m: usize, b: &[i32], n: usize) -> bool
    requires { (m ≤ length a.now) × (n ≤ length b.now) }
    ensures { result ≡ same (take m (view a.now)) (take n (view b.now)) }
{
    m == n && tables::same_numbers(a, 0, b, 0, n)
}

// Whether kind, dense axes, shape and rows are the same: each count stands before what it counts, so the numbers decide.
pub fn eq_nonzeros(a: &[i32], x: Head, b: &[i32], y: Head) -> bool
    requires sound_record { SoundRecord x a.now }
    requires sound_record_2 { SoundRecord y b.now }
    ensures { result ≡ eq_nonzeros (layout_in a.now) (layout_in b.now) }
{
    same_front(a, x.rows.next, b, y.rows.next)
}

// Whether the dependencies are the same too.
pub fn eq_nonzeros_and_deps(a: &[i32], x: Head, b: &[i32], y: Head) -> bool
    requires sound_record { SoundRecord x a.now }
    requires sound_record_2 { SoundRecord y b.now }
    ensures { result ≡ eq_nonzeros_and_deps (layout_in a.now) (layout_in b.now) }
{
    same_front(a, x.inputs.next, b, y.inputs.next)
}

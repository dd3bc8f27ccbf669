// How many positions and axes a record has.
ghost use Rattle.std.specs.Prelude.{◌≡◌};
ghost use Rattle.rules.specs.Record.{shape_in, layout_in};
ghost use Rattle.rules.specs.CountsAndForms.{nnz, min_rank_of};
ghost use Rattle.records.specs.Sound.{SoundRecord};
ghost use Rattle.shapes.specs.Judged.{Judged};

use rules::{Head, Kind};

// How many positions a record stores: the product of the extents if it is dense, the first one if it is diagonal, else the rows.
#[tactic(auto, using(crate::proofs::SoundRecords::lent, crate::proofs::Counting::laws, rules::proofs::KindRead::kind_laws))]
pub fn nnz(s: &[i32], head: Head) -> usize
    requires { SoundRecord head s.now }
    ensures { result ≡ nnz (layout_in s.now) }
{
    match records::kind_at(s, records::KIND) {
        Kind::Dense => axes::product(s, records::EXTENTS, head.rank),
        Kind::Diagonal => shapes::extent(&s[records::RANK..], 0),
        Kind::Sparse => head.rows.count,
    }
}

// How many axes of a shape are left without the extents 1 at the end.
#[tactic(auto, using(crate::proofs::Trailing::laws))]
pub fn min_rank(shape: &[i32]) -> usize
    requires { Judged shape.now }
    ensures { result ≡ min_rank_of (shape_in shape.now) }
{
    for axis in (0..shapes::rank(shape)).rev() {
        if shapes::extent(shape, axis) != 1 {
            return axis + 1;
        }
    }
    0
}

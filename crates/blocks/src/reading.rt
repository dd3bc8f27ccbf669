// What the record of a block says.
ghost use Rattle.std.specs.Prelude.{◌≡◌, true, ◌≤◌, eqb, get_or};
ghost use Rattle.rules.specs.Limits.{rank_limit, product_limit};
ghost use Rattle.rules.specs.Lists.{all};
ghost use Rattle.rules.specs.Layout.{rank, kind_of};
ghost use Rattle.rules.specs.Record.{layout_in, sound};

use rules::Kind;

// The kind of the record at the front of a slice.
#[tactic(auto, using(crate::proofs::Told::reading_laws))]
pub fn kind(s: &[i32]) -> Kind
    requires { sound s.now ≡ true }
    ensures { result ≡ kind_of (layout_in s.now).kind }
{
    records::kind_at(s, records::KIND)
}

// How many dense axes it has.
pub fn dense_axes(s: &[i32]) -> usize
    requires { sound s.now ≡ true }
    ensures { (result ≡ (layout_in s.now).dense) × (result ≤ rank_limit) }
{
    shapes::natural_at(s, records::DENSE)
}

// How many axes it has.
pub fn rank(s: &[i32]) -> usize
    requires { sound s.now ≡ true }
    ensures { (result ≡ rank (layout_in s.now)) × (result ≤ rank_limit) }
{
    shapes::natural_at(s, records::RANK)
}

// The extent of an axis, or what a missing axis counts.
pub fn extent(s: &[i32], axis: usize, missing: usize) -> usize
    requires s_value { sound s.now ≡ true }
    requires missing_bound { missing ≤ 1 }
    ensures { (result ≡ get_or (layout_in s.now).shape axis missing) × (result ≤ product_limit) }
{
    if axis < rank(s) {
        return shapes::natural_at(s, axis + records::EXTENTS);
    }
    missing
}

// Whether every extent is 1.
pub fn all_ones(s: &[i32]) -> bool
    requires { sound s.now ≡ true }
    ensures { result ≡ all (eqb 1) (layout_in s.now).shape }
{
    let axes = rank(s);
    for axis in 0..axes {
        if extent(s, axis, 1) != 1 {
            return false;
        }
    }
    true
}

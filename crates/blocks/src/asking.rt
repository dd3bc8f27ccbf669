// What is asked of every block.
ghost use Rattle.std.specs.Prelude.{◌≡◌, true, ◌≤◌};
ghost use Rattle.rules.specs.Limits.{rank_limit};
ghost use Rattle.rules.specs.Lists.{all, keep};
ghost use Rattle.rules.specs.Record.{layout_in, sound};
ghost use Rattle.rules.specs.Concatenate.{first_d};
ghost use Rattle.lists.specs.Places.{EachAt};
ghost use Rattle.lists.specs.Records.{layouts_at};
ghost use Rattle.blocks.specs.Blocks.{SoundAt};
ghost use Rattle.blocks.specs.Asked.{asked, otherwise};

use super::reading::{all_ones, dense_axes, extent, kind, rank};
use lists::Places;
use rules::Kind;

// What is asked of a layout.
#[derive(Clone, Copy)]
pub enum Ask {
    // Whether its rank is at most the asked one.
    Within(usize),
    // Whether its rank is the asked one.
    OfRank(usize),
    // Whether it is dense.
    Dense,
    // Whether it is sparse.
    Sparse,
    // Whether it is diagonal or of extents 1.
    Diagonal,
    // Whether it is dense or has so many dense axes.
    DenseAxes(usize),
    // Whether the extent of an axis is 1 or the common one.
    Stretches(usize, usize),
    // Whether the extent of an axis is this one.
    Extent(usize, usize),
}

// Whether the layout of the record at the front of a slice passes.
#[tactic(auto, using(crate::proofs::Asks::asked_laws))]
fn passes(ask: Ask, s: &[i32]) -> bool
    requires { sound s.now ≡ true }
    ensures { result ≡ asked ask (layout_in s.now) }
{
    match ask {
        Ask::Within(r) => rank(s) <= r,
        Ask::OfRank(r) => rank(s) == r,
        Ask::Dense => matches!(kind(s), Kind::Dense),
        Ask::Sparse => matches!(kind(s), Kind::Sparse),
        Ask::Diagonal => {
            if matches!(kind(s), Kind::Diagonal) {
                return true;
            }
            all_ones(s)
        }
        Ask::DenseAxes(d) => {
            if matches!(kind(s), Kind::Dense) {
                return true;
            }
            dense_axes(s) == d
        }
        Ask::Stretches(axis, common) => {
            let e = extent(s, axis, 1);
            if e == 1 {
                return true;
            }
            e == common
        }
        Ask::Extent(axis, e) => extent(s, axis, 0) == e,
    }
}

// Whether the layouts of the records pass.
pub fn all_pass(ask: Ask, s: &[i32], records: &Places) -> bool
    requires { EachAt SoundAt records.now.count records.now.at s.now }
    ensures { result ≡ all (asked ask) (layouts_at records.now.count records.now.at s.now) }
{
    for i in 0..records.count {
        let at = records.at[i];
        if !passes(ask, &s[at..]) {
            return false;
        }
    }
    true
}

// The dense-axis count of the first of the layouts that is not dense, 0 if all are.
#[tactic(auto, using(crate::proofs::Asks::first_laws))]
pub fn first_d(s: &[i32], records: &Places) -> usize
    requires { EachAt SoundAt records.now.count records.now.at s.now }
    ensures { (result ≡ first_d (keep otherwise (layouts_at records.now.count records.now.at s.now))) × (result ≤ rank_limit) }
{
    for i in 0..records.count {
        let at = records.at[i];
        if !matches!(kind(&s[at..]), Kind::Dense) {
            return dense_axes(&s[at..]);
        }
    }
    0
}

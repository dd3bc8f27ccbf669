// What each thing of a list has to pass.
ghost use Rattle.std.specs.Prelude.{◌≡◌, ◌||◌, eqb};
ghost use Rattle.rules.specs.Lists.{all};
ghost use Rattle.rules.specs.Record.{block_at};
ghost use Rattle.rules.specs.Concatenate.{good_block};
ghost use Rattle.lists.specs.Places.{standing, EachAt};
ghost use Rattle.lists.specs.Asked.{asked, Askable};

use super::walking::Places;

// What is asked of the thing at the front of a slice.
#[derive(Clone, Copy)]
pub enum Ask {
    // Whether a count of extents that stands there is not over 4.
    FewAxes,
    // Whether the shape obeys the extent rules.
    GoodShape,
    // Whether the start and the flag of a block of the asked rank are good.
    GoodBlock(usize),
    // Whether the extent of an axis is 1 or the common one.
    Agrees(usize, usize),
}

// Whether the block at the front of a slice has a start of numbers 0..65,536 and a flag 0 or 1, as far as it is not cut off.
fn good_block(s: &[i32], rank: usize) -> bool
    ensures { result ≡ good_block (block_at rank s.now) }
{
    for k in 0..rank {
        if !shapes::up_to(s, k, 65536) {
            return false;
        }
    }
    shapes::up_to(s, rank, 1)
}

// Whether an extent is 1 or the common one.
fn extent_agrees(e: usize, common: usize) -> bool
    ensures { result ≡ (eqb e 1 || eqb e common) }
{
    if e == 1 {
        return true;
    }
    e == common
}

// Whether the thing at the front of a slice passes.
fn passes(ask: Ask, s: &[i32]) -> bool
    requires { Askable ask s.now }
    ensures { result ≡ asked ask s.now }
{
    match ask {
        Ask::FewAxes => !shapes::over_shape(s),
        Ask::GoodShape => shapes::good_shape(s),
        Ask::GoodBlock(rank) => good_block(s, rank),
        Ask::Agrees(axis, common) => extent_agrees(shapes::extent(s, axis), common),
    }
}

// Whether what stands at each of the places passes.
pub fn all_pass(ask: Ask, s: &[i32], places: &Places) -> bool
    requires { EachAt (Askable ask) places.now.count places.now.at s.now }
    ensures { result ≡ all (asked ask) (standing places.now.count places.now.at s.now) }
{
    for i in 0..places.count {
        let at = places.at[i];
        if !passes(ask, &s[at..]) {
            return false;
        }
    }
    true
}

// Two layouts of one shape in a window of parts, and what is made of them in the target: what every rule for two layouts shares.
ghost use Rattle.std.specs.Prelude.{◌≡◌, true, ◌||◌, []};
ghost use Rattle.rules.specs.Lists.{same};
ghost use Rattle.rules.specs.Layout.{is_dense};
ghost use Rattle.rules.specs.Removal.{lists_row};
ghost use Rattle.rules.specs.Pairs.{lower_d, bars_expansion, alike_diagonals};
ghost use Rattle.parts.specs.Parts.{left, right, layout_at, Holds, Window};
ghost use Rattle.combine.specs.Window.{way_of, HeadAsked, DepsAsked, BareAsked, CompleteAsked, HeadMade, DepsMade, merged_states, merged_inputs, shaped, Completed, Made, made_step, BothAsked, Rising, BothLowered};

use parts::{DENSE, EXTENTS, INPUTS, LEFT, OTHER_SPARE, RANK, RIGHT, ROWS, SPARE, STATES, TARGET};
use rules::{Kind, Refusal};

// Where the sections of the parts stand in the window.
pub const LEFT_DENSE: usize = LEFT + DENSE;

pub const LEFT_RANK: usize = LEFT + RANK;

const LEFT_EXTENTS: usize = LEFT + EXTENTS;

const LEFT_STATES: usize = LEFT + STATES;

const LEFT_INPUTS: usize = LEFT + INPUTS;

const RIGHT_DENSE: usize = RIGHT + DENSE;

const RIGHT_RANK: usize = RIGHT + RANK;

const RIGHT_EXTENTS: usize = RIGHT + EXTENTS;

const RIGHT_STATES: usize = RIGHT + STATES;

const RIGHT_INPUTS: usize = RIGHT + INPUTS;

const TARGET_DENSE: usize = TARGET + DENSE;

const TARGET_RANK: usize = TARGET + RANK;

pub const TARGET_ROWS: usize = TARGET + ROWS;

const TARGET_STATES: usize = TARGET + STATES;

const TARGET_INPUTS: usize = TARGET + INPUTS;

// Where the rows of both stand, lowered and in order.
pub const SPARE_ROWS: usize = SPARE + ROWS;

pub const OTHER_SPARE_ROWS: usize = OTHER_SPARE + ROWS;

// Which way two layouts of one shape are taken.
#[derive(Clone, Copy)]
pub enum Way {
    // One of them is dense.
    Dense,
    // Both are diagonals with equal D.
    Diagonals,
    // The rows of both, with the smaller D.
    Rows,
}

// Whether both layouts have one shape.
#[tactic(auto, using(crate::proofs::Tests::laws), unfolding(parts::specs::Parts::layout_at))]
pub fn same_shapes(window: &[i32]) -> bool
    requires { Window window.now }
    ensures { result ≡ same (layout_at left window.now).shape (layout_at right window.now).shape }
{
    let rank = cells::get(window, LEFT_RANK);
    cells::same(window, LEFT_RANK, window, RIGHT_RANK)
        && tables::same_numbers(window, LEFT_EXTENTS, window, RIGHT_EXTENTS, rank)
}

// Whether the layout at a place is dense.
#[tactic(auto, using(crate::proofs::Tests::laws))]
pub fn is_dense(s: &[i32], at: usize) -> bool
    requires { Holds at s.now }
    ensures { result ≡ is_dense (layout_at at s.now) }
{
    matches!(records::kind_at(s, at), Kind::Dense)
}

// Whether both layouts are diagonals with equal D.
#[tactic(auto, using(crate::proofs::Tests::laws))]
pub fn alike_diagonals(window: &[i32]) -> bool
    requires { Window window.now }
    ensures { result ≡ alike_diagonals (layout_at left window.now) (layout_at right window.now) }
{
    matches!(records::kind_at(window, LEFT), Kind::Diagonal)
        && matches!(records::kind_at(window, RIGHT), Kind::Diagonal)
        && cells::same(window, LEFT_DENSE, window, RIGHT_DENSE)
}

// Which way both layouts are taken.
#[tactic(auto, using(crate::proofs::Ways::laws))]
pub fn way_of(window: &[i32]) -> Way
    requires { Window window.now }
    ensures { result ≡ way_of (layout_at left window.now) (layout_at right window.now) }
{
    if is_dense(window, LEFT) || is_dense(window, RIGHT) {
        Way::Dense
    } else if alike_diagonals(window) {
        Way::Diagonals
    } else {
        Way::Rows
    }
}

// Whether the layout at a place is a diagonal with dense axes, which does not expand.
#[tactic(auto, using(crate::proofs::Tests::laws))]
pub fn bars_expansion(s: &[i32], at: usize) -> bool
    requires { Holds at s.now }
    ensures { result ≡ bars_expansion (layout_at at s.now) }
{
    matches!(records::kind_at(s, at), Kind::Diagonal) && 0 < cells::get(s, at + DENSE)
}

// Whether one of both layouts is such a diagonal.
pub fn either_bars(window: &[i32]) -> bool
    requires { Window window.now }
    ensures { result ≡ (bars_expansion (layout_at left window.now) || bars_expansion (layout_at right window.now)) }
{
    bars_expansion(window, LEFT) || bars_expansion(window, RIGHT)
}

// The smaller D of both layouts.
#[tactic(auto, unfolding(parts::specs::Parts::layout_at))]
pub fn lower_dense(window: &[i32]) -> usize
    requires { Window window.now }
    ensures { result ≡ lower_d (layout_at left window.now) (layout_at right window.now) }
{
    cells::get(window, LEFT_DENSE).min(cells::get(window, RIGHT_DENSE))
}

// Whether the layout at a place lists a row with its D lowered to d, while d is above 0.
pub fn lists_row(s: &[i32], at: usize, d: usize) -> bool
    requires { Holds at s.now }
    ensures { result ≡ lists_row (layout_at at s.now) d }
{
    if d == 0 {
        return false;
    }
    let dense = cells::get(s, at + DENSE);
    if dense <= d {
        return false;
    }
    if cells::get(s, at + ROWS) == 0 {
        return false;
    }
    let rank = cells::get(s, at + RANK);
    0 < lowering::product(s, at + EXTENTS, rank - (dense - d), rank)
}

// Whether one of both layouts lists such a row.
pub fn either_lists(window: &[i32], d: usize) -> bool
    requires { Window window.now }
    ensures { result ≡ (lists_row (layout_at left window.now) d || lists_row (layout_at right window.now) d) }
{
    lists_row(window, LEFT, d) || lists_row(window, RIGHT, d)
}

// The rows of both layouts, with D lowered to d and in order, become tables in the spare room; false where one has too many. Whether those
// of both are known to increase is told.
pub fn lower_both(window: &mut [i32], d: usize, rising: bool) -> bool
    requires both_asked { BothAsked d window.old }
    requires rising { rising ≡ true → Rising window.old }
    ensures { BothLowered d window.old window.new result }
{
    if lowering::lower_into(window, LEFT, d, SPARE_ROWS, rising) {
        return lowering::lower_into(window, RIGHT, d, OTHER_SPARE_ROWS, rising);
    }
    false
}

// A kind, a D and the extents of the left layout become the head of the target.
pub fn write_head(window: &mut [i32], kind: usize, dense: usize)
    requires { HeadAsked kind dense window.old }
    ensures { HeadMade kind dense window.old window.new }
{
    cells::move_part(window, LEFT_RANK, TARGET_RANK, 5);
    cells::store(window, TARGET, kind);
    cells::store(window, TARGET_DENSE, dense);
}

// The dependencies of both layouts are merged into the target; false where they are too many.
pub fn merge_deps(window: &mut [i32]) -> bool
    requires { DepsAsked window.old }
    ensures { DepsMade (merged_states window.old) (merged_inputs window.old) window.old window.new result }
{
    let w = cells::get(window, LEFT_RANK) + 1;
    if tables::merge_into(window, LEFT_STATES, RIGHT_STATES, TARGET_STATES, w) {
        return tables::merge_into(window, LEFT_INPUTS, RIGHT_INPUTS, TARGET_INPUTS, w);
    }
    false
}

// The rows in the target become a layout with a kind, a D, the shape of the left layout and the dependencies of both; false
// where these are too many.
pub fn complete(window: &mut [i32], kind: usize, dense: usize) -> bool
    requires { CompleteAsked kind dense window.old }
    ensures { Completed kind dense (merged_states window.old) (merged_inputs window.old) window.old window.new result }
{
    write_head(window, kind, dense);
    merge_deps(window)
}

// The same with no rows: whether the layout was made, or has too many dependencies.
pub fn complete_bare(window: &mut [i32], kind: usize, dense: usize) -> bool
    requires { BareAsked kind dense window.old }
    ensures { Made (shaped kind dense [] (merged_states window.old) (merged_inputs window.old) (layout_at left window.old)) window.old window.new result }
{
    cells::store(window, TARGET_ROWS, 0);
    complete(window, kind, dense)
}

// The answer of a step that made a layout, or found that it has too many rows or dependencies.
pub fn made(few: bool) -> Result<(), Refusal>
    ensures { result ≡ made_step few }
{
    if few {
        return Ok(());
    }
    Err(Refusal::MadeTooLarge)
}

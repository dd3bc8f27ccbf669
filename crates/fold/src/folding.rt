// Layouts folded one after the other, from the last: what is folded so far stands in the left part, the next one in the right.
ghost use Rattle.std.specs.Prelude.{◌≡◌, ◌&&◌, reverse, ◌≤◌, length, drop};
ghost use Rattle.rules.specs.CountsAndForms.{eq_nonzeros};
ghost use Rattle.rules.specs.Broadcast.{combine, divides_by_sparse, fold_back};
ghost use Rattle.parts.specs.Parts.{left, right, target, window_size, layout_at, Holds, Window};
ghost use Rattle.parts.specs.Answers.{Says};
ghost use Rattle.combine.specs.Window.{Combined};
ghost use Rattle.intersecting.specs.Intersecting.{OrderedWindow};
ghost use Rattle.fold.specs.Stretched.{BringAsked, AllBringable, stretched_to, all_stretched};
ghost use Rattle.fold.specs.Folded.{same_heads, fold_one, LeftReady, LeftIs, Folded, CarryAsked, TableCarried, Carried};

use super::agreeing::Shape;
use super::stretching::bring;
use lists::Places;
use parts::{DENSE, EXTENTS, INPUTS, LEFT, RANK, RIGHT, ROWS, STATES, TARGET};
use rules::{Kind, Mode, Refusal, Rule};

const RIGHT_ROWS: usize = RIGHT + ROWS;

// Whether kind, D, rank and extents of both layouts are the same.
fn same_heads(window: &[i32]) -> bool
    requires { Window window.now }
    ensures { result ≡ same_heads (layout_at left window.now) (layout_at right window.now) }
{
    let size = EXTENTS + cells::get(window, RANK);
    tables::same_numbers(window, LEFT, window, RIGHT, size)
}

// Whether kind, D, shape and rows of both layouts are the same.
fn eq_nonzeros(window: &[i32]) -> bool
    requires { Window window.now }
    ensures { result ≡ eq_nonzeros (layout_at left window.now) (layout_at right window.now) }
{
    if !same_heads(window) {
        return false;
    }
    let width = cells::get(window, RANK) - cells::get(window, DENSE);
    let size = 1 + cells::get(window, ROWS) * width;
    tables::same_numbers(window, ROWS, window, RIGHT_ROWS, size)
}

// Whether the left layout is sparse, and the right one is dense or differs.
#[tactic(auto, using(crate::proofs::Comparing::kind_laws))]
fn sparse_differs(window: &[i32]) -> bool
    requires { Window window.now }
    ensures { result ≡ divides_by_sparse Rule.Divide (layout_at left window.now) (layout_at right window.now) }
{
    match records::kind_at(window, LEFT) {
        Kind::Sparse => matches!(records::kind_at(window, RIGHT), Kind::Dense)
            || !eq_nonzeros(window),
        _ => false,
    }
}

// Whether a rule divides by a sparse layout whose neighbour differs.
fn divides_by_sparse(rule: Rule, window: &[i32]) -> bool
    requires { Window window.now }
    ensures { result ≡ divides_by_sparse rule (layout_at left window.now) (layout_at right window.now) }
{
    match rule {
        Rule::Divide => sparse_differs(window),
        Rule::Multiply | Rule::Unite => false,
    }
}

// Both layouts are combined by a rule into the target.
fn combine_in(rule: Rule, window: &mut [i32]) -> Result<(), Refusal>
    requires { OrderedWindow window.old }
    ensures { Combined (combine rule) window.old window.new result }
{
    match rule {
        Rule::Unite => combine::union_in(window, true),
        Rule::Multiply | Rule::Divide => intersecting::intersect_in(window),
    }
}

// Whether 9 bars a fold: it is judged in the first one alone.
fn is_barred(first: bool, rule: Rule, window: &[i32]) -> bool
    requires { Window window.now }
    ensures { result ≡ (first && divides_by_sparse rule (layout_at left window.now) (layout_at right window.now)) }
{
    first && divides_by_sparse(rule, window)
}

// The table at a place of the target goes to that place of the left part: its count and its rows, without the room behind them.
fn carry_table(window: &mut [i32], at: usize, w: usize)
    requires { CarryAsked at w window.old }
    ensures { TableCarried at w window.old window.new }
{
    let size = 1 + cells::get(window, TARGET + at) * w;
    cells::move_part(window, TARGET + at, LEFT + at, size);
}

// The layout in the target becomes the left one.
fn carry_left(window: &mut [i32])
    requires { Holds target window.old }
    ensures { Carried window.old window.new }
{
    let rank = cells::get(window, TARGET + RANK);
    let w = rank - cells::get(window, TARGET + DENSE);
    cells::move_part(window, TARGET, LEFT, ROWS);
    carry_table(window, ROWS, w);
    carry_table(window, STATES, rank + 1);
    carry_table(window, INPUTS, rank + 1);
}

// One fold: both layouts are combined, and what comes out becomes the left one.
fn fold_next(first: bool, rule: Rule, window: &mut [i32]) -> Result<(), Refusal>
    requires { OrderedWindow window.old }
    ensures { Folded (fold_one first rule (layout_at left window.old) (layout_at right window.old)) window.new result }
{
    if is_barred(first, rule, window) {
        return Err(Refusal::SparseDivisor);
    }
    combine_in(rule, window)?;
    carry_left(window);
    Ok(())
}

// The record at a place goes into the left part, stretched.
fn bring_left(mode: Mode, layouts: &[i32], at: usize, shape: Shape, window: &mut [i32])
    requires at_in_bounds { (at ≤ length layouts.now) × BringAsked mode shape (drop at layouts.now) }
    requires window_size_in_bounds { window_size ≤ length window.old }
    ensures { LeftIs (stretched_to mode shape (drop at layouts.now)) window.new }
{
    bring(mode, &layouts[at..], shape, &mut window[LEFT..RIGHT]);
}

// The record at a place goes into the right part, stretched, and is folded onto the left one.
fn fold_onto(
    mode: Mode,
    first: bool,
    rule: Rule,
    layouts: &[i32],
    at: usize,
    shape: Shape,
    window: &mut [i32],
) -> Result<(), Refusal>
    requires at_in_bounds { (at ≤ length layouts.now) × BringAsked mode shape (drop at layouts.now) }
    requires left_ready { LeftReady window.old }
    ensures { Folded (fold_one first rule (layout_at left window.old) (stretched_to mode shape (drop at layouts.now))) window.new result }
{
    bring(mode, &layouts[at..], shape, &mut window[RIGHT..TARGET]);
    fold_next(first, rule, window)
}

// Records, which may be stretched to the shape, are folded from the last; the layout that comes out stands in the left part.
pub fn fold_all(
    mode: Mode,
    layouts: &[i32],
    places: &Places,
    shape: Shape,
    rule: Rule,
    window: &mut [i32],
) -> Result<(), Refusal>
    requires all_bringable { AllBringable mode shape places.now.count places.now.at layouts.now }
    requires window_size_in_bounds { window_size ≤ length window.old }
    ensures { Says (fold_back rule (reverse (all_stretched mode shape places.now.count places.now.at layouts.now))) left window.new result }
{
    let last = places.count - 1;
    let mut first = true;
    bring_left(mode, layouts, places.at[last], shape, window);
    for k in (0..last).rev() {
        fold_onto(mode, first, rule, layouts, places.at[k], shape, window)?;
        first = false;
    }
    Ok(())
}

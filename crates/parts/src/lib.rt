// Layouts in parts of the working buffer: taken from a record, written as one, and the end of a call.
#![tactic(auto)]

ghost use Rattle.std.specs.Prelude.{Ok};
ghost use Rattle.std.specs.Prelude.{◌≡◌, ◌+◌, ◌-◌, ◌≤◌, length};
ghost use Rattle.rules.specs.Buffers.{part, over, put, zeros};
ghost use Rattle.tables.specs.Tables.{room_end, Fits};
ghost use Rattle.records.specs.Sound.{SoundRecord};
ghost use Rattle.rules.specs.Limits.{work_size};
ghost use Rattle.parts.specs.Parts.{part_size, window_size, Holds};
ghost use Rattle.parts.specs.Answers.{Loaded, PairLoaded, TableStored, Stored, Finished};

use rules::{Head, Refusal};

// The working buffer: six parts, each as long as the longest record.
pub const PART: usize = rules::RESULT_SIZE;

pub const WORK: usize = rules::WORK_SIZE;

// Where the sections of a layout stand in its part: it begins as a record does.
pub const KIND: usize = records::KIND;

pub const DENSE: usize = records::DENSE;

pub const RANK: usize = records::RANK;

pub const EXTENTS: usize = records::EXTENTS;

pub const ROWS: usize = 7;

pub const FIRST_ROW: usize = ROWS + 1;

pub const STATES: usize = 520;

pub const INPUTS: usize = 1161;

// A window of five parts: where a step finds its two layouts, where it makes a third, and what it may use besides.
pub const LEFT: usize = 0;

pub const RIGHT: usize = LEFT + PART;

pub const TARGET: usize = RIGHT + PART;

pub const SPARE: usize = TARGET + PART;

pub const OTHER_SPARE: usize = SPARE + PART;

pub const WINDOW: usize = OTHER_SPARE + PART;

// The numbers from a up to e of one slice go to a place of another.
fn load_part(from: &[i32], a: usize, e: usize, work: &mut [i32], to: usize)
    requires { (a ≤ e) × (e ≤ length from.now) × (to + (e - a) ≤ length work.old) }
    ensures { work.new ≡ put to (part a (e - a) from.now) work.old }
{
    cells::copy_into(&from[a..e], work, to);
}

// The layout of a sound record goes into a part, section by section.
pub fn load(from: &[i32], head: Head, part: &mut [i32])
    requires sound_record { SoundRecord head from.now }
    requires part_size_in_bounds { part_size ≤ length part.old }
    ensures { Loaded from.now part.new }
{
    let rows = head.rank + records::EXTENTS;
    let states = head.rows.next;
    let inputs = head.states.next;
    let end = head.inputs.next;
    load_part(from, records::KIND, rows, part, KIND);
    load_part(from, rows, states, part, ROWS);
    load_part(from, states, inputs, part, STATES);
    load_part(from, inputs, end, part, INPUTS);
}

// The layouts of two sound records go into the first two parts of a window.
pub fn load_pair(left: &[i32], first: Head, right: &[i32], second: Head, window: &mut [i32])
    requires sound_record { SoundRecord first left.now × SoundRecord second right.now }
    requires window_size_in_bounds { window_size ≤ length window.old }
    ensures { PairLoaded left.now right.now window.new }
{
    load(left, first, &mut window[LEFT..RIGHT]);
    load(right, second, &mut window[RIGHT..TARGET]);
}

// The table at a place of a part goes to a place of the result; answers the place behind it.
fn store_table(part: &[i32], at: usize, w: usize, res: &mut [i32], to: usize) -> usize
    requires fits { Fits at w part.now }
    requires w_in_bounds { room_end to w ≤ length res.old }
    ensures { TableStored at w to part.now res.old res.new result }
{
    let n = cells::get(part, at);
    let size = 1 + n * w;
    let end = at + size;
    cells::copy_into(&part[at..end], res, to);
    to + size
}

// The layout of a part goes to the front of the result as a record; answers how many numbers that are.
pub fn store(part: &[i32], res: &mut [i32]) -> usize
    requires holds { Holds 0 part.now }
    requires part_size_in_bounds { part_size ≤ length res.old }
    ensures { Stored part.now res.old res.new result }
{
    let dense = cells::get(part, DENSE);
    let rank = cells::get(part, RANK);
    let end = rank + records::EXTENTS;
    cells::copy(&part[..end], res);
    let states = store_table(part, ROWS, rank - dense, res, end);
    let inputs = store_table(part, STATES, rank + 1, res, states);
    store_table(part, INPUTS, rank + 1, res, inputs)
}

// Refuses, with the working buffer cleared.
pub fn refuse(reason: Refusal, work: &mut [i32]) -> Result<usize, Refusal>
    requires { work_size ≤ length work.old }
    ensures { (result ≡ Err reason) × (work.new ≡ over (zeros work_size) work.old) }
{
    cells::clear(work, WORK);
    Err(reason)
}

// The end of a call: the layout that a step made goes to the result, or its refusal is handed on; the working buffer is cleared.
pub fn finish(
    step: Result<(), Refusal>,
    work: &mut [i32],
    at: usize,
    res: &mut [i32],
) -> Result<usize, Refusal>
    requires work_size_in_bounds { (work_size ≤ length work.old) × (part_size ≤ length res.old) }
    requires holds { step ≡ Ok tt → Holds at work.old }
    ensures { Finished step at work.old res.old result work.new res.new }
{
    match step {
        Ok(()) => {
            let end = at + PART;
            let n = store(&work[at..end], res);
            cells::clear(work, WORK);
            Ok(n)
        }
        Err(reason) => refuse(reason, work),
    }
}

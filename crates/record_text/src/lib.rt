// Text for programs: an input read whole; a list of numbers read from it; records and refusals as lines, at the front of a lent slice
// of bytes.
#![tactic(auto)]

ghost use Rattle.std.specs.Prelude.{◌≡◌, true, ◌+◌, ◌-◌, ◌*◌, ◌≤◌, length};
ghost use Rattle.std.specs.Io.{ReadsAtMost};
ghost use Rattle.rules.specs.Refusals.{number_of};
ghost use Rattle.rules.specs.Record.{layout_in, sound};
ghost use Rattle.text.specs.Placed.{Wrote};
ghost use Rattle.record_text.specs.Lines.{layout_text, refused_text};
ghost use Rattle.record_text.specs.Fronts.{Front};
ghost use Rattle.record_text.specs.Sections.{line_from, five_lines, InTurn};
ghost use Rattle.record_text.specs.Texts.{ListRead};

use rules::{Head, Refusal};

// The most bytes that a text can have.
const TEXT_SIZE: usize = 65536;

// The bytes of an input go to the front of a slice, to the input's end or as many as there is room for; answers how many.
pub fn read_full<R: std::io::Read>(input: &mut R, buf: &mut [u8]) -> std::io::Result<usize>
    ensures { ReadsAtMost result buf.new }
{
    let mut done = 0;
    // std's `read_exact` does not say how much came before the input's end, and `read_to_end` takes memory of the heap
    while done < buf.len() {
        let n = input.read(&mut buf[done..])?;
        if n == 0 {
            break;
        }
        done += n;
    }
    Ok(done)
}

// The numbers of a text go to the front of a slice; answers how many, or nothing for other text. One byte over 65,536 is too much.
pub fn read_list(text: &[u8], numbers: &mut [i32]) -> Option<usize>
    requires { 32768 ≤ length numbers.old }
    ensures { ListRead text.now numbers.new result }
{
    if TEXT_SIZE < text.len() {
        return None;
    }
    text::read_numbers(text, numbers)
}

// The five lines of a sound record, which can always be walked, go to the front of out; answers how many bytes they have.
pub fn write_layout(s: &[i32], out: &mut [u8]) -> usize
    requires { (sound s.now ≡ true) × (32768 ≤ length out.old) }
    ensures { Front (layout_text (layout_in s.now)) out.new result }
{
    let Some(head) = records::walk_record(s) else {
        return 0;
    };
    write_lines(s, &head, out)
}

// The five lines of a record with that head go to the front of out; answers how many bytes they have.
fn write_lines(s: &[i32], head: &Head, out: &mut [u8]) -> usize
    requires in_turn { InTurn (head.now.rank + 3) head.now.rows.next head.now.states.next head.now.inputs.next (length s.now) }
    requires room { 12 * head.now.inputs.next + 5 ≤ length out.old }
    ensures { Front (five_lines (head.now.rank + 3) head.now.rows.next head.now.states.next head.now.inputs.next s.now) out.new result }
{
    let rows = head.rank + records::EXTENTS;
    let mut at = write_part(s, records::KIND, records::RANK, out, 0);
    at = write_part(s, records::RANK, rows, out, at);
    at = write_part(s, rows, head.rows.next, out, at);
    at = write_part(s, head.rows.next, head.states.next, out, at);
    write_part(s, head.states.next, head.inputs.next, out, at)
}

// The numbers between two places go to a place of out as a line; answers the place behind it.
fn write_part(s: &[i32], from: usize, to: usize, out: &mut [u8], at: usize) -> usize
    requires { (from ≤ to) × (to ≤ length s.now) × (at + 12 * (to - from) + 1 ≤ length out.old) }
    ensures { Wrote (12 * (to - from) + 1) at (line_from from to s.now) out.old out.new result }
{
    text::write_line(&s[from..to], out, at)
}

// 'refused' and the number of a refusal go to the front of out; answers how many bytes they have.
pub fn write_refusal(reason: Refusal, out: &mut [u8]) -> usize
    requires { 32 ≤ length out.old }
    ensures { Front (refused_text (number_of reason)) out.new result }
{
    let at = write_bytes(b"refused ", out);
    let number = [layout::number_of(reason)];
    text::write_line(&number, out, at)
}

// Bytes go to the front of out; answers how many.
pub fn write_bytes(bytes: &[u8], out: &mut [u8]) -> usize
    requires { length bytes.now ≤ length out.old }
    ensures { (result ≡ length bytes.now) × Front bytes.now out.new result }
{
    out[..bytes.len()].copy_from_slice(bytes);
    bytes.len()
}

// Reads a list of two records from standard input and prints the five lines of their union, or why it is refused.
#![tactic(auto)]

ghost use Rattle.std.specs.Prelude.{◌≡◌, ◌≤◌, length};
ghost use Rattle.rules.specs.Limits.{result_size, work_size};
ghost use Rattle.record_text.specs.Lines.{verdict_text};
ghost use Rattle.record_text.specs.Fronts.{Front};
ghost use Rattle.union_records.specs.Unions.{union_of, union_text};

use rules::Refusal;
use std::io;
use std::io::Write;

// What a text is answered with: room for its numbers, the two buffers that the union is lent, and room for the answer.
#[derive(Drop)]
struct Buffers {
    numbers: [i32; 32768],
    result: [i32; rules::RESULT_SIZE],
    work: [i32; rules::WORK_SIZE],
    out: [u8; 32768],
}

impl Buffers {
    // The answer to a text.
    fn answer(&mut self, text: &[u8]) -> &[u8]
        ensures { result.now ≡ union_text text.now }
    {
        let end = match record_text::read_list(text, &mut self.numbers) {
            Some(n) => answer_list(
                &self.numbers[..n],
                &mut self.result,
                &mut self.work,
                &mut self.out,
            ),
            None => record_text::write_refusal(Refusal::Unsound, &mut self.out),
        };
        &self.out[..end]
    }
}

// Answers standard input on standard output.
fn main(rt: HostRuntime) -> io::Result<()> {
    let mut text = [0u8; 65537];
    let mut buffers = Buffers {
        numbers: [0; 32768],
        result: [0; rules::RESULT_SIZE],
        work: [0; rules::WORK_SIZE],
        out: [0; 32768],
    };
    let size = record_text::read_full(&mut rt.stdin(), &mut text)?;
    rt.stdout().write_all(buffers.answer(&text[..size]))
}

// The answer to a list of numbers goes to the front of out; answers how many bytes it has.
fn answer_list(list: &[i32], res: &mut [i32], work: &mut [i32], out: &mut [u8]) -> usize
    requires { (length res.old ≡ result_size) × (length work.old ≡ work_size) × (32768 ≤ length out.old) }
    ensures { Front (verdict_text (union_of list.now)) out.new result }
{
    let first = lists::behind_record(list, 0);
    let second = lists::behind_record(list, first);
    if second < list.len() {
        return record_text::write_refusal(Refusal::Unsound, out);
    }
    match layout::union(list, &list[first..], res, work) {
        Ok(n) => record_text::write_layout(&res[..n], out),
        Err(reason) => record_text::write_refusal(reason, out),
    }
}

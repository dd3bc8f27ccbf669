// Answers request lines. A line of numbers on standard input asks for one call, and one line on standard output says how it ended.
#![tactic(auto)]

mod line; // line.rt: a line as far as it came
mod made; // made.rt: operations that are lent a result buffer
mod plain; // plain.rt: operations that are lent no buffer
mod worked; // worked.rt: operations that are lent a working buffer too

use line::Line;
use replies::Reply;
use requests::{Fault, Request};
use std::io;

// How many bytes of a line are held, and how many are read at once.
const BYTES: usize = 65536;

// How many numbers a line can have.
const NUMBERS: usize = 32768;

// What a line is answered with: room for its numbers, the two buffers that a call is lent, and the answer's text.
#[derive(Drop)]
struct Buffers {
    numbers: [i32; NUMBERS],
    result: [i32; NUMBERS],
    work: [i32; NUMBERS],
    reply: Reply,
}

impl Buffers {
    // Zeros, and no text.
    fn new() -> Buffers {
        Buffers {
            numbers: [0; NUMBERS],
            result: [0; NUMBERS],
            work: [0; NUMBERS],
            reply: Reply::new(),
        }
    }

    // The answer to a line, and a newline.
    fn answer(&mut self, line: &Line) -> &[u8] {
        self.reply.clear();
        match asked(line, &mut self.numbers) {
            Ok(request) => answer(&request, &mut self.result, &mut self.work, &mut self.reply),
            Err(fault) => self.reply.word(fault.text()),
        }
        self.reply.word(b"\n");
        self.reply.text()
    }
}

// The lines answered with the buffers.
fn main(rt: HostRuntime) -> io::Result<()> {
    answer_lines(
        &mut rt.stdin(),
        &mut rt.stdout(),
        &mut Line::new(),
        &mut Buffers::new(),
    )
}

// Answers every line. A proved loop has to end, and nothing says that the input does: it has as many turns as no run uses up.
fn answer_lines<R: io::Read, W: io::Write>(
    input: &mut R,
    output: &mut W,
    line: &mut Line,
    buffers: &mut Buffers,
) -> io::Result<()> {
    let mut bytes = [0u8; BYTES];
    for _ in 0..u64::MAX {
        let n = input.read(&mut bytes)?;
        if n == 0 {
            break;
        }
        hear(&bytes[..n], output, line, buffers)?;
    }
    if line.is_empty() {
        return Ok(());
    }
    output.write_all(buffers.answer(line))
}

// Answers the lines that end in these bytes; the line behind them is held.
fn hear<W: io::Write>(
    input: &[u8],
    output: &mut W,
    line: &mut Line,
    buffers: &mut Buffers,
) -> io::Result<()> {
    for piece in input.split_inclusive(|byte| *byte == b'\n') {
        match piece.strip_suffix(b"\n") {
            Some(end) => {
                line.extend(end);
                output.write_all(buffers.answer(line))?;
                line.clear();
            }
            None => line.extend(piece),
        }
    }
    Ok(())
}

// What a line asks for, or why it asks for nothing.
fn asked<'a>(line: &Line, numbers: &'a mut [i32; NUMBERS]) -> Result<Request<'a>, Fault> {
    let text = line.text().ok_or(Fault::Long)?;
    let n = text::read_numbers(text, numbers).ok_or(Fault::Bad)?;
    Request::new(&numbers[..n])
}

// The answer to a request, by the buffers that its operation is lent.
fn answer(request: &Request, res: &mut [i32], work: &mut [i32], reply: &mut Reply) {
    match request.operation() {
        12..=18 | 35 => made::lend(request, res, reply),
        19..=28 | 32..=34 => worked::lend(request, res, work, reply),
        _ => plain::answer(request, reply),
    }
}

// The text of an answer, piece by piece. What there is no room for is left out.
#![tactic(auto)]

ghost use Rattle.std.specs.Prelude.{◌≡◌, ◌≤◌, length, decimal};

use rules::{Refusal, Tuple};
use std::cmp::Ordering;

// How many bytes there is room for, and how many the longest number of a record has.
const ROOM: usize = 65536;

const LONGEST: usize = 11;

// How many digits a number has. Stays a `while`: how many turns it takes is what is asked.
fn places(n: u64) -> usize
    ensures { result ≡ length (decimal n) }
{
    let mut count = 1;
    let mut rest = n;
    while 10 <= rest {
        rest /= 10;
        count += 1;
    }
    count
}

// The text of an answer, and how many bytes it has.
#[derive(Drop)]
pub struct Reply {
    bytes: [u8; ROOM],
    size: usize,
    ghost within: { size ≤ 65536 },
}

impl Reply {
    // No text yet.
    pub fn new() -> Reply {
        Reply {
            bytes: [0; ROOM],
            size: 0,
        }
    }

    // The text is taken back.
    pub fn clear(&mut self) {
        self.size = 0;
    }

    // The text as far as it was written.
    pub fn text(&self) -> &[u8] {
        &self.bytes[..self.size]
    }

    // Bytes are written.
    pub fn word(&mut self, bytes: &[u8]) {
        if bytes.len() <= ROOM - self.size {
            let end = self.size + bytes.len();
            self.bytes[self.size..end].copy_from_slice(bytes);
            self.size = end;
        }
    }

    // One byte is written.
    fn push(&mut self, byte: u8) {
        let at = self.size;
        if at < ROOM {
            self.bytes[at] = byte;
            self.size = at + 1;
        }
    }

    // The digits of a number are written.
    fn digits(&mut self, n: u64) {
        let count = places(n);
        if count <= ROOM - self.size {
            self.size += count;
            itoa::write_digits(n, &mut self.bytes, self.size);
        }
    }

    // A space and a natural number are written.
    fn natural(&mut self, n: usize) {
        self.push(b' ');
        self.digits(n as u64);
    }

    // A space and a number are written, the number only if there is room for the longest one. Stays beside `natural`, since it is
    // quicker: one function for both, over `itoa`'s buffer, takes 71 instructions for a number of one digit, not 24.
    fn integer(&mut self, z: i32) {
        self.push(b' ');
        if self.size <= ROOM - LONGEST {
            if z < 0 {
                self.push(b'-');
            }
            match z.unsigned_abs() {
                n if n < 10 => self.push(b'0' + n as u8),
                n => self.digits(u64::from(n)),
            }
        }
    }

    // Numbers are written.
    fn integers(&mut self, numbers: &[i32]) {
        for z in numbers {
            self.integer(*z);
        }
    }

    // A refusal.
    fn refused(&mut self, why: Refusal) {
        self.word(b"refused");
        self.integer(layout::number_of(why));
    }

    // Yes or no.
    pub fn flag(&mut self, is: bool) {
        self.word(if is { b"ok 1" } else { b"ok 0" });
    }

    // Yes or no, or a refusal.
    pub fn test(&mut self, answer: Result<bool, Refusal>) {
        match answer {
            Ok(is) => self.flag(is),
            Err(why) => self.refused(why),
        }
    }

    // How two things compare.
    fn order(&mut self, how: Ordering) {
        match how {
            Ordering::Less => self.word(b"ok -1"),
            Ordering::Equal => self.word(b"ok 0"),
            Ordering::Greater => self.word(b"ok 1"),
        }
    }

    // How two indices compare, or a refusal.
    pub fn comparison(&mut self, answer: Result<Ordering, Refusal>) {
        match answer {
            Ok(how) => self.order(how),
            Err(why) => self.refused(why),
        }
    }

    // A number, or a refusal.
    pub fn number(&mut self, answer: Result<usize, Refusal>) {
        match answer {
            Ok(n) => {
                self.word(b"ok");
                self.natural(n);
            }
            Err(why) => self.refused(why),
        }
    }

    // Where a lookup finds an index, or that it is not held, or a refusal.
    pub fn place(&mut self, answer: Result<Option<usize>, Refusal>) {
        match answer {
            Ok(Some(n)) => {
                self.word(b"found");
                self.natural(n);
            }
            Ok(None) => self.word(b"nothing"),
            Err(why) => self.refused(why),
        }
    }

    // A shape or an index: its count and its numbers, or a refusal.
    pub fn tuple(&mut self, answer: Result<Tuple, Refusal>) {
        match answer {
            Ok(tuple) => {
                let numbers = tuple.numbers;
                self.number(Ok(tuple.count));
                for n in numbers.get(..tuple.count).unwrap_or(&[]) {
                    self.natural(*n);
                }
            }
            Err(why) => self.refused(why),
        }
    }

    // A part of a slice: its count and its numbers.
    pub fn part(&mut self, numbers: &[i32]) {
        self.word(b"part");
        self.natural(numbers.len());
        self.integers(numbers);
    }

    // A record that was written to the front of the result, or a refusal.
    pub fn record(&mut self, answer: Result<usize, Refusal>, res: &[i32]) {
        match answer {
            Ok(n) => {
                self.word(b"ok");
                self.front(n, res);
            }
            Err(why) => {
                self.refused(why);
                self.front(0, res);
            }
        }
    }

    // Numbers that were written to the front of the result, behind their count, or a refusal.
    pub fn counted(&mut self, answer: Result<usize, Refusal>, res: &[i32]) {
        match answer {
            Ok(n) => {
                self.number(Ok(n));
                self.front(n, res);
            }
            Err(why) => {
                self.refused(why);
                self.front(0, res);
            }
        }
    }

    // The first n numbers of the result; and that there is something wrong, unless those behind them are unchanged.
    fn front(&mut self, n: usize, res: &[i32]) {
        let Some(numbers) = res.get(..n) else {
            return self.unless(false);
        };
        self.integers(numbers);
        self.unless(requests::unchanged(res, n));
    }

    // That there is something wrong with a buffer, unless it is good.
    pub fn unless(&mut self, good: bool) {
        if !good {
            self.word(b" buffers");
        }
    }
}

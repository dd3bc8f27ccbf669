// The numbers of a request: its operation, then the arguments that the operation has, each a number or a slice behind its length.
ghost use Rattle.std.specs.Prelude.{◌<◌, ◌≤◌};

// Why a line is answered without a call: it is too long, it is no request, or its operation is none of the table.
#[derive(Clone, Copy)]
pub enum Fault {
    Long,
    Bad,
    Unknown,
}

impl Fault {
    // What is answered.
    pub fn text(self) -> &'static [u8] {
        match self {
            Fault::Long => b"long",
            Fault::Bad => b"bad request",
            Fault::Unknown => b"unknown",
        }
    }
}

// What an argument is: a number, or a slice behind its length.
#[derive(Clone, Copy)]
enum Argument {
    N,
    S,
}

use Argument::{N, S};

// The arguments of each operation of the table, numbers N and slices S; nothing for an operation that is none of it.
fn form(operation: i32) -> Option<&'static [Argument]> {
    match operation {
        1 | 12 | 15 | 16 | 18 | 31 => Some(&[S, N]),
        2 | 3 | 5 | 7 | 10 | 11 => Some(&[S, S]),
        4 => Some(&[N, S]),
        8 | 9 | 29 | 30 => Some(&[S]),
        13 => Some(&[N, N]),
        14 => Some(&[N]),
        17 | 35 => Some(&[S, N, S, N]),
        19 | 22 | 23 | 25 => Some(&[S, S, N, N]),
        20 => Some(&[S, N, N, N]),
        24 => Some(&[S, N, N]),
        26 | 27 | 33 => Some(&[S, N, N, N, N]),
        28 => Some(&[S, S, N, N, N, N]),
        32 => Some(&[S, S, N, N, N]),
        34 => Some(&[S, N, N, N, N, N]),
        _ => None,
    }
}

// The argument at the front of numbers, a number or those of a slice, and the numbers behind it; nothing where it is not there.
fn split(kind: Argument, numbers: &[i32]) -> Option<(&[i32], &[i32])> {
    match kind {
        N => numbers.split_at_checked(1),
        S => {
            let (length, rest) = numbers.split_first()?;
            rest.split_at_checked(cells::sign_of(*length)?)
        }
    }
}

// A request that has the form of its operation.
#[derive(Clone, Copy)]
pub struct Request<'a> {
    operation: i32,
    arguments: [&'a [i32]; 6],
    numbers: &'a [i32],
}

impl<'a> Request<'a> {
    // The request that numbers are: an operation of the table, its arguments, and nothing else.
    pub fn new(numbers: &'a [i32]) -> Result<Request<'a>, Fault> {
        let (operation, behind) = numbers.split_first().ok_or(Fault::Bad)?;
        let form = form(*operation).ok_or(Fault::Unknown)?;
        let mut arguments = [&numbers[..0]; 6];
        let mut rest = behind;
        for (argument, kind) in arguments.iter_mut().zip(form) {
            let (front, more) = split(*kind, rest).ok_or(Fault::Bad)?;
            *argument = front;
            rest = more;
        }
        if rest.is_empty() {
            Ok(Request {
                operation: *operation,
                arguments,
                numbers,
            })
        } else {
            Err(Fault::Bad)
        }
    }

    // What is asked for.
    pub fn operation(&self) -> i32 {
        self.operation
    }

    // Argument k where it is a slice; an empty one where there is none.
    pub fn list(&self, k: usize) -> &'a [i32] {
        self.arguments.get(k).copied().unwrap_or(&[])
    }

    // Argument k where it is a number; 0 where there is none.
    pub fn number(&self, k: usize) -> i32 {
        self.list(k).first().copied().unwrap_or(0)
    }

    // Argument k as a byte; 0 where it is none.
    pub fn byte(&self, k: usize) -> u8 {
        u8::try_from(self.number(k)).unwrap_or(0)
    }

    // The length that the k-th number from the end asks for, the last one being 0, for a buffer that has room for so many.
    pub fn length(&self, k: usize, most: usize) -> usize
        ensures { result ≤ most }
    {
        let asked = self.numbers.iter().rev().nth(k).copied().unwrap_or(0);
        cells::sign_of(asked).unwrap_or(0).min(most)
    }
}

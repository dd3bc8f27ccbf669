// A line as far as it came.
ghost use Rattle.std.specs.Prelude.{◌≤◌, length};
ghost use Rattle.std.specs.Option.{ForSome};

use crate::BYTES;

// The bytes that are held of a line, and how many they are; nothing where it is too long.
#[derive(Drop)]
pub struct Line {
    bytes: [u8; BYTES],
    held: Option<usize>,
}

impl Line {
    // A line of which nothing came.
    pub fn new() -> Line {
        Line {
            bytes: [0; BYTES],
            held: Some(0),
        }
    }

    // Nothing came of the next line.
    pub fn clear(&mut self) {
        self.held = Some(0);
    }

    // Whether nothing came.
    pub fn is_empty(&self) -> bool {
        self.held == Some(0)
    }

    // More bytes; there is room for as many as are held.
    pub fn extend(&mut self, piece: &[u8]) {
        self.held = match self.held {
            Some(n) if n <= BYTES && piece.len() <= BYTES - n => {
                let end = n + piece.len();
                self.bytes[n..end].copy_from_slice(piece);
                Some(end)
            }
            _ => None,
        };
    }

    // Its bytes, unless it is too long.
    pub fn text(&self) -> Option<&[u8]>
        ensures { ForSome result (λ text. length text.now ≤ 65536) }
    {
        self.bytes.get(..self.held?)
    }
}

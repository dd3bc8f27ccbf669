// The text form of numbers: the numbers of a text, and numbers as lines of text.
#![tactic(auto)]

ghost use Rattle.std.specs.Prelude.{◌≡◌, ◌+◌, ◌*◌, ◌^◌, ◌≤◌, pos, neg_ℤ, length};
ghost use Rattle.text.specs.Read.{is_gap};
ghost use Rattle.text.specs.Written.{number_text, line_text, item_text};
ghost use Rattle.text.specs.Words.{grown_within, next_of, ending, Small, begun};
ghost use Rattle.text.specs.Placed.{Placed, ReadInto, Wrote};

// A word as far as it is read: nothing yet, a minus alone, the value of digits, that of digits after a minus, or no number.
#[derive(Clone, Copy)]
enum Word {
    Nothing,
    Minus,
    Natural(usize),
    Negative(usize),
    Broken,
}

// The largest number of 32 bits, and how far below 0 the least one is.
const MOST: usize = 2147483647;

const LEAST: usize = 2147483648;

// The numbers of a text go to the front of out; those behind them stay. Answers how many, or nothing for other text.
pub fn read_numbers(text: &[u8], out: &mut [i32]) -> Option<usize>
    requires { length text.now ≤ 2 * length out.old }
    ensures { ReadInto text.now out.old out.new result }
{
    let mut word = Word::Nothing;
    let mut n = 0;
    for byte in text {
        if is_gap(*byte) {
            n = finish(word, out, n)?;
            word = Word::Nothing;
        } else {
            word = next(word, *byte);
        }
    }
    finish(word, out, n)
}

// Whether a byte parts words.
fn is_gap(byte: u8) -> bool
    ensures { result ≡ is_gap byte }
{
    byte == b' ' || byte == b'\n'
}

// The number of a word that ends goes to place n; answers how many numbers there are now, or nothing for no number.
fn finish(word: Word, out: &mut [i32], n: usize) -> Option<usize>
    requires { (n + begun word ≤ length out.old) × Small word }
    ensures { Placed n (ending word) out.old out.new result }
{
    match word {
        Word::Nothing => Some(n),
        Word::Natural(value) => {
            out[n] = value as i32;
            Some(n + 1)
        }
        Word::Negative(value) => {
            out[n] = negative(value);
            Some(n + 1)
        }
        Word::Minus | Word::Broken => None,
    }
}

// The number that many below 0.
fn negative(size: usize) -> i32
    requires { size ≤ 2 ^ 31 }
    ensures { result ≡ neg_ℤ (pos size) }
{
    -(size as i64) as i32
}

// A word with one byte more.
fn next(word: Word, byte: u8) -> Word
    requires { Small word }
    ensures { result ≡ next_of word byte }
{
    match word {
        Word::Nothing if byte == b'-' => Word::Minus,
        Word::Nothing => grown(0, byte, MOST).map_or(Word::Broken, Word::Natural),
        Word::Minus => grown(0, byte, LEAST).map_or(Word::Broken, Word::Negative),
        Word::Natural(value) => grown(value, byte, MOST).map_or(Word::Broken, Word::Natural),
        Word::Negative(value) => grown(value, byte, LEAST).map_or(Word::Broken, Word::Negative),
        Word::Broken => Word::Broken,
    }
}

// A value with one digit more, if the byte is a digit and the value is within a limit.
fn grown(value: usize, byte: u8, limit: usize) -> Option<usize>
    requires { (value ≤ 2 ^ 31) × (limit ≤ 2 ^ 31) }
    ensures { result ≡ grown_within value byte limit }
{
    if !byte.is_ascii_digit() {
        return None;
    }
    let more = value * 10 + usize::from(byte - b'0');
    if more <= limit { Some(more) } else { None }
}

// A line of numbers, parted by spaces and ended by a newline, goes to a place of out; answers the place behind it.
pub fn write_line(line: &[i32], out: &mut [u8], at: usize) -> usize
    requires { at + 12 * length line.now + 1 ≤ length out.old }
    ensures { Wrote (12 * length line.now + 1) at (line_text line.now) out.old out.new result }
{
    let mut next = at;
    for (i, z) in line.iter().enumerate() {
        next = write_item(i, *z, out, next);
    }
    out[next] = b'\n';
    next + 1
}

// Number i of a line, after a space unless it is the first, goes to a place of out; answers the place behind it.
fn write_item(i: usize, z: i32, out: &mut [u8], at: usize) -> usize
    requires { at + 12 ≤ length out.old }
    ensures { Wrote 12 at (item_text i z) out.old out.new result }
{
    if i == 0 {
        return write_number(z, out, at);
    }
    out[at] = b' ';
    write_number(z, out, at + 1)
}

// The text of a number goes to a place of out; answers the place behind it.
pub fn write_number(z: i32, out: &mut [u8], at: usize) -> usize
    requires { at + 11 ≤ length out.old }
    ensures { Wrote 11 at (number_text z) out.old out.new result }
{
    let mut buffer = itoa::Buffer::new();
    let digits = buffer.format(z).as_bytes();
    let end = at + digits.len();
    out[at..end].copy_from_slice(digits);
    end
}

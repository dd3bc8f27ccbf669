// Reads a pile of records and pairs of places from standard input, exchanges the records of each pair, and prints what came of each
// exchange and then the pile; or why the whole is refused.
#![tactic(auto)]

ghost use Rattle.std.specs.Prelude.{◌≡◌, ◌+◌, ◌*◌, ◌%◌, ◌≤◌, length};
ghost use Rattle.rules.specs.Limits.{result_size, work_size, list_limit};
ghost use Rattle.record_text.specs.Fronts.{Front};
ghost use Rattle.exchange_records.specs.Piles.{slot_with, slot_text, pile_text};
ghost use Rattle.exchange_records.specs.Exchanges.{exchanges_text, are_pairs, records_text, list_text, answer_text};
ghost use Rattle.exchange_records.specs.Growing.{PileLoaded, step_text, PairsWritten, Grown};

use rules::Refusal;
use std::io::Write;

// How many bytes are lent for a line, and for the five lines of a layout.
const LINE: usize = 32;

const LINES: usize = 32768;

// What a text is answered with: room for its numbers, the pile, the buffer that an exchange is lent, and room for the answer.
#[derive(Drop)]
struct Buffers {
    numbers: [i32; 32768],
    pile: [i32; 28832],
    work: [i32; rules::WORK_SIZE],
    out: [u8; 1048576],
}

impl Buffers {
    // The answer to a text.
    fn answer(&mut self, text: &[u8]) -> &[u8]
        ensures { result.now ≡ answer_text text.now }
    {
        let end = match record_text::read_list(text, &mut self.numbers) {
            Some(n) => answer_list(
                &self.numbers[..n],
                &mut self.pile,
                &mut self.work,
                &mut self.out,
            ),
            None => record_text::write_refusal(Refusal::Unsound, &mut self.out),
        };
        &self.out[..end]
    }
}

// Answers standard input on standard output.
fn main(rt: HostRuntime) -> std::io::Result<()> {
    let mut text = [0u8; 65537];
    let mut buffers = Buffers {
        numbers: [0; 32768],
        pile: [0; 28832],
        work: [0; rules::WORK_SIZE],
        out: [0; 1048576],
    };
    let size = record_text::read_full(&mut rt.stdin(), &mut text)?;
    rt.stdout().write_all(buffers.answer(&text[..size]))
}

// The answer to a list of numbers goes to the front of out; answers how many bytes it has.
fn answer_list(list: &[i32], pile: &mut [i32], work: &mut [i32], out: &mut [u8]) -> usize
    requires pile_len { (length pile.old ≡ list_limit * result_size) × (length work.old ≡ work_size) }
    requires list_in_bounds { 16 * length list.now + 524288 ≤ length out.old }
    ensures { Front (list_text list.now) out.new result }
{
    if list.len() == 0 {
        return record_text::write_refusal(Refusal::Unsound, out);
    }
    let Some(n) = cells::sign_at(list, 0) else {
        return record_text::write_refusal(Refusal::OverCount, out);
    };
    if rules::LIST_LIMIT < n {
        return record_text::write_refusal(Refusal::OverCount, out);
    }
    let size = n * rules::RESULT_SIZE;
    answer_records(&list[1..], n, &mut pile[0..size], work, out)
}

// The answer to n records and pairs of places behind them goes to the front of out; answers how many bytes it has.
fn answer_records(
    list: &[i32],
    n: usize,
    pile: &mut [i32],
    work: &mut [i32],
    out: &mut [u8],
) -> usize
    requires n_le_list_limit { (n ≤ list_limit) × (length pile.old ≡ n * result_size) × (length work.old ≡ work_size) }
    requires list_in_bounds { 16 * length list.now + 524288 ≤ length out.old }
    ensures { Front (records_text n list.now) out.new result }
{
    let at = load_pile(list, n, pile);
    if !are_pairs(&list[at..]) {
        return record_text::write_refusal(Refusal::Unsound, out);
    }
    let first = at + 1;
    answer_pairs(&list[first..], pile, work, out)
}

// A record goes to the front of a slot, with zeros behind it; of one that is too long, what there is room for.
fn load_slot(numbers: &[i32], slot: &mut [i32])
    requires { length slot.old ≡ result_size }
    ensures { slot.new ≡ slot_with numbers.now }
{
    let n = numbers.len().min(rules::RESULT_SIZE);
    cells::clear(slot, rules::RESULT_SIZE);
    cells::copy(&numbers[..n], slot);
}

// The first n records of a list go to the slots of a pile, one to each; answers where the rest of the list begins.
fn load_pile(list: &[i32], n: usize, pile: &mut [i32]) -> usize
    requires { (n ≤ list_limit) × (length pile.old ≡ n * result_size) }
    ensures { PileLoaded n list.now pile.new result }
{
    let mut at = 0;
    for i in 0..n {
        let next = lists::behind_record(list, at);
        let slot = i * rules::RESULT_SIZE;
        let end = slot + rules::RESULT_SIZE;
        load_slot(&list[at..next], &mut pile[slot..end]);
        at = next;
    }
    at
}

// Whether numbers are a count of pairs and exactly their places.
fn are_pairs(rest: &[i32]) -> bool
    ensures { result ≡ are_pairs rest.now }
{
    if rest.len() == 0 {
        return false;
    }
    match cells::sign_at(rest, 0) {
        Some(n) => rest.len() - 1 == 2 * n,
        None => false,
    }
}

// The records of each pair of places are exchanged; the lines of all pairs, and then the pile, go to the front of out; answers how many
// bytes they have.
fn answer_pairs(pairs: &[i32], pile: &mut [i32], work: &mut [i32], out: &mut [u8]) -> usize
    requires pairs_len { (length pairs.now % 2 ≡ 0) × (length work.old ≡ work_size) × (length pile.old ≤ list_limit * result_size) }
    requires pairs_in_bounds { 16 * length pairs.now + 524288 ≤ length out.old }
    ensures { Front (exchanges_text pile.old pairs.now) out.new result }
{
    let at = exchange_pairs(pairs, pile, work, out);
    write_pile(pile, out, at)
}

// The records of each pair of places are exchanged, and the lines of all pairs go to the front of out; answers how many bytes they have.
fn exchange_pairs(pairs: &[i32], pile: &mut [i32], work: &mut [i32], out: &mut [u8]) -> usize
    requires { (length pairs.now % 2 ≡ 0) × (length work.old ≡ work_size) × (16 * length pairs.now ≤ length out.old) }
    ensures { PairsWritten pile.old pairs.now pile.new out.new result }
{
    let mut at = 0;
    for k in 0..pairs.len() / 2 {
        let step = layout::exchange(pile, pairs[2 * k], pairs[2 * k + 1], work);
        let end = at + LINE;
        at += write_step(step, &mut out[at..end]);
    }
    at
}

// The line of an exchange goes to the front of out; answers how many bytes it has.
fn write_step(step: Result<(), Refusal>, out: &mut [u8]) -> usize
    requires { 32 ≤ length out.old }
    ensures { Front (step_text step) out.new result }
{
    match step {
        Ok(()) => record_text::write_bytes(b"made\n", out),
        Err(why) => record_text::write_refusal(why, out),
    }
}

// The lines of all slots of a pile go to a place of out; answers the place behind them.
fn write_pile(pile: &[i32], out: &mut [u8], at: usize) -> usize
    requires { (at + 524288 ≤ length out.old) × (length pile.now ≤ list_limit * result_size) }
    ensures { Grown at (pile_text pile.now) out.old out.new result }
{
    let count = pile.len() / rules::RESULT_SIZE;
    let mut next = at;
    for i in 0..count {
        let slot = i * rules::RESULT_SIZE;
        let slot_end = slot + rules::RESULT_SIZE;
        let end = next + LINES;
        next += write_slot(&pile[slot..slot_end], &mut out[next..end]);
    }
    next
}

// The five lines of the record in a slot, or why there are none, go to the front of out; answers how many bytes they have.
fn write_slot(slot: &[i32], out: &mut [u8]) -> usize
    requires { 32768 ≤ length out.old }
    ensures { Front (slot_text slot.now) out.new result }
{
    if !records::sound(slot) {
        return record_text::write_refusal(Refusal::Unsound, out);
    }
    record_text::write_layout(slot, out)
}

// The lent buffers: filled with a pattern before a call and looked at after it.
use rules::Refusal;

// The number at a place of the pattern; never 0.
fn pattern(i: usize) -> i32 {
    cells::whole(i % 1024 + 1)
}

// The pattern goes to the whole of a buffer.
pub fn fill(s: &mut [i32]) {
    for (i, z) in s.iter_mut().enumerate() {
        *z = pattern(i);
    }
}

// Whether the pattern stands from a place on.
pub fn unchanged(s: &[i32], from: usize) -> bool {
    (from..s.len()).all(|i| s[i] == pattern(i))
}

// Whether the first n numbers are there and are zeros.
fn all_zero(s: &[i32], n: usize) -> bool {
    s.get(..n)
        .is_some_and(|front| front.iter().all(|z| *z == 0))
}

// How many numbers at the front of a working buffer are to be zeros after a call.
fn cleared(answer: Result<usize, Refusal>) -> usize {
    match answer {
        Err(Refusal::OverCount | Refusal::ShortBuffer) => 0,
        _ => rules::WORK_SIZE,
    }
}

// Whether a working buffer is as a call has to leave it.
pub fn left_well(answer: Result<usize, Refusal>, work: &[i32]) -> bool {
    let n = cleared(answer);
    all_zero(work, n) && unchanged(work, n)
}

// Numbers in lent slices: read, tested, stored, copied and cleared. The only crate that knows that they are signed: all above
// reads a slice through its view.
#![tactic(auto)]

ghost use Rattle.std.specs.Prelude.{◌⊎◌, ◌≡◌, ◌+◌, ◌-◌, ◌^◌, ◌<◌, ◌≤◌, eqb, ltb, pos, ◌-ℤ◌, length, get_or, set};
ghost use Rattle.rules.specs.Buffers.{part, over, put, zeros};
ghost use Rattle.cells.specs.View.{view, sign_of, size_of, cmp_numbers};

use std::cmp::Ordering;

// What the view of a slice has at a place: the number there, or a negative one's code.
pub fn get(s: &[i32], at: usize) -> usize
    requires { at < length s.now }
    ensures { (result ≡ get_or (view s.now) at 0) × (result < 2 ^ 32) }
{
    let number = s[at];
    if number < 0 {
        let below = -1 - number;
        return below as usize + 2147483648;
    }
    number as usize
}

// The number at a place that is known to be natural.
pub fn low(s: &[i32], at: usize) -> usize
    requires at_in_bounds { at < length s.now }
    requires at_bound { get_or (view s.now) at 0 < 2 ^ 31 }
    ensures { result ≡ get_or (view s.now) at 0 }
{
    s[at] as usize
}

// Whether a number is natural, and then which.
pub fn sign_of(x: i32) -> Option<usize>
    ensures is { result ≡ sign_of x }
    ensures small { size_of result < 2 ^ 31 }
{
    if x < 0 {
        return None;
    }
    Some(x as usize)
}

// Whether the number at a place is natural, and then which.
pub fn sign_at(s: &[i32], at: usize) -> Option<usize>
    requires { at < length s.now }
    ensures is { result ≡ sign_of (get_or s.now at (pos 0)) }
    ensures small { size_of result < 2 ^ 31 }
{
    sign_of(s[at])
}

// r less d, exact where d is negative too.
pub fn less_by(r: usize, d: i32) -> Option<usize>
    requires { r < 2 ^ 31 }
    ensures is { result ≡ sign_of (pos r -ℤ d) }
    ensures small { size_of result < 2 ^ 32 }
{
    if d < 0 {
        let below = -1 - d;
        return Some(r + 1 + below as usize);
    }
    let n = d as usize;
    if r < n {
        return None;
    }
    Some(r - n)
}

// A natural number as a slice holds it.
pub fn whole(n: usize) -> i32
    requires { n < 2 ^ 31 }
    ensures { result ≡ pos n }
{
    n as i32
}

// The natural number v goes to a place.
pub fn store(s: &mut [i32], at: usize, v: usize)
    requires { (at < length s.old) × (v < 2 ^ 31) }
    ensures { s.new ≡ set s.old at (pos v) }
{
    s[at] = v as i32;
}

// The number at a place of s goes to a place of t.
pub fn copy_at(t: &mut [i32], at: usize, s: &[i32], from: usize)
    requires { (at < length t.old) × (from < length s.now) }
    ensures { t.new ≡ set t.old at (get_or s.now from (pos 0)) }
{
    t[at] = s[from];
}

// How the number at i of s compares with the one at j of t, both natural.
pub fn cmp(s: &[i32], i: usize, t: &[i32], j: usize) -> Ordering
    requires i_in_bounds { (i < length s.now) × (j < length t.now) }
    requires i_bound { (get_or (view s.now) i 0 < 2 ^ 31) × (get_or (view t.now) j 0 < 2 ^ 31) }
    ensures { result ≡ cmp_numbers (get_or (view s.now) i 0) (get_or (view t.now) j 0) }
{
    s[i].cmp(&t[j])
}

// Whether the number at i of s, which is natural, is below what the view of t has at j: every natural number is below a
// negative one's code.
pub fn below(s: &[i32], i: usize, t: &[i32], j: usize) -> bool
    requires i_in_bounds { (i < length s.now) × (j < length t.now) }
    requires i_bound { get_or (view s.now) i 0 < 2 ^ 31 }
    ensures { result ≡ ltb (get_or (view s.now) i 0) (get_or (view t.now) j 0) }
{
    let x = s[i];
    let y = t[j];
    x < y || y < 0
}

// Whether the number at i of s is the one at j of t.
pub fn same(s: &[i32], i: usize, t: &[i32], j: usize) -> bool
    requires { (i < length s.now) × (j < length t.now) }
    ensures { result ≡ eqb (get_or (view s.now) i 0) (get_or (view t.now) j 0) }
{
    s[i] == t[j]
}

// The numbers of src go to the front of dst; those behind them stay.
pub fn copy(src: &[i32], dst: &mut [i32])
    requires { length src.now ≤ length dst.old }
    ensures { dst.new ≡ over src.now dst.old }
{
    dst[..src.len()].copy_from_slice(src);
}

// The numbers of src go into dst from a place on; all others stay.
pub fn copy_into(src: &[i32], dst: &mut [i32], at: usize)
    requires { at + length src.now ≤ length dst.old }
    ensures { dst.new ≡ put at src.now dst.old }
{
    dst[at..at + src.len()].copy_from_slice(src);
}

// The n numbers at a place of src go into dst from a place on, without a loop where they are at most three.
// Stays so, since it is quicker: with `copy_from_slice` alone, 320 calls of `put_row` take 119,518 instructions, not 117,726.
pub fn copy_row(src: &[i32], from: usize, dst: &mut [i32], to: usize, n: usize)
    requires { (from + n ≤ length src.now) × (to + n ≤ length dst.old) }
    ensures { dst.new ≡ put to (part from n src.now) dst.old }
{
    if 3 < n {
        for i in 0..n {
            dst[to + i] = src[from + i];
        }
        return;
    }
    if n == 0 {
        return;
    }
    dst[to] = src[from];
    if n == 1 {
        return;
    }
    dst[to + 1] = src[from + 1];
    if n == 2 {
        return;
    }
    dst[to + 2] = src[from + 2];
}

// n numbers go from one place of a slice to another, where the two parts have nothing in common.
pub fn move_part(s: &mut [i32], from: usize, to: usize, n: usize)
    requires n_in_bounds { (from + n ≤ length s.old) × (to + n ≤ length s.old) }
    requires fact { (from + n ≤ to) ⊎ (to + n ≤ from) }
    ensures { s.new ≡ put to (part from n s.old) s.old }
{
    for i in 0..n {
        s[to + i] = s[from + i];
    }
}

// The same of at most five numbers, without a loop.
// Stays so, since it is quicker: with `for i in 0..n`, ten merges of two tables take 71,065 instructions, not 46,879.
pub fn move_row(s: &mut [i32], from: usize, to: usize, n: usize)
    requires n_in_bounds { (from + n ≤ length s.old) × (to + n ≤ length s.old) }
    requires fact { (from + n ≤ to) ⊎ (to + n ≤ from) }
    requires n_bound { n ≤ 5 }
    ensures { s.new ≡ put to (part from n s.old) s.old }
{
    if n == 0 {
        return;
    }
    s[to] = s[from];
    if n == 1 {
        return;
    }
    s[to + 1] = s[from + 1];
    if n == 2 {
        return;
    }
    s[to + 2] = s[from + 2];
    if n == 3 {
        return;
    }
    s[to + 3] = s[from + 3];
    if n == 4 {
        return;
    }
    s[to + 4] = s[from + 4];
}

// The numbers from a up to e move w places up, the last one first.
pub fn shift_up(s: &mut [i32], a: usize, e: usize, w: usize)
    requires { (a ≤ e) × (e + w ≤ length s.old) }
    ensures { s.new ≡ put (a + w) (part a (e - a) s.old) s.old }
{
    for k in (a..e).rev() {
        s[k + w] = s[k];
    }
}

// The first n numbers become zeros; those behind them stay.
pub fn clear(s: &mut [i32], n: usize)
    requires { n ≤ length s.old }
    ensures { s.new ≡ over (zeros n) s.old }
{
    s[..n].fill(0);
}

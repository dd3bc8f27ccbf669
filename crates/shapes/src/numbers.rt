// Numbers among the arguments of a call.
ghost use Rattle.std.specs.Prelude.{◌≡◌, ◌<◌, ◌≤◌, ◌^◌, pos, get_or};
ghost use Rattle.rules.specs.Record.{natural, list_count};
ghost use Rattle.rules.specs.Arguments.{up_to, over_count, good_components, good_index};
ghost use Rattle.rules.specs.Lookup.{good_indices};
ghost use Rattle.shapes.specs.Judged.{comparable_indices};

// The number at a place: 0 where it is negative or nothing stands there.
pub fn natural_at(s: &[i32], at: usize) -> usize
    ensures { (result ≡ natural (get_or s.now at (pos 0))) × (result < 2 ^ 31) }
{
    if s.len() <= at {
        return 0;
    }
    match cells::sign_at(s, at) {
        Some(n) => n,
        None => 0,
    }
}

// Whether a count of things in a list is outside 0..16.
pub fn over_count(count: i32) -> bool
    ensures { result ≡ over_count count }
{
    match cells::sign_of(count) {
        Some(n) => 16 < n,
        None => true,
    }
}

// How many things a list has: none where its count is refused.
pub fn list_count(count: i32) -> usize
    ensures { result ≡ list_count count }
{
    match cells::sign_of(count) {
        Some(n) => { if n <= 16 { n } else { 0 } }
        None => 0,
    }
}

// Whether the number at a place is between 0 and a limit; where nothing stands, it is 0.
pub fn up_to(s: &[i32], at: usize, limit: usize) -> bool
    ensures { result ≡ up_to limit (get_or s.now at (pos 0)) }
{
    if s.len() <= at {
        return true;
    }
    match cells::sign_at(s, at) {
        Some(n) => n <= limit,
        None => false,
    }
}

// Whether all numbers are components.
pub fn good_components(s: &[i32]) -> bool
    ensures { result ≡ good_components s.now }
{
    for k in 0..s.len() {
        if !up_to(s, k, 65535) {
            return false;
        }
    }
    true
}

// Whether the numbers are an index of so many components.
pub fn good_index(s: &[i32], n: usize) -> bool
    ensures { result ≡ good_index s.now n }
{
    s.len() == n && good_components(s)
}

// Whether a count is one of indices, and the numbers are so many, of r components each.
pub fn good_indices(s: &[i32], n: usize, r: usize) -> bool
    requires { r ≤ 4 }
    ensures { result ≡ good_indices (pos n) s.now r }
{
    if rules::RESULT_SIZE < n {
        return false;
    }
    if s.len() != n * r {
        return false;
    }
    good_components(s)
}

// Whether two indices can be compared: of one length up to 4, and all their numbers components.
pub fn comparable(a: &[i32], b: &[i32]) -> bool
    ensures { result ≡ comparable_indices a.now b.now }
{
    a.len() == b.len() && a.len() <= 4 && good_components(a) && good_components(b)
}

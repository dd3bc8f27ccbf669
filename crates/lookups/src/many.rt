// Many indices looked up in one sound and ordered record.
ghost use Rattle.std.specs.Prelude.{◌≡◌, true, ◌≤◌, length};
ghost use Rattle.rules.specs.Buffers.{over};
ghost use Rattle.rules.specs.Record.{layout_in, ordered};
ghost use Rattle.rules.specs.Lookup.{places_of};
ghost use Rattle.records.specs.Sound.{SoundRecord};
ghost use Rattle.lookups.specs.Indices.{PlaceLow, number_in, Indices};

use super::lookup::find;
use rules::Head;

// What stands for the answer of a lookup: its place, or -1 where it finds nothing.
fn number_of(place: Option<usize>) -> i32
    requires { PlaceLow place }
    ensures { result ≡ number_in place }
{
    match place {
        Some(p) => cells::whole(p),
        None => -1,
    }
}

// Where a record has each of n indices, end to end: a number for each goes to the front of the result.
#[tactic(auto, using(crate::proofs::FindingAll::looks))]
pub fn find_all(s: &[i32], head: Head, n: usize, indices: &[i32], res: &mut [i32])
    requires sound_record { SoundRecord head s.now }
    requires s_value { ordered s.now ≡ true }
    requires indices { Indices n head.rank indices.now }
    requires n_in_bounds { n ≤ length res.old }
    ensures { res.new ≡ over (places_of (layout_in s.now) head.rank n indices.now) res.old }
{
    for i in 0..n {
        let at = i * head.rank;
        let end = at + head.rank;
        res[i] = number_of(find(s, head, &indices[at..end]));
    }
}

// What is judged of the records of a list: whether one has too many axes, and whether all are sound.
ghost use Rattle.std.specs.Prelude.{◌≡◌, true};
ghost use Rattle.rules.specs.Lists.{all, any};
ghost use Rattle.rules.specs.Record.{sound};
ghost use Rattle.rules.specs.Arguments.{over_record};
ghost use Rattle.lists.specs.Places.{standing, Inside, EachAt};
ghost use Rattle.lists.specs.Records.{JudgedRecord};

use super::asks::{Ask, all_pass};
use super::walking::{Places, moved};

// Whether one of the records has more than 4 axes.
pub fn over_axes(list: &[i32], records: &Places) -> bool
    requires { Inside records.now.count records.now.at list.now }
    ensures { result ≡ any over_record (standing records.now.count records.now.at list.now) }
{
    let shapes = moved(list, records, records::RANK);
    !all_pass(Ask::FewAxes, list, &shapes)
}

// Whether the record at each of the places is sound; if so, each of them is readable.
pub fn all_sound(s: &[i32], places: &Places) -> bool
    requires { Inside places.now.count places.now.at s.now }
    ensures is { result ≡ all sound (standing places.now.count places.now.at s.now) }
    ensures known { result ≡ true → EachAt JudgedRecord places.now.count places.now.at s.now }
{
    for i in 0..places.count {
        let at = places.at[i];
        let Some(_) = records::sound_head(&s[at..]) else {
            return false;
        };
    }
    true
}

// Refusals as the numbers that callers know them by.
ghost use Rattle.std.specs.Prelude.{◌≡◌, pos};
ghost use Rattle.rules.specs.Refusals.{number_of};

use rules::Refusal;

// The number of a refusal. Stays a function, and no `From`: docs/CONTRACTS.md names it as public.
pub fn number_of(reason: Refusal) -> i32
    ensures { result ≡ pos (number_of reason) }
{
    match reason {
        Refusal::OverCount => 1,
        Refusal::ShortBuffer => 2,
        Refusal::Unsound => 3,
        Refusal::Unordered => 4,
        Refusal::WrongArgument => 5,
        Refusal::ShapesDisagree => 6,
        Refusal::ScalarContracted => 7,
        Refusal::NoPermutation => 8,
        Refusal::SparseDivisor => 9,
        Refusal::Unjoinable => 10,
        Refusal::DenseAxes => 11,
        Refusal::MadeUnsound => 12,
        Refusal::MadeTooLarge => 13,
    }
}

// Words of a line: a text in two at its first space.
#![tactic(auto)]

ghost use Rattle.std.specs.Prelude.{◌≡◌, Some, None, MatchOption};
ghost use Rattle.words.specs.Splits.{parted};

// What stands before the first space of a text, and what stands behind it; `None` where it has no space.
pub fn parts(text: &str) -> Option<(&str, &str)>
    ensures { MatchOption result (parted text.now ≡ None) (λ p. parted text.now ≡ Some (p.0.now, p.1.now)) }
{
    text.split_once(' ')
}

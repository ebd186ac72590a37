// The worked figures of the library, proved together.
#![tactic(auto)]

ghost use Rattle.std.specs.Prelude.{◌≡◌};
ghost use Rattle.figures.specs.Figures.{Figures, example_output};

// What sheetseal prints for its worked example. The second clause is the theorem on all worked figures, of which that example is one:
// each follows from the rule that defines it.
pub fn worked_example() -> &'static [u8]
    ensures value { result.now ≡ example_output }
    ensures figures { Figures }
{
    b"000000000000000000000010000010\n\n00000000000000000000000000000002\n80000000000000000000000000000009\n"
}

// What a refusal is to whoever reads it: a number, and the values that it tells.
#![tactic(auto)]

ghost use Rattle.std.specs.Prelude.{◌≡◌};
ghost use Rattle.refusals.specs.Answers.{Told};

// A fault that has its number among the refusals.
pub trait Refusal {
    // the number, and the values that are told with it
    ghost told: { Self → Told };

    fn number(&self) -> u8
        ensures { result ≡ (told self.now).0 };
}

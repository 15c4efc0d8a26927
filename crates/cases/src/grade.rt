// A kind of 256 decisions, the most that there may be: each is its number.
ghost use Rattle.std.specs.Prelude.{◌≡◌, true, nat_lt, refl};
ghost use Rattle.rules.proofs.Making.{same_test};
ghost use Rattle.std.proofs.lemmas.Bool.{lt-ltb};
ghost use Rattle.std.proofs.Common.{rules};

use rules::decline::Decline;
use rules::kind::DecisionKind;

#[derive(Clone, Copy, PartialEq, Eq, Debug)]
pub(crate) struct Grade {
    value: u8,
    ghost ranged: { nat_lt value 256 ≡ true },
}

impl DecisionKind for Grade {
    ghost count = { 256 };

    ghost number = { λ d. d.value };

    const COUNT: usize = 256;

    ghost COUNT = { 256 };

    ghost told = { Prim.search rules };

    ghost counted = { Prim.search rules };

    ghost numbered = { Prim.search rules };

    // A grade is no more than its number.
    ghost determined = { λ d e h i. record { value = h i; ranged = same_test (λ j. nat_lt (h j) 256) d.ranged e.ranged i } };

    ghost reached = { λ n h. (record { value = n; ranged = lt-ltb n 256 h }, refl) };

    fn number(&self) -> u8 {
        self.value
    }

    fn make(given: u32) -> Result<Grade, Decline> {
        let value = u8::try_from(given).map_err(|_| Decline::NotOfKind)?;
        Ok(Grade { value })
    }
}

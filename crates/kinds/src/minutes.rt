// For how many minutes a command is permitted: 1 to 240.
ghost use Rattle.std.specs.Prelude.{◌≡◌, true, [], ◌∷◌};
ghost use Rattle.rules.specs.Intervals.{inside, from_to};
ghost use Rattle.rules.specs.Kinds.{MadeFrom};

use rules::decline::Decline;

#[derive(Clone, Copy, PartialEq, Eq, Debug)]
pub struct Minutes {
    value: u8,
    ghost ranged: { inside (from_to 1 240) value ≡ true },
}

impl Minutes {
    // Declined 9 where it is none of 1 to 240.
    pub fn new(given: u32) -> Result<Minutes, Decline>
        ensures { MadeFrom (from_to 1 240 ∷ []) (λ m. m.value ∷ []) (given ∷ []) result }
    {
        if !(1..=240).contains(&given) {
            return Err(Decline::NotOfKind);
        }
        // The cast keeps the value, by the test above.
        Ok(Minutes { value: given as u8 })
    }

    pub fn value(&self) -> u8
        ensures { result ≡ self.now.value }
    {
        self.value
    }
}

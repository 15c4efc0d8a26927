// A kind of request of one field, a button numbered 7 to 9, and a kind of one decision.
ghost use Rattle.std.specs.Prelude.{◌≡◌, true, [], ◌∷◌, slice_index};
ghost use Rattle.std.proofs.Common.{rules};
ghost use Rattle.rules.specs.Intervals.{within, from_to};
ghost use Rattle.rules.proofs.Making.{same_test};

use rules::decline::Decline;
use rules::interval::{Interval, of_field};
use rules::kind::{DecisionKind, RequestKind};

#[derive(Clone, Copy, PartialEq, Eq, Debug)]
pub(crate) struct Button {
    number: u8,
    ghost ranged: { within (from_to 7 9 ∷ []) (number ∷ []) ≡ true },
}

impl RequestKind for Button {
    ghost ranges = { from_to 7 9 ∷ [] };

    ghost values = { λ q. q.number ∷ [] };

    const FIELDS: usize = 1;

    ghost FIELDS = { 1 };

    ghost counted = { Prim.search rules };

    ghost ranged = { Prim.search rules };

    ghost valued = { Prim.search rules };

    // A button is no more than its value.
    ghost determined = { λ p q e i. record {
      number = slice_index (e i) 0;
      ranged = same_test (λ j. within (from_to 7 9 ∷ []) (slice_index (e j) 0 ∷ [])) p.ranged q.ranged i;
    } };

    fn range(field: usize) -> Option<Interval> {
        of_field(&[Interval { lower: 7, upper: 9 }], field)
    }

    fn value(&self, field: usize) -> Option<u32> {
        match field {
            1 => Some(u32::from(self.number)),
            _ => None,
        }
    }

    fn make(given: &[u32]) -> Result<Button, Decline> {
        match given {
            // The cast keeps it, by the pattern.
            [number @ 7..=9] => Ok(Button {
                number: *number as u8,
            }),
            _ => Err(Decline::NotOfKind),
        }
    }
}

#[derive(Clone, Copy, PartialEq, Eq, Debug)]
pub(crate) enum Never {
    Refused,
}

impl DecisionKind for Never {
    ghost count = { 1 };

    ghost number = { λ _. 0 };

    const COUNT: usize = 1;

    ghost COUNT = { 1 };

    ghost told = { Prim.search rules };

    ghost counted = { Prim.search rules };

    ghost numbered = { Prim.search rules };

    ghost determined = { Prim.search rules };

    ghost reached = { Prim.search rules };

    fn number(&self) -> u8 {
        0
    }

    fn make(given: u32) -> Result<Never, Decline> {
        match given {
            0 => Ok(Never::Refused),
            _ => Err(Decline::NotOfKind),
        }
    }
}

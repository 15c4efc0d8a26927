// A kind of request of six fields, the most that there may be: readings of six sensors.
// One range is all numbers of 32 bits, one is a single value.
ghost use Rattle.std.specs.Prelude.{◌≡◌, ℕ, true, List, [], ◌∷◌, slice_index_or};
ghost use Rattle.std.proofs.Common.{rules};
ghost use Rattle.rules.specs.Intervals.{within, from_to};
ghost use Rattle.cases.specs.Readings.{reading_ranges};
ghost use Rattle.rules.proofs.Making.{same_test};

use rules::decline::Decline;
use rules::interval::{Interval, of_field, within};
use rules::kind::RequestKind;

// The range of each field, in order.
const RANGES: [Interval; 6] = [
    Interval {
        lower: 0,
        upper: 4294967295,
    },
    Interval { lower: 5, upper: 5 },
    Interval { lower: 0, upper: 1 },
    Interval {
        lower: 10,
        upper: 20,
    },
    Interval {
        lower: 4294967294,
        upper: 4294967295,
    },
    Interval {
        lower: 1,
        upper: 1000,
    },
];

#[derive(Clone, Copy, PartialEq, Eq, Debug)]
pub(crate) struct Reading {
    a: u32,
    b: u32,
    c: u32,
    d: u32,
    e: u32,
    f: u32,
    ghost ranged: { within reading_ranges (a ∷ b ∷ c ∷ d ∷ e ∷ f ∷ []) ≡ true },
}

impl RequestKind for Reading {
    ghost ranges = { reading_ranges };

    ghost values = { λ q. q.a ∷ q.b ∷ q.c ∷ q.d ∷ q.e ∷ q.f ∷ [] };

    const FIELDS: usize = 6;

    ghost FIELDS = { 6 };

    ghost counted = { Prim.search rules };

    ghost ranged = { Prim.search rules };

    ghost valued = { Prim.search rules };

    // A reading is no more than its values.
    ghost determined = { λ p q h.
        let at : ℕ → List ℕ → ℕ = λ k vs. slice_index_or vs k 0 in
        λ i. record {
          a = at 0 (h i);
          b = at 1 (h i);
          c = at 2 (h i);
          d = at 3 (h i);
          e = at 4 (h i);
          f = at 5 (h i);
          ranged = same_test (λ j. within reading_ranges (at 0 (h j) ∷ at 1 (h j) ∷ at 2 (h j) ∷ at 3 (h j) ∷ at 4 (h j) ∷ at 5 (h j) ∷ [])) p.ranged q.ranged i;
        } };

    fn range(field: usize) -> Option<Interval> {
        of_field(&RANGES, field)
    }

    fn value(&self, field: usize) -> Option<u32> {
        match field {
            1 => Some(self.a),
            2 => Some(self.b),
            3 => Some(self.c),
            4 => Some(self.d),
            5 => Some(self.e),
            6 => Some(self.f),
            _ => None,
        }
    }

    fn make(given: &[u32]) -> Result<Reading, Decline> {
        let [a, b, c, d, e, f] = given else {
            return Err(Decline::NotOfKind);
        };
        if !within(&RANGES, given) {
            return Err(Decline::NotOfKind);
        }
        Ok(Reading {
            a: *a,
            b: *b,
            c: *c,
            d: *d,
            e: *e,
            f: *f,
        })
    }
}

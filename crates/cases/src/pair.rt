// A kind of request made of another kind, whatever that is: two values, each of its first field, as the codes of two keypads.
// Its ranges are no table: it asks the other kind for them.
ghost use Rattle.std.specs.Prelude.{◌≡◌, true, [], ◌∷◌, slice_index};
ghost use Rattle.rules.specs.Intervals.{within};
ghost use Rattle.rules.proofs.Making.{same_test};
ghost use Rattle.cases.specs.Pairs.{pair_ranges, pair_counted, pair_lawful};

use rules::decline::Decline;
use rules::interval::Interval;
use rules::kind::RequestKind;
use std::marker::PhantomData;

#[derive(Drop)]
pub(crate) struct Pair<Q: RequestKind> {
    one: u32,
    other: u32,
    kind: PhantomData<Q>,
    ghost ranged: { within (pair_ranges Q.ranges) (one ∷ other ∷ []) ≡ true },
}

impl<Q: RequestKind> RequestKind for Pair<Q> {
    ghost ranges = { pair_ranges Q.ranges };

    ghost values = { λ q. q.one ∷ q.other ∷ [] };

    const FIELDS: usize = 2;

    ghost FIELDS = { 2 };

    ghost counted = { pair_counted Q.ranges };

    ghost ranged = { pair_lawful Q.ranges Q.ranged };

    ghost valued = { λ q. q.ranged };

    // A pair is no more than its two values.
    ghost determined = { λ p q e i. record {
      one = slice_index (e i) 0;
      other = slice_index (e i) 1;
      kind = q.kind;
      ranged = same_test (λ j. within (pair_ranges Q.ranges) (slice_index (e j) 0 ∷ slice_index (e j) 1 ∷ [])) p.ranged q.ranged i;
    } };

    fn range(field: usize) -> Option<Interval> {
        match field {
            1 | 2 => Q::range(1),
            _ => None,
        }
    }

    fn value(&self, field: usize) -> Option<u32> {
        match field {
            1 => Some(self.one),
            2 => Some(self.other),
            _ => None,
        }
    }

    fn make(given: &[u32]) -> Result<Pair<Q>, Decline> {
        let [one, other] = given else {
            return Err(Decline::NotOfKind);
        };
        let Some(range) = Q::range(1) else {
            return Err(Decline::NotOfKind);
        };
        if !range.holds(*one) || !range.holds(*other) {
            return Err(Decline::NotOfKind);
        }
        Ok(Pair {
            one: *one,
            other: *other,
            kind: PhantomData,
        })
    }
}

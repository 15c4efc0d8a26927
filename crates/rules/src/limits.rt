// The ranges and the decision count of a kind of request and a kind of decision, as plain numbers.
// A table keeps a copy of them, and judges gather them anew from the kinds that they serve.
ghost use Rattle.std.specs.Prelude.{◌≡◌, ◌-◌, ◌≤◌, true, length, take, drop, replicate};
ghost use Rattle.rules.specs.Intervals.{forward, every, from_to};

use crate::interval::Interval;
use crate::kind::{DecisionKind, RequestKind};
use crate::rule::Clauses;
use std::array;

// An array and how many of it count: a table keeps the ranges as numbers of its own, in fixed memory, and not a borrow of its kind's.
#[derive(Clone, Copy, PartialEq, Eq, Debug)]
pub struct Limits {
    ranges: [Interval; 6],
    fields: usize,
    decisions: usize,
    ghost some: { 1 ≤ fields },
    ghost few: { fields ≤ 6 },
    ghost run: { every forward (take fields ranges) ≡ true },
    ghost decided: { 1 ≤ decisions },
    ghost bounded: { decisions ≤ 256 },
}

// The clauses of a rule that matches every request of the kind: its ranges, from the start of the array, and 0 to 0 past them.
pub fn whole_ranges<Q: RequestKind>() -> Clauses
    ensures own { take (length Q.RequestKind.ranges) result ≡ Q.RequestKind.ranges }
    ensures past { drop (length Q.RequestKind.ranges) result ≡ replicate (6 - length Q.RequestKind.ranges) (from_to 0 0) }
{
    array::from_fn(|k| Q::range(k + 1).unwrap_or(Interval { lower: 0, upper: 0 }))
}

impl Limits {
    // The kinds' own limits.
    pub fn of<Q: RequestKind, D: DecisionKind>() -> Limits
        ensures ranges { take result.fields result.ranges ≡ Q.RequestKind.ranges }
        ensures decisions { result.decisions ≡ D.DecisionKind.count }
    {
        Limits {
            ranges: whole_ranges::<Q>(),
            fields: Q::field_count(),
            decisions: D::decision_count(),
        }
    }

    // The ranges of the fields, in order.
    pub fn ranges(&self) -> &[Interval]
        ensures value { result.now ≡ take self.now.fields self.now.ranges }
        ensures few { length result.now ≤ 6 }
    {
        &self.ranges[0..self.fields]
    }

    pub fn decisions(&self) -> usize
        ensures { result ≡ self.now.decisions }
    {
        self.decisions
    }
}

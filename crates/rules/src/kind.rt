// What a kind of request and a kind of decision are: the two interfaces and the laws that each kind proves.
// Judges, layers and drafts are written once over these laws, for every kind. Making and telling numbers are functions of the
// interfaces, and no `TryFrom` or `From`: so their contracts and the laws over them are stated once, here.
ghost use Rattle.std.specs.Prelude.{◌≡◌, ℕ, ◌<◌, ◌≤◌, true, List, length};
ghost use Rattle.rules.specs.declared.interval.Interval.{Interval as Span};
ghost use Rattle.rules.specs.Intervals.{within};
ghost use Rattle.rules.specs.Kinds.{LawfulRanges, of_field, MadeFrom, DecisionMade};

use crate::decline::Decline;
use crate::interval::Interval;

// One request, as a record. Fields are numbered from 1.
pub trait RequestKind: Drop + Sized {
    // The range of each field, in order, and the values that a request bears, in the same order.
    ghost ranges: { List Span };

    ghost values: { Self → List ℕ };

    // How many fields there are; the ghost member of that name is for contracts.
    const FIELDS: usize;

    ghost FIELDS: { ℕ };

    // How many fields there are.
    fn field_count() -> usize
        ensures { result ≡ length ranges }
    {
        Self::FIELDS
    }

    // The range of a field, or None where there is no such field. Where the ranges are a table, `interval::of_field` looks it up.
    // No table is asked for: a kind made of other kinds, or of a const parameter, may have none that lives as long as the program.
    fn range(field: usize) -> Option<Interval>
        ensures { result ≡ of_field ranges field };

    // The value of a field, or None where there is no such field.
    fn value(&self, field: usize) -> Option<u32>
        ensures { result ≡ of_field (values self.now) field };

    // The request that bears these values; declined 9 where no request does.
    fn make(given: &[u32]) -> Result<Self, Decline>
        ensures { MadeFrom ranges values given.now result };

    // FIELDS counts the fields.
    ghost counted: { FIELDS ≡ length ranges };

    // One to six fields, each range running forward and below 2^32.
    ghost ranged: { LawfulRanges ranges };

    // A request bears a value for each field, in the field's range.
    ghost valued: { (q : Self) → within ranges (values q) ≡ true };

    // A request is no more than its values, so making it from the values that it tells gives it back.
    ghost determined: { (p q : Self) → values p ≡ values q → p ≡ q };
}

// One decision. Numbers run from 0, the strictest, which is called refused.
pub trait DecisionKind: Drop + Sized {
    // How many decisions there are, and the number of each.
    ghost count: { ℕ };

    ghost number: { Self → ℕ };

    // How many decisions there are; the ghost member of that name is for contracts.
    const COUNT: usize;

    ghost COUNT: { ℕ };

    // How many decisions there are.
    fn decision_count() -> usize
        ensures { result ≡ count }
    {
        Self::COUNT
    }

    fn number(&self) -> u8
        ensures { result ≡ number self.now };

    // The decision of this number; declined 9 where there is none.
    fn make(given: u32) -> Result<Self, Decline>
        ensures { DecisionMade count number given result };

    // COUNT counts the decisions.
    ghost told: { COUNT ≡ count };

    // One to 256 decisions.
    ghost counted: { (1 ≤ count) × (count ≤ 256) };

    ghost numbered: { (d : Self) → number d < count };

    ghost determined: { (d e : Self) → number d ≡ number e → d ≡ e };

    // Every number below the count is some decision's.
    ghost reached: { (n : ℕ) → n < count → ((d : Self) × (number d ≡ n)) };
}

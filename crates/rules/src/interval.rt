// An interval of numbers, both ends included: a field's range, or what a rule asks of a field.
ghost use Rattle.std.specs.Prelude.{◌≡◌};
ghost use Rattle.rules.specs.Clauses.{clause_decline};
ghost use Rattle.rules.specs.Declines.{declined};
ghost use Rattle.rules.specs.Intervals.{inside, within, cut_interval, from_to};
ghost use Rattle.rules.specs.Kinds.{of_field};

use crate::decline::Decline;

#[derive(Clone, Copy, PartialEq, Eq, Debug)]
pub struct Interval {
    pub lower: u32,
    pub upper: u32,
}

// Whether there are as many values as intervals, and each lies in its own.
pub fn within(intervals: &[Interval], values: &[u32]) -> bool
    ensures { result ≡ within intervals.now values.now }
{
    values.len() == intervals.len()
        && intervals
            .iter()
            .zip(values)
            .all(|(interval, value)| interval.holds(*value))
}

// What a table of ranges has for a field, fields being numbered from 1; None where there is no such field.
pub fn of_field(ranges: &[Interval], field: usize) -> Option<Interval>
    ensures { result ≡ of_field ranges.now field }
{
    ranges.get(field.checked_sub(1)?).copied()
}

impl Interval {
    // From one value to another, both included. Nothing is asked of the ends: where intervals are taken, they are checked.
    pub fn new(lower: u32, upper: u32) -> Interval
        ensures { result ≡ from_to lower upper }
    {
        Interval { lower, upper }
    }

    // Whether the value lies in the interval, its two ends included.
    pub fn holds(&self, value: u32) -> bool
        ensures { result ≡ inside self.now value }
    {
        (self.lower..=self.upper).contains(&value)
    }

    // The interval with each end moved to the nearest value of the range.
    pub fn cut(&self, range: &Interval) -> Interval
        ensures { result ≡ cut_interval range.now self.now }
    {
        let lower = range.lower.max(range.upper.min(self.lower));
        let upper = range.lower.max(range.upper.min(self.upper));
        Interval::new(lower, upper)
    }

    // Declined as a clause or a window on a field of this range: 5 where an end lies outside the range, the lower end first,
    // then 6 where the lower end lies above the upper.
    pub fn check_in(&self, range: &Interval) -> Result<(), Decline>
        ensures { declined result ≡ clause_decline range.now self.now }
    {
        if !range.holds(self.lower) {
            return Err(Decline::OutsideRange);
        }
        if !range.holds(self.upper) {
            return Err(Decline::OutsideRange);
        }
        if self.lower > self.upper {
            return Err(Decline::LowerAboveUpper);
        }
        Ok(())
    }
}

// A rule: an interval for each field, and the number of its decision.
// A rule has room for six fields; those past the kind's own are not asked. It is plain numbers, in fixed memory, for every
// kind alike: the number of a decision and not the decision, an array of six and no Vec.
ghost use Rattle.std.specs.Prelude.{◌≡◌, ◌-◌, ◌≤◌, min, length};
ghost use Rattle.rules.specs.Limits.{ranges_in};
ghost use Rattle.rules.specs.Intervals.{within};
ghost use Rattle.rules.specs.Rules.{cut_clauses};

use crate::interval::Interval;
use crate::limits::Limits;

// A clause for each field, in order, in fixed memory; those past the kind's fields are not asked.
pub type Clauses = [Interval; 6];

#[derive(Clone, Copy, PartialEq, Eq, Debug)]
pub struct Rule {
    pub clauses: Clauses,
    pub decision: u8,
}

// Whether each value lies in its clause, cut to its range.
fn all_hold(ranges: &[Interval], clauses: &[Interval], values: &[u32]) -> bool
    requires { length ranges.now ≤ length clauses.now }
    ensures { result ≡ within (cut_clauses ranges.now clauses.now) values.now }
{
    values.len() == ranges.len()
        && ranges
            .iter()
            .zip(clauses)
            .zip(values)
            .all(|((range, clause), value)| clause.cut(range).holds(*value))
}

impl Rule {
    // Whether the rule, cut to the limits, matches a request of these values.
    pub fn matches(&self, limits: &Limits, values: &[u32]) -> bool
        ensures { result ≡ within (cut_clauses (ranges_in limits.now) self.now.clauses) values.now }
    {
        all_hold(limits.ranges(), &self.clauses, values)
    }

    // The number of its decision, cut to the decisions that there are.
    pub fn cut_decision(&self, decisions: usize) -> u8
        ensures { result ≡ min self.now.decision (decisions - 1) }
    {
        let last = u8::try_from(decisions.saturating_sub(1)).unwrap_or(u8::MAX);
        self.decision.min(last)
    }
}

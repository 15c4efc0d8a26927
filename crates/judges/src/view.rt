// A table read as an edit would leave it, or as it is: no second table is built.
// Rules are read as kept and cut to the limits on the way.
ghost use Rattle.std.specs.Prelude.{◌≡◌, ℕ, ◌≤◌, false, length, MatchOption};
ghost use Rattle.rules.specs.Rules.{matches, rule_at};
ghost use Rattle.judges.specs.Matches.{FirstMatch, matching_set};
ghost use Rattle.judges.specs.Views.{Viewable, seen, source_of, count_under, decision_under};

use rules::limits::Limits;
use rules::rule::Rule;
use std::marker::Model;
use tables::edit::Edit;

// How many rules there are after the edit.
fn count_after(edit: Option<Edit<u8>>, count: usize) -> usize
    ensures { result ≡ count_under edit count }
{
    match edit {
        Some(Edit::Delete { .. }) => count.saturating_sub(1),
        _ => count,
    }
}

// The place before the edit of the rule that stands at this place after it.
fn source(edit: Option<Edit<u8>>, place: usize) -> usize
    requires { place ≤ 64 }
    ensures { result ≡ source_of edit place }
{
    match edit {
        Some(Edit::Swap { first, second }) if place == first => second,
        Some(Edit::Swap { first, second }) if place == second => first,
        Some(Edit::Delete { place: gone }) if place >= gone => place + 1,
        _ => place,
    }
}

// The number of the decision at a place after the edit, where the rule that stands there has this one.
fn decision_after(edit: Option<Edit<u8>>, place: usize, own: u8) -> u8
    ensures { result ≡ decision_under edit place own }
{
    match edit {
        Some(
            Edit::Change {
                place: changed,
                decision,
            },
        ) if place == changed => decision,
        _ => own,
    }
}

// The rules of a table, an edit that may be made of them, and the limits that they are cut to. A clause sees the rules that come of it.
#[derive(Drop)]
pub(crate) struct View<'a> {
    rules: &'a [Rule],
    edit: Option<Edit<u8>>,
    limits: Limits,
}

impl<'a> Model for View<'a> {
    ghost use Rattle.std.specs.Prelude.{List};
    ghost use Rattle.rules.specs.declared.rule.Rule.{Rule};
    ghost use Rattle.judges.specs.Views.{seen, Viewable};

    ghost Value = { List Rule };

    ghost view = { λ v. seen v.rules.now v.edit v.limits };

    ghost invariant = { λ v. Viewable v.rules.now v.edit v.limits };
}

impl<'a> View<'a> {
    pub(crate) fn new(rules: &'a [Rule], edit: Option<Edit<u8>>, limits: Limits) -> View<'a>
        requires { Viewable rules.now edit limits }
        ensures { result ≡ seen rules.now edit limits }
    {
        View {
            rules,
            edit,
            limits,
        }
    }

    // How many rules there are.
    fn count(&self) -> usize
        ensures all { result ≡ length self.now }
        ensures few { result ≤ 64 }
    {
        count_after(self.edit, self.rules.len())
    }

    // Whether the rule at a place matches. Inlined with the two below, it compares with the ranges of a known kind as constants.
    #[inline(always)]
    fn matches_at(&self, place: usize, values: &[u32]) -> bool
        requires { (1 ≤ place) × (place ≤ length self.now) }
        ensures { result ≡ matches (rule_at self.now place) values.now }
    {
        self.rules[source(self.edit, place) - 1].matches(&self.limits, values)
    }

    // The place of the first rule that matches, from the top; None where none does.
    // The range is not written 1..=: std has its lemma on `find` for a half-open range alone.
    #[inline(always)]
    pub(crate) fn first_match(&self, values: &[u32]) -> Option<usize>
        ensures { MatchOption result ((p : ℕ) → 1 ≤ p → p ≤ length self.now → matches (rule_at self.now p) values.now ≡ false) (FirstMatch self.now values.now) }
    {
        (1..self.count() + 1).find(|place| self.matches_at(*place, values))
    }

    // The matching set: bit p - 1 for the rule at place p. A `for` over the places: a fold that carries the set is no plainer.
    #[inline(always)]
    pub(crate) fn matching_set(&self, values: &[u32]) -> u64
        ensures { result ≡ matching_set self.now values.now }
    {
        let mut set = 0u64;
        for place in 1..=self.count() {
            if self.matches_at(place, values) {
                set |= 1 << (place - 1);
            }
        }
        set
    }

    // The number of the decision at a place.
    pub(crate) fn decision_at(&self, place: usize) -> u8
        requires { (1 ≤ place) × (place ≤ length self.now) }
        ensures { result ≡ (rule_at self.now place).decision }
    {
        let rule = &self.rules[source(self.edit, place) - 1];
        decision_after(self.edit, place, rule.cut_decision(self.limits.decisions()))
    }
}

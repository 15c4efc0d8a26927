// The rules of a draft or a table, the default last.
// Memory for 64 rules is claimed when the list is made, so that no later call can want it.
// The default is kept with the widest intervals there are: cut to any ranges, it is whole.
ghost use Rattle.std.specs.Prelude.{◌≡◌, ◌<◌, ◌≤◌, true, [], ◌∷◌, IfOk, vec_len, vec_capacity};
ghost use Rattle.rules.specs.Intervals.{every, wide};
ghost use Rattle.tables.specs.Edits.{edited, InPlace};
ghost use Rattle.rules.specs.Rules.{rule_at, forward_rule, above_default, default_rule};

use crate::edit::Edit;
use rules::interval::Interval;
use rules::rule::Rule;
use std::alloc::{AllocError, Global};

// The most rules that a list has, the default included.
pub(crate) const MAX_RULES: usize = 64;

#[derive(Drop)]
pub(crate) struct RuleList {
    pub(crate) rules: Vec<Rule>,
    ghost some: { 1 ≤ vec_len rules },
    ghost few: { vec_len rules ≤ 64 },
    ghost room: { 64 ≤ vec_capacity rules },
    ghost run: { every forward_rule rules.items ≡ true },
    ghost whole: { every wide (rule_at rules.items (vec_len rules)).clauses ≡ true },
}

impl RuleList {
    // The default alone.
    pub(crate) fn new(heap: Global, decision: u8) -> Result<RuleList, AllocError>
        ensures { IfOk result (λ l. l.rules.items ≡ default_rule decision ∷ []) }
    {
        let widest = Interval::new(0, u32::MAX);
        let mut rules = Vec::with_capacity(heap, MAX_RULES)?;
        rules.push_reserved(Rule {
            clauses: [widest; 6],
            decision,
        });
        Ok(RuleList { rules })
    }

    // One rule more, directly above the default.
    pub(crate) fn add(&mut self, rule: Rule)
        requires room { vec_len self.old.rules < 64 }
        requires run { forward_rule rule ≡ true }
        ensures { self.new.rules.items ≡ above_default self.old.rules.items rule }
    {
        let last = self.rules.len() - 1;
        self.rules.insert(last, rule).unwrap();
    }

    fn change(&mut self, place: usize, decision: u8)
        requires { (1 ≤ place) × (place ≤ vec_len self.old.rules) }
        ensures { self.new.rules.items ≡ edited self.old.rules.items (Edit.Change place decision) }
    {
        self.rules[place - 1].decision = decision;
    }

    fn swap(&mut self, first: usize, second: usize)
        requires { (1 ≤ first) × (first < second) × (second < vec_len self.old.rules) }
        ensures { self.new.rules.items ≡ edited self.old.rules.items (Edit.Swap first second) }
    {
        self.rules.swap(first - 1, second - 1);
    }

    fn delete(&mut self, place: usize)
        requires { (1 ≤ place) × (place < vec_len self.old.rules) }
        ensures { self.new.rules.items ≡ edited self.old.rules.items (Edit.Delete place) }
    {
        self.rules.remove(place - 1);
    }

    // An edit at places where the list takes it.
    pub(crate) fn apply(&mut self, edit: Edit<u8>)
        requires { InPlace (vec_len self.old.rules) edit }
        ensures { self.new.rules.items ≡ edited self.old.rules.items edit }
    {
        match edit {
            Edit::Change { place, decision } => self.change(place, decision),
            Edit::Swap { first, second } => self.swap(first, second),
            Edit::Delete { place } => self.delete(place),
        }
    }
}

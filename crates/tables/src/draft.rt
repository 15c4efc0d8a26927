// A draft: a table in the making. It starts with its default, takes rules above it, and is used up when it is closed.
ghost use Rattle.std.specs.Prelude.{◌≡◌, ◌≤◌, true, [], ◌∷◌, length, take, IfOk, IfErr, OnErr};
ghost use Rattle.tables.specs.Adding.{Added, clauses_decline};
ghost use Rattle.rules.specs.Declines.{declined};
ghost use Rattle.rules.specs.Intervals.{every, forward};
ghost use Rattle.rules.specs.Rules.{Lawful};
ghost use Rattle.tables.specs.Tables.{draft_rules, table_rules};

use crate::rule_list::{MAX_RULES, RuleList};
use crate::table::Table;
use rules::decline::Decline;
use rules::interval::Interval;
use rules::kind::{DecisionKind, RequestKind};
use rules::limits::Limits;
use rules::rule::{Clauses, Rule};
use std::alloc::Global;
use std::marker::PhantomData;

#[derive(Drop)]
pub struct Draft<Q, D> {
    // The table that it will be closed to.
    table: Table<Q, D>,
}

// Declined field by field. Clauses past the kind's fields are not asked. Inlined, it compares with the kind's ranges as constants.
#[inline(always)]
fn check_clauses(ranges: &[Interval], clauses: &[Interval]) -> Result<(), Decline>
    ensures { declined result ≡ clauses_decline ranges.now clauses.now }
{
    for (range, clause) in ranges.iter().zip(clauses) {
        clause.check_in(range)?;
    }
    Ok(())
}

// The clauses of the fields that there are, and none that runs backward behind them.
fn asked(clauses: &Clauses, fields: usize) -> Clauses
    requires within { fields ≤ 6 }
    requires run { every forward (take fields clauses.now) ≡ true }
    ensures same { take fields result ≡ take fields clauses.now }
    ensures run { every forward result ≡ true }
{
    let mut front = [Interval { lower: 0, upper: 0 }; 6];
    front[..fields].copy_from_slice(&clauses[..fields]);
    front
}

impl<Q: RequestKind, D: DecisionKind> Draft<Q, D> {
    // A draft of the default alone, which matches every request. All the memory that it will need is claimed here:
    // declined 99 where there is not enough.
    #[tactic(auto, using(crate::proofs::Cuts::default_cut))]
    pub fn new(heap: Global, default: D) -> Result<Draft<Q, D>, Decline>
        ensures rules { IfOk result (λ draft. draft_rules Q.RequestKind.ranges D.DecisionKind.count draft ≡ record { clauses = Q.RequestKind.ranges; decision = D.DecisionKind.number default } ∷ []) }
        ensures wants { IfErr result (λ decline. decline ≡ Decline.NoMemory) }
    {
        let list = RuleList::new(heap, default.number())?;
        let table = Table {
            limits: Limits::of::<Q, D>(),
            list,
            kinds: PhantomData,
        };
        Ok(Draft { table })
    }

    // Adds a rule directly above the default. Clauses past the kind's fields are not asked.
    // Declined 7 where there are 63 rules already, then field by field 5 and 6; the draft is then as it was.
    pub fn add(&mut self, clauses: Clauses, decision: D) -> Result<(), Decline>
        ensures added { Added Q.RequestKind.ranges (draft_rules Q.RequestKind.ranges D.DecisionKind.count self.old) clauses (D.DecisionKind.number decision) (declined result) (draft_rules Q.RequestKind.ranges D.DecisionKind.count self.new) }
        ensures same { OnErr result (self.new ≡ self.old) }
    {
        if self.table.count() >= MAX_RULES {
            return Err(Decline::Full);
        }
        let own = Limits::of::<Q, D>();
        let ranges = own.ranges();
        check_clauses(ranges, &clauses)?;
        self.table.list.add(Rule {
            clauses: asked(&clauses, ranges.len()),
            decision: decision.number(),
        });
        Ok(())
    }

    // The table of the draft's rules. It is never declined.
    pub fn close(self) -> Table<Q, D>
        ensures rules { table_rules Q.RequestKind.ranges D.DecisionKind.count result ≡ draft_rules Q.RequestKind.ranges D.DecisionKind.count self }
        ensures lawful { Lawful Q.RequestKind.ranges D.DecisionKind.count (table_rules Q.RequestKind.ranges D.DecisionKind.count result) }
    {
        let Draft { table } = self;
        table
    }
}

// A table: the rules of a closed draft. It belongs to one kind of request and one kind of decision.
// It is moved, so that a table stands under one judge at most.
ghost use Rattle.std.specs.Prelude.{◌≡◌, length};
ghost use Rattle.rules.specs.Declines.{declined};
ghost use Rattle.tables.specs.Edits.{Edited, Told, plain_edit, edit_decline};
ghost use Rattle.rules.specs.Rules.{Lawful};
ghost use Rattle.tables.specs.Tables.{table_rules};

use crate::edit::Edit;
use crate::rule_list::RuleList;
use rules::decline::Decline;
use rules::kind::{DecisionKind, RequestKind};
use rules::limits::Limits;
use rules::rule::Rule;
use std::marker::PhantomData;

// Contracts speak of its rules by `table_rules` and not by a model of the type: with a model they would see the bare list,
// and the law of judges that a table is lawful could say nothing of it.
#[derive(Drop)]
pub struct Table<Q, D> {
    // A copy of the kinds' limits, as plain numbers, for a diagram that is to be laid over the table; nothing reads it yet.
    pub(crate) limits: Limits,
    pub(crate) list: RuleList,
    pub(crate) kinds: PhantomData<(Q, D)>,
}

impl<Q: RequestKind, D: DecisionKind> Table<Q, D> {
    // How many rules there are, the default included.
    pub fn count(&self) -> usize
        ensures count { result ≡ length (table_rules Q.RequestKind.ranges D.DecisionKind.count self.now) }
        ensures lawful { Lawful Q.RequestKind.ranges D.DecisionKind.count (table_rules Q.RequestKind.ranges D.DecisionKind.count self.now) }
    {
        self.list.rules.len()
    }

    // The decision at a place; declined 10 where there is no such place.
    pub fn decision_at(&self, place: usize) -> Result<D, Decline>
        ensures { Told (table_rules Q.RequestKind.ranges D.DecisionKind.count self.now) place D.DecisionKind.number result }
    {
        let number = self
            .list
            .decision_number(D::decision_count(), place)
            .ok_or(Decline::NoSuchPlace)?;
        D::make(u32::from(number))
    }

    // Declined as the edit would be, which is not made.
    pub fn check_edit(&self, edit: &Edit<D>) -> Result<(), Decline>
        ensures { declined result ≡ edit_decline (table_rules Q.RequestKind.ranges D.DecisionKind.count self.now) (plain_edit D.DecisionKind.number edit.now) }
    {
        self.list.check_edit(D::decision_count(), Edit::from(edit))
    }

    // Makes the edit, or declines it and leaves the table as it is.
    pub fn edit(&mut self, edit: &Edit<D>) -> Result<(), Decline>
        ensures { Edited (table_rules Q.RequestKind.ranges D.DecisionKind.count self.old) (plain_edit D.DecisionKind.number edit.now) (declined result) (table_rules Q.RequestKind.ranges D.DecisionKind.count self.new) }
    {
        self.list.edit(D::decision_count(), Edit::from(edit))
    }

    // The rules as they are kept, not yet cut to the kinds' own limits.
    pub fn rules(&self) -> &[Rule]
        ensures { result.now ≡ self.now.list.rules.items }
    {
        self.list.rules.as_slice()
    }
}

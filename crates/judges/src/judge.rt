// The judge interface: what every judge and every layer over a judge answers, leaves and declines.
// A judge's meaning is a table and the notes of its layers; no call changes it but as its contract says.
ghost use Rattle.std.specs.Prelude.{◌≡◌, length};
ghost use Rattle.rules.specs.Declines.{declined};
ghost use Rattle.tables.specs.Edits.{plain_edit, Told};
ghost use Rattle.rules.specs.Rules.{Lawful};
ghost use Rattle.judges.specs.Meanings.{Meaning, VerdictOn, JudgedUnder, EditDone, WithdrawDone, GiveBackDone};

use crate::verdict::Verdict;
use rules::decline::Decline;
use rules::kind::{DecisionKind, RequestKind};
use tables::edit::Edit;

pub trait Judge: Drop + Sized {
    type Request: RequestKind;

    type Decision: DecisionKind;

    ghost meaning: { Self → Meaning };

    // The decision, the place of the first matching rule, and the matching set.
    fn judge(&self, request: &Self::Request) -> Verdict<Self::Decision>
        ensures { VerdictOn (meaning self.now) (Self.Request.RequestKind.values request.now) Self.Decision.DecisionKind.number result };

    // What judge would answer if the edit had been accepted; declined as the edit would be.
    fn judge_under(
        &self,
        request: &Self::Request,
        edit: &Edit<Self::Decision>,
    ) -> Result<Verdict<Self::Decision>, Decline>
        ensures { JudgedUnder (meaning self.now) (Self.Request.RequestKind.values request.now) (plain_edit Self.Decision.DecisionKind.number edit.now) Self.Decision.DecisionKind.number result };

    // Makes the edit; declined 10, 12, 11 or 13.
    fn edit(&mut self, edit: &Edit<Self::Decision>) -> Result<(), Decline>
        ensures { EditDone (meaning self.old) (plain_edit Self.Decision.DecisionKind.number edit.now) (declined result) (meaning self.new) };

    // How many rules the table has, the default included.
    fn count(&self) -> usize
        ensures { result ≡ length (meaning self.now).rules };

    // The decision of the rule at a place; declined 10.
    fn decision_at(&self, place: usize) -> Result<Self::Decision, Decline>
        ensures { Told (meaning self.now).rules place Self.Decision.DecisionKind.number result };

    // Withdraws a value of a field; declined 14, 5, 15, 16 or 17. Both are plain numbers, as a technician gives them: a struct
    // of the two would be built at each call only to be taken apart.
    fn withdraw(&mut self, field: usize, value: u32) -> Result<(), Decline>
        ensures { WithdrawDone Self.Request.RequestKind.ranges (meaning self.old) field value (declined result) (meaning self.new) };

    // Gives a withdrawn value back; declined 14, 5, 15 or 18.
    fn give_back(&mut self, field: usize, value: u32) -> Result<(), Decline>
        ensures { GiveBackDone Self.Request.RequestKind.ranges (meaning self.old) field value (declined result) (meaning self.new) };

    // Whatever calls were made, the table is lawful for the judge's kinds and keeps its default.
    ghost lawful: { (j : Self) → Lawful Self.Request.RequestKind.ranges Self.Decision.DecisionKind.count (meaning j).rules };
}

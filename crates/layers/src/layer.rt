// A layer over any judge, which it holds by value: again a judge, with the table from below and its own note before the notes below.
// It is written and proved once, for everything that a layer may keep.
ghost use Rattle.layers.specs.Layers.{layer_meaning};
ghost use Rattle.judges.specs.Meanings.{Meaning, VerdictOn, over};
ghost use Rattle.std.proofs.Common.{rules};

use crate::keeper::Keeper;
use judges::field_value::check_value;
use judges::judge::Judge;
use judges::verdict::Verdict;
use rules::decline::Decline;
use rules::kind::{DecisionKind, RequestKind};
use tables::edit::Edit;

#[derive(Drop)]
pub struct Layer<N, J> {
    pub(crate) kept: N,
    pub(crate) below: J,
}

// The verdict with its decision lowered by the note: where it was a judge's verdict, it is now that of the layer over it.
fn lowered<N: Keeper, Q: RequestKind, D: DecisionKind>(
    kept: &N,
    request: &Q,
    verdict: Verdict<D>,
) -> Verdict<D>
    ensures { (m : Meaning) → VerdictOn m (Q.RequestKind.values request.now) D.DecisionKind.number verdict → VerdictOn (over (N.Keeper.note kept.now) m) (Q.RequestKind.values request.now) D.DecisionKind.number result }
{
    let Some(value) = request.value(kept.field()) else {
        return verdict;
    };
    let number = kept.lower(value, verdict.decision.number());
    Verdict {
        decision: D::make(u32::from(number)).unwrap(),
        ..verdict
    }
}

impl<N: Keeper, J: Judge> Judge for Layer<N, J> {
    type Request = J::Request;

    type Decision = J::Decision;

    ghost meaning = { λ l. layer_meaning N.Keeper.note J.Judge.meaning l };

    ghost lawful = { Prim.search rules };

    fn judge(&self, request: &J::Request) -> Verdict<J::Decision> {
        lowered(&self.kept, request, self.below.judge(request))
    }

    fn judge_under(
        &self,
        request: &J::Request,
        edit: &Edit<J::Decision>,
    ) -> Result<Verdict<J::Decision>, Decline> {
        let verdict = self.below.judge_under(request, edit)?;
        Ok(lowered(&self.kept, request, verdict))
    }

    fn edit(&mut self, edit: &Edit<J::Decision>) -> Result<(), Decline> {
        self.below.edit(edit)
    }

    fn count(&self) -> usize {
        self.below.count()
    }

    fn decision_at(&self, place: usize) -> Result<J::Decision, Decline> {
        self.below.decision_at(place)
    }

    fn withdraw(&mut self, field: usize, value: u32) -> Result<(), Decline> {
        check_value::<J::Request>(field, value)?;
        // A `match` and no `unwrap_or_else`: after the call nothing would be known of a judge that a closure changed.
        match self.kept.withdraw(field, value) {
            Some(done) => done,
            None => self.below.withdraw(field, value),
        }
    }

    fn give_back(&mut self, field: usize, value: u32) -> Result<(), Decline> {
        check_value::<J::Request>(field, value)?;
        // A `match` for the same reason.
        match self.kept.give_back(field, value) {
            Some(done) => done,
            None => self.below.give_back(field, value),
        }
    }
}

// The scan: the judge that reads its table from the top. It has that very table and no notes.
ghost use Rattle.std.specs.Prelude.{◌≡◌, []};
ghost use Rattle.tables.specs.Tables.{table_rules};
ghost use Rattle.judges.specs.Scans.{scan_meaning};
ghost use Rattle.tables.proofs.Cuts.{list_lawful};

use crate::field_value::check_value;
use crate::judge::Judge;
use crate::reading::verdict;
use crate::verdict::Verdict;
use rules::decline::Decline;
use rules::kind::{DecisionKind, RequestKind};
use tables::edit::Edit;
use tables::table::Table;

#[derive(Drop)]
pub struct Scan<Q, D> {
    table: Table<Q, D>,
}

impl<Q: RequestKind, D: DecisionKind> Scan<Q, D> {
    // The scan over a table, which it takes: one table stands under one judge.
    pub fn new(table: Table<Q, D>) -> Scan<Q, D>
        ensures { scan_meaning Q.RequestKind.ranges D.DecisionKind.count result ≡ record { rules = table_rules Q.RequestKind.ranges D.DecisionKind.count table; notes = [] } }
    {
        Scan { table }
    }
}

impl<Q: RequestKind, D: DecisionKind> Judge for Scan<Q, D> {
    type Request = Q;

    type Decision = D;

    ghost meaning = { λ s. scan_meaning Q.RequestKind.ranges D.DecisionKind.count s };

    ghost lawful = { λ j. list_lawful j.table.list Q.RequestKind.ranges D.DecisionKind.count Q.RequestKind.ranged D.DecisionKind.counted.0 };

    fn judge(&self, request: &Q) -> Verdict<D> {
        verdict(self.table.rules(), None, request)
    }

    fn judge_under(&self, request: &Q, edit: &Edit<D>) -> Result<Verdict<D>, Decline> {
        self.table.check_edit(edit)?;
        Ok(verdict(self.table.rules(), Some(Edit::from(edit)), request))
    }

    fn edit(&mut self, edit: &Edit<D>) -> Result<(), Decline> {
        self.table.edit(edit)
    }

    fn count(&self) -> usize {
        self.table.count()
    }

    fn decision_at(&self, place: usize) -> Result<D, Decline> {
        self.table.decision_at(place)
    }

    // A scan has no layer that could keep the value.
    fn withdraw(&mut self, field: usize, value: u32) -> Result<(), Decline> {
        check_value::<Q>(field, value)?;
        Err(Decline::NoWithdrawalLayer)
    }

    // For want of a layer, giving back is declined as withdrawing is.
    fn give_back(&mut self, field: usize, value: u32) -> Result<(), Decline> {
        self.withdraw(field, value)
    }
}

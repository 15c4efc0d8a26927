// Whether a list of rules takes a single edit, and the edit itself.
ghost use Rattle.std.specs.Prelude.{◌≡◌, ◌-◌, min, List, if◌then◌else◌, vec_len};
ghost use Rattle.rules.specs.declared.interval.Interval.{Interval};
ghost use Rattle.rules.specs.Declines.{declined};
ghost use Rattle.tables.specs.Edits.{edit_decline, change_decline, swap_decline, delete_decline, placed, Known, Edited};
ghost use Rattle.rules.specs.Rules.{rule_at, cut};

use crate::edit::Edit;
use crate::rule_list::RuleList;
use rules::decline::Decline;

fn has_place(count: usize, place: usize) -> bool
    ensures { result ≡ placed count place }
{
    (1..=count).contains(&place)
}

fn check_swap(count: usize, first: usize, second: usize) -> Result<(), Decline>
    ensures { declined result ≡ swap_decline count first second }
{
    if !has_place(count, first) || !has_place(count, second) {
        return Err(Decline::NoSuchPlace);
    }
    if first >= second {
        return Err(Decline::OutOfOrder);
    }
    if second == count {
        return Err(Decline::DefaultStays);
    }
    Ok(())
}

fn check_delete(count: usize, place: usize) -> Result<(), Decline>
    ensures { declined result ≡ delete_decline count place }
{
    if !has_place(count, place) {
        return Err(Decline::NoSuchPlace);
    }
    if place == count {
        return Err(Decline::DefaultStays);
    }
    Ok(())
}

// How many decisions there are is told with each call, as a number: generic functions would bind a list, which is plain
// numbers, to a kind for no more than its count.
impl RuleList {
    // The number of the decision at a place, cut to the decisions that there are; None where there is no such place.
    pub(crate) fn decision_number(&self, decisions: usize, place: usize) -> Option<u8>
        ensures { result ≡ (if placed (vec_len self.now.rules) place then Some (min (rule_at self.now.rules.items place).decision (decisions - 1)) else None) }
    {
        let rule = self.rules.get(place.checked_sub(1)?)?;
        Some(rule.cut_decision(decisions))
    }

    fn check_change(&self, decisions: usize, place: usize, wanted: u8) -> Result<(), Decline>
        ensures { declined result ≡ change_decline (vec_len self.now.rules) place (min (rule_at self.now.rules.items place).decision (decisions - 1)) wanted }
    {
        let present = self
            .decision_number(decisions, place)
            .ok_or(Decline::NoSuchPlace)?;
        if present == wanted {
            return Err(Decline::SameDecision);
        }
        Ok(())
    }

    // How the edit is declined on the rules cut to any ranges and to these decisions.
    pub(crate) fn check_edit(&self, decisions: usize, edit: Edit<u8>) -> Result<(), Decline>
        ensures { (ranges : List Interval) → declined result ≡ edit_decline (cut ranges decisions self.now.rules.items) edit }
    {
        match edit {
            Edit::Change { place, decision } => self.check_change(decisions, place, decision),
            Edit::Swap { first, second } => check_swap(self.rules.len(), first, second),
            Edit::Delete { place } => check_delete(self.rules.len(), place),
        }
    }

    // The edit, on the rules cut to any ranges and to these decisions, or how it is declined.
    pub(crate) fn edit(&mut self, decisions: usize, edit: Edit<u8>) -> Result<(), Decline>
        requires { Known decisions edit }
        ensures { (ranges : List Interval) → Edited (cut ranges decisions self.old.rules.items) edit (declined result) (cut ranges decisions self.new.rules.items) }
    {
        self.check_edit(decisions, edit)?;
        self.apply(edit);
        Ok(())
    }
}

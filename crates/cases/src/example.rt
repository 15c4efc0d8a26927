// The example table that the cases start from, and what the cases ask of declines and verdicts.
use judges::verdict::Verdict;
use kinds::command::Command;
use kinds::command_decision::CommandDecision;
use kinds::minutes::Minutes;
use rules::decline::Decline;
use rules::interval::Interval;
use rules::kind::DecisionKind;
use rules::limits::whole_ranges;
use rules::rule::Clauses;
use std::alloc::Global;
use tables::draft::Draft;
use tables::table::Table;

fn permit(minutes: u32) -> Result<CommandDecision, Decline> {
    Minutes::new(minutes).map(CommandDecision::Permit)
}

// Clauses of which one field, counted from 0, has another interval than its whole range.
pub(crate) fn only(field: usize, lower: u32, upper: u32) -> Clauses {
    let mut clauses = whole_ranges::<Command>();
    if let Some(clause) = clauses.get_mut(field) {
        *clause = Interval::new(lower, upper);
    }
    clauses
}

// (code 100 199) hold; (code 150 150) (level 3 4) permit 30; (loop 5 5) permit 10; default refuse.
// The program `commission` builds the same table itself: the cases stand on nothing of a program.
pub(crate) fn table(heap: Global) -> Result<Table<Command, CommandDecision>, Decline> {
    let mut draft = Draft::new(heap, CommandDecision::Refuse)?;
    draft.add(only(0, 100, 199), CommandDecision::Hold)?;
    let mut engineer = only(0, 150, 150);
    engineer[1] = Interval::new(3, 4);
    draft.add(engineer, permit(30)?)?;
    draft.add(only(3, 5, 5), permit(10)?)?;
    Ok(draft.close())
}

// The number with which a call was declined, or 0 where it was not: with plain numbers, which is what docs/DECLINES.md
// promises, a row of a table reads (3, 4, 11) or (1, 2, 0), where an Option would have Some(11) and None.
pub(crate) fn declined<T: Drop>(r: Result<T, Decline>) -> u8 {
    r.err().map_or(0, |decline| decline.number())
}

// A verdict with the decision's number in place of the decision.
pub(crate) fn plain<D: DecisionKind>(verdict: &Verdict<D>) -> (u8, usize, u64) {
    (verdict.decision.number(), verdict.place, verdict.matching)
}

// Drafts: each decline of adding a rule and their order, and 63 rules beside the default.
use crate::example::{declined, only};
use kinds::command::Command;
use kinds::command_decision::CommandDecision;
use rules::decline::Decline;
use rules::interval::Interval;
use std::alloc::Global;
use std::test::Fail;
use tables::draft::Draft;

fn draft(heap: Global) -> Result<Draft<Command, CommandDecision>, Decline> {
    Draft::new(heap, CommandDecision::Refuse)
}

// A field from 0, the ends of its clause, and the number with which adding such a rule is declined.
const CLAUSES: [(usize, u32, u32, u8); 15] = [
    (0, 0, 9999, 0),
    (0, 9999, 9999, 0),
    (0, 0, 10000, 5),
    (0, 10000, 10000, 5),
    (0, 10000, 0, 5),
    (0, 9999, 9998, 6),
    (1, 0, 4, 5),
    (1, 1, 5, 5),
    (1, 4, 3, 6),
    (2, 0, 64, 5),
    (3, 16, 17, 5),
    (3, 1, 0, 6),
    (4, 0, 10080, 5),
    (4, 10079, 10079, 0),
    (5, 9, 0, 0),
];

#[test]
fn each_clause_is_checked(rt: HostRuntime) -> Result<(), Fail> {
    for (field, lower, upper, number) in CLAUSES {
        let mut draft = draft(rt.alloc())?;
        assert_eq!(rt;
            declined(draft.add(only(field, lower, upper), CommandDecision::Hold)),
            number
        );
        let expected = if number == 0 { 2 } else { 1 };
        assert_eq!(rt; draft.close().count(), expected);
    }
    Ok(())
}

#[test]
fn fields_are_checked_in_order(rt: HostRuntime) -> Result<(), Fail> {
    let mut draft = draft(rt.alloc())?;
    let mut clauses = only(0, 2, 1);
    clauses[1] = Interval::new(0, 9);
    assert_eq!(rt; declined(draft.add(clauses, CommandDecision::Hold)), 6);
    clauses[0] = Interval::new(1, 2);
    assert_eq!(rt; declined(draft.add(clauses, CommandDecision::Hold)), 5);
    Ok(())
}

#[test]
fn sixty_three_rules_beside_the_default(rt: HostRuntime) -> Result<(), Fail> {
    let mut draft = draft(rt.alloc())?;
    for k in 0..63u32 {
        draft.add(only(0, k, k), CommandDecision::Hold)?;
    }
    assert_eq!(rt;
        declined(draft.add(only(0, 63, 63), CommandDecision::Hold)),
        7
    );
    assert_eq!(rt;
        declined(draft.add(only(0, 10000, 0), CommandDecision::Hold)),
        7
    );
    assert_eq!(rt; draft.close().count(), 64);
    Ok(())
}

#[test]
fn a_draft_alone_is_its_default(rt: HostRuntime) -> Result<(), Fail> {
    let table = draft(rt.alloc())?.close();
    assert_eq!(rt; table.count(), 1);
    assert_eq!(rt; declined(table.decision_at(0)), 10);
    assert_eq!(rt; declined(table.decision_at(1)), 0);
    assert_eq!(rt; declined(table.decision_at(2)), 10);
    Ok(())
}

// Edits of the example table, which has four rules: each decline, the order of the checks, and what an accepted edit leaves.
use crate::example::{declined, table};
use kinds::command::Command;
use kinds::command_decision::CommandDecision;
use rules::decline::Decline;
use rules::kind::DecisionKind;
use std::alloc::Global;
use std::array;
use std::test::Fail;
use tables::edit::Edit;
use tables::table::Table;

// Two places, and the number with which swapping them is declined.
const SWAPS: [(usize, usize, u8); 13] = [
    (1, 2, 0),
    (1, 3, 0),
    (2, 3, 0),
    (0, 1, 10),
    (0, 5, 10),
    (5, 1, 10),
    (5, 5, 10),
    (2, 2, 12),
    (3, 1, 12),
    (4, 4, 12),
    (4, 1, 12),
    (1, 4, 11),
    (3, 4, 11),
];

// A place, and the number with which deleting its rule is declined.
const DELETIONS: [(usize, u8); 6] = [
    (0, 10),
    (1, 0),
    (3, 0),
    (4, 11),
    (5, 10),
    (18446744073709551615, 10),
];

// A place, the number of a decision, and the number with which the change is declined.
const CHANGES: [(usize, u32, u8); 8] = [
    (0, 1, 10),
    (5, 1, 10),
    (1, 1, 13),
    (1, 0, 0),
    (2, 31, 13),
    (3, 11, 13),
    (4, 0, 13),
    (4, 241, 0),
];

// The numbers of the decisions at places 1 to 4, and 255 where there is no rule: one array says what a whole table decides.
fn decisions(table: &Table<Command, CommandDecision>) -> [u8; 4] {
    array::from_fn(|k| {
        table
            .decision_at(k + 1)
            .map_or(255, |decision| decision.number())
    })
}

// The number with which an edit of the example table is declined, and the decisions that are then in the table.
fn tried(heap: Global, edit: &Edit<CommandDecision>) -> Result<(u8, [u8; 4]), Decline> {
    let mut table = table(heap)?;
    let number = declined(table.edit(edit));
    Ok((number, decisions(&table)))
}

#[test]
fn swaps(rt: HostRuntime) -> Result<(), Fail> {
    for (first, second, number) in SWAPS {
        let (answer, left) = tried(rt.alloc(), &Edit::Swap { first, second })?;
        assert_eq!(rt; answer, number);
        if number != 0 {
            assert_eq!(rt; left, [1, 31, 11, 0]);
        }
    }
    Ok(())
}

#[test]
fn deletions(rt: HostRuntime) -> Result<(), Fail> {
    for (place, number) in DELETIONS {
        let (answer, left) = tried(rt.alloc(), &Edit::Delete { place })?;
        assert_eq!(rt; answer, number);
        if number != 0 {
            assert_eq!(rt; left, [1, 31, 11, 0]);
        }
    }
    Ok(())
}

#[test]
fn changes(rt: HostRuntime) -> Result<(), Fail> {
    for (place, decision, number) in CHANGES {
        let decision = CommandDecision::make(decision)?;
        let (answer, left) = tried(rt.alloc(), &Edit::Change { place, decision })?;
        assert_eq!(rt; answer, number);
        if number != 0 {
            assert_eq!(rt; left, [1, 31, 11, 0]);
        }
    }
    Ok(())
}

#[test]
fn accepted_edits(rt: HostRuntime) -> Result<(), Fail> {
    let mut table = table(rt.alloc())?;
    table.edit(&Edit::Swap {
        first: 1,
        second: 3,
    })?;
    assert_eq!(rt; decisions(&table), [11, 31, 1, 0]);
    table.edit(&Edit::Change {
        place: 4,
        decision: CommandDecision::Hold,
    })?;
    assert_eq!(rt; decisions(&table), [11, 31, 1, 1]);
    table.edit(&Edit::Delete { place: 2 })?;
    assert_eq!(rt; decisions(&table), [11, 1, 1, 255]);
    assert_eq!(rt; table.count(), 3);
    Ok(())
}

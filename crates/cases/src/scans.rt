// The scan over the example table and over full tables: verdicts, judging under an edit, and the calls that need a layer.
use crate::example::{declined, only, plain, table};
use judges::judge::Judge;
use judges::scan::Scan;
use kinds::command::Command;
use kinds::command_decision::CommandDecision;
use rules::decline::Decline;
use rules::kind::{DecisionKind, RequestKind};
use std::alloc::Global;
use std::test::Fail;
use tables::draft::Draft;
use tables::edit::Edit;

#[test]
fn the_three_tests(rt: HostRuntime) -> Result<(), Fail> {
    let scan = Scan::new(table(rt.alloc())?);
    let tests = [
        ([150, 3, 7, 2, 600], (1, 1, 11)),
        ([120, 2, 7, 2, 600], (1, 1, 9)),
        ([300, 2, 7, 5, 600], (11, 3, 12)),
    ];
    for (values, answer) in tests {
        let verdict = scan.judge(&Command::make(&values)?);
        assert_eq!(rt; plain(&verdict), answer);
    }
    Ok(())
}

#[test]
fn under_an_edit_and_after_it(rt: HostRuntime) -> Result<(), Fail> {
    let mut scan = Scan::new(table(rt.alloc())?);
    let request = Command::new(150, 3, 7, 2, 600)?;
    let swap = Edit::Swap {
        first: 1,
        second: 2,
    };
    let under = scan.judge_under(&request, &swap)?;
    assert_eq!(rt; plain(&under), (31, 1, 11));
    assert_eq!(rt; scan.judge(&request).decision.number(), 1);
    scan.edit(&swap)?;
    assert_eq!(rt; scan.judge(&request).decision.number(), 31);
    let delete = scan.judge_under(
        &Command::new(120, 2, 7, 2, 600)?,
        &Edit::Delete { place: 2 },
    )?;
    assert_eq!(rt; plain(&delete), (0, 3, 4));
    let change = scan.judge_under(
        &request,
        &Edit::Change {
            place: 1,
            decision: CommandDecision::Hold,
        },
    )?;
    assert_eq!(rt; (change.decision.number(), change.place), (1, 1));
    Ok(())
}

#[test]
fn declined_as_the_edit_would_be(rt: HostRuntime) -> Result<(), Fail> {
    let scan = Scan::new(table(rt.alloc())?);
    let request = Command::new(150, 3, 7, 2, 600)?;
    for (first, second, number) in [(1, 2, 0), (1, 4, 11), (2, 2, 12), (4, 1, 12), (0, 5, 10)] {
        assert_eq!(rt;
            declined(scan.judge_under(&request, &Edit::Swap { first, second })),
            number
        );
    }
    assert_eq!(rt;
        declined(scan.judge_under(
            &request,
            &Edit::Change {
                place: 1,
                decision: CommandDecision::Hold,
            },
        )),
        13
    );
    Ok(())
}

// A scan over 63 rules that hold these codes, and the default, which refuses.
fn full(heap: Global, lower: u32, upper: u32) -> Result<Scan<Command, CommandDecision>, Decline> {
    let mut draft = Draft::new(heap, CommandDecision::Refuse)?;
    for _ in 0..63u8 {
        draft.add(only(0, lower, upper), CommandDecision::Hold)?;
    }
    Ok(Scan::new(draft.close()))
}

#[test]
fn sixty_four_rules_that_match(rt: HostRuntime) -> Result<(), Fail> {
    let scan = full(rt.alloc(), 0, 9999)?;
    assert_eq!(rt; scan.count(), 64);
    let all = scan.judge(&Command::new(0, 1, 0, 0, 0)?);
    assert_eq!(rt; plain(&all), (1, 1, 18446744073709551615));
    Ok(())
}

#[test]
fn the_default_at_place_sixty_four(rt: HostRuntime) -> Result<(), Fail> {
    let scan = full(rt.alloc(), 1, 1)?;
    let last = scan.judge(&Command::new(0, 1, 0, 0, 0)?);
    assert_eq!(rt; plain(&last), (0, 64, 9223372036854775808));
    Ok(())
}

// Codes 100 to 199 are held by the rule at place 1; past either end the default, at place 4, refuses.
#[test]
fn a_clause_at_its_ends(rt: HostRuntime) -> Result<(), Fail> {
    let scan = Scan::new(table(rt.alloc())?);
    for (code, answer) in [
        (99, (0, 4, 8)),
        (100, (1, 1, 9)),
        (199, (1, 1, 9)),
        (200, (0, 4, 8)),
    ] {
        let verdict = scan.judge(&Command::new(code, 2, 7, 2, 600)?);
        assert_eq!(rt; plain(&verdict), answer);
    }
    Ok(())
}

#[test]
fn no_layer_stands_on_a_scan(rt: HostRuntime) -> Result<(), Fail> {
    let mut scan = Scan::new(table(rt.alloc())?);
    for (field, value, number) in [
        (0, 0, 14),
        (6, 0, 14),
        (1, 10000, 5),
        (2, 0, 5),
        (5, 10080, 5),
        (1, 9999, 15),
        (5, 10079, 15),
    ] {
        assert_eq!(rt; declined(scan.withdraw(field, value)), number);
        assert_eq!(rt; declined(scan.give_back(field, value)), number);
    }
    Ok(())
}

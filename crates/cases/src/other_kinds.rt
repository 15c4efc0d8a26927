// Kinds of one field and of six, of one decision and of 256, and a kind made of another, through draft, table and scan.
use crate::button::{Button, Never};
use crate::example::{declined, plain};
use crate::grade::Grade;
use crate::pair::Pair;
use crate::reading::Reading;
use judges::judge::Judge;
use judges::scan::Scan;
use kinds::packet_decision::PacketDecision;
use rules::interval::Interval;
use rules::kind::{DecisionKind, RequestKind};
use rules::limits::whole_ranges;
use std::test::Fail;
use tables::draft::Draft;
use tables::edit::Edit;

#[test]
fn one_field_and_one_decision(rt: HostRuntime) -> Result<(), Fail> {
    let mut draft = Draft::<Button, Never>::new(rt.alloc(), Never::Refused)?;
    let mut clauses = whole_ranges::<Button>();
    clauses[0] = Interval::new(6, 9);
    assert_eq!(rt; declined(draft.add(clauses, Never::Refused)), 5);
    clauses[0] = Interval::new(9, 9);
    clauses[1] = Interval::new(3, 2);
    draft.add(clauses, Never::Refused)?;
    let mut scan = Scan::new(draft.close());
    let nine = scan.judge(&Button::make(&[9])?);
    assert_eq!(rt; plain(&nine), (0, 1, 3));
    let seven = scan.judge(&Button::make(&[7])?);
    assert_eq!(rt; (seven.place, seven.matching), (2, 2));
    assert_eq!(rt;
        declined(scan.edit(&Edit::Change {
            place: 1,
            decision: Never::Refused,
        },)),
        13
    );
    assert_eq!(rt; declined(scan.withdraw(1, 6)), 5);
    assert_eq!(rt; declined(scan.withdraw(2, 9)), 14);
    Ok(())
}

#[test]
fn buttons_and_grades_at_their_bounds(rt: HostRuntime) -> Result<(), Fail> {
    assert_eq!(rt; declined(Button::make(&[6])), 9);
    assert_eq!(rt; declined(Button::make(&[7])), 0);
    assert_eq!(rt; declined(Button::make(&[10])), 9);
    assert_eq!(rt; declined(Never::make(1)), 9);
    assert_eq!(rt; Grade::make(255)?.number(), 255);
    assert_eq!(rt; declined(Grade::make(256)), 9);
    Ok(())
}

#[test]
fn six_fields_and_256_decisions(rt: HostRuntime) -> Result<(), Fail> {
    let mut draft = Draft::<Reading, Grade>::new(rt.alloc(), Grade::make(255)?)?;
    let mut clauses = whole_ranges::<Reading>();
    clauses[5] = Interval::new(1000, 1000);
    draft.add(clauses, Grade::make(0)?)?;
    clauses[5] = Interval::new(1000, 1001);
    assert_eq!(rt; declined(draft.add(clauses, Grade::make(0)?)), 5);
    let mut scan = Scan::new(draft.close());
    let last = scan.judge(&Reading::make(&[4294967295, 5, 1, 20, 4294967295, 999])?);
    assert_eq!(rt; plain(&last), (255, 2, 2));
    let first = scan.judge(&Reading::make(&[0, 5, 0, 10, 4294967294, 1000])?);
    assert_eq!(rt; plain(&first), (0, 1, 3));
    scan.edit(&Edit::Change {
        place: 1,
        decision: Grade::make(255)?,
    })?;
    assert_eq!(rt;
        declined(scan.edit(&Edit::Change {
            place: 2,
            decision: Grade::make(255)?,
        },)),
        13
    );
    Ok(())
}

// Pairs of buttons: those whose first is 8 are discarded.
#[test]
fn a_kind_made_of_another(rt: HostRuntime) -> Result<(), Fail> {
    for (one, other, number) in [(7, 9, 0), (6, 7, 9), (7, 10, 9)] {
        assert_eq!(rt; declined(Pair::<Button>::make(&[one, other])), number);
    }
    assert_eq!(rt; declined(Pair::<Button>::make(&[7])), 9);
    let mut draft = Draft::<Pair<Button>, PacketDecision>::new(rt.alloc(), PacketDecision::Accept)?;
    let mut clauses = whole_ranges::<Pair<Button>>();
    clauses[0] = Interval::new(8, 8);
    draft.add(clauses, PacketDecision::Discard)?;
    clauses[1] = Interval::new(7, 10);
    assert_eq!(rt; declined(draft.add(clauses, PacketDecision::Discard)), 5);
    let mut scan = Scan::new(draft.close());
    let first = scan.judge(&Pair::make(&[8, 9])?);
    assert_eq!(rt; plain(&first), (0, 1, 3));
    let last = scan.judge(&Pair::make(&[9, 8])?);
    assert_eq!(rt; plain(&last), (1, 2, 2));
    assert_eq!(rt; declined(scan.withdraw(2, 10)), 5);
    assert_eq!(rt; declined(scan.withdraw(3, 7)), 14);
    assert_eq!(rt; declined(scan.withdraw(2, 7)), 15);
    Ok(())
}

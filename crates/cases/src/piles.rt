// Layers over the example table and over a packet table: windows and withdrawals in both orders and twice on one field,
// the ends of windows, a full note, and every decline in its order.
use crate::example::{declined, plain, table};
use judges::judge::Judge;
use judges::scan::Scan;
use kinds::command::Command;
use kinds::command_decision::CommandDecision;
use kinds::packet::Packet;
use kinds::packet_decision::PacketDecision;
use layers::windows::Windows;
use layers::withdrawals::Withdrawals;
use rules::decline::Decline;
use rules::interval::Interval;
use rules::kind::DecisionKind;
use std::alloc::Global;
use std::test::Fail;
use tables::draft::Draft;
use tables::edit::Edit;

// A field of a command, and the number with which setting up a layer on it is declined.
const FIELDS: [(usize, u8); 4] = [(0, 14), (1, 0), (5, 0), (6, 14)];

// The example table after swap 1, 2: code 150 at level 3 is permitted for 30 minutes by the rule at place 1.
fn swapped(heap: Global) -> Result<Scan<Command, CommandDecision>, Decline> {
    let mut scan = Scan::new(table(heap)?);
    scan.edit(&Edit::Swap {
        first: 1,
        second: 2,
    })?;
    Ok(scan)
}

// The number of the decision on code 150 at level 3 and this minute.
fn at<J: Judge<Request = Command, Decision = CommandDecision>>(
    judge: &J,
    minute: u32,
) -> Result<u8, Decline> {
    let request = Command::new(150, 3, 7, 2, minute)?;
    Ok(judge.judge(&request).decision.number())
}

// A window layer on the minute, with one window of this cap.
fn capped(
    heap: Global,
    lower: u32,
    upper: u32,
    cap: u32,
) -> Result<Windows<Command, CommandDecision>, Decline> {
    let mut windows = Windows::on(heap, 5)?;
    windows.add(Interval::new(lower, upper), CommandDecision::make(cap)?)?;
    Ok(windows)
}

#[test]
fn a_window_at_its_ends(rt: HostRuntime) -> Result<(), Fail> {
    let pile = capped(rt.alloc(), 600, 1439, 1)?.over(swapped(rt.alloc())?);
    for (minute, number) in [
        (0, 31),
        (599, 31),
        (600, 1),
        (1000, 1),
        (1439, 1),
        (1440, 31),
        (10079, 31),
    ] {
        assert_eq!(rt; at(&pile, minute)?, number);
    }
    let verdict = pile.judge(&Command::new(150, 3, 7, 2, 600)?);
    assert_eq!(rt; (verdict.place, verdict.matching), (1, 11));
    Ok(())
}

#[test]
fn the_smallest_cap_wherever_it_stands(rt: HostRuntime) -> Result<(), Fail> {
    let mut windows = Windows::on(rt.alloc(), 5)?;
    for (lower, upper, cap) in [(0, 2000, 11), (600, 600, 1), (0, 1000, 21), (0, 3000, 241)] {
        windows.add(Interval::new(lower, upper), CommandDecision::make(cap)?)?;
    }
    let pile = windows.over(swapped(rt.alloc())?);
    for (minute, number) in [
        (0, 11),
        (599, 11),
        (600, 1),
        (601, 11),
        (2000, 11),
        (2001, 31),
        (3001, 31),
    ] {
        assert_eq!(rt; at(&pile, minute)?, number);
    }
    assert_eq!(rt;
        pile.judge(&Command::new(9, 1, 7, 2, 600)?)
            .decision
            .number(),
        0
    );
    Ok(())
}

#[test]
fn adding_windows_is_declined_in_order(rt: HostRuntime) -> Result<(), Fail> {
    for (field, number) in FIELDS {
        assert_eq!(rt;
            declined(Windows::<Command, CommandDecision>::on(rt.alloc(), field)),
            number
        );
    }
    let mut windows = Windows::<Command, CommandDecision>::on(rt.alloc(), 2)?;
    for (lower, upper, number) in [
        (0, 4, 5),
        (5, 1, 5),
        (1, 5, 5),
        (4, 0, 5),
        (4, 3, 6),
        (4, 4, 0),
        (1, 4, 0),
    ] {
        assert_eq!(rt;
            declined(windows.add(Interval::new(lower, upper), CommandDecision::Hold)),
            number
        );
    }
    for _ in 0..6u8 {
        windows.add(Interval::new(1, 4), CommandDecision::Hold)?;
    }
    for (lower, upper) in [(4, 3), (0, 4)] {
        assert_eq!(rt;
            declined(windows.add(Interval::new(lower, upper), CommandDecision::Hold)),
            7
        );
    }
    Ok(())
}

#[test]
fn a_withdrawn_code_is_refused_until_it_is_given_back(rt: HostRuntime) -> Result<(), Fail> {
    let mut pile = Withdrawals::on(rt.alloc(), 1)?.over(swapped(rt.alloc())?);
    let request = Command::new(150, 3, 7, 2, 600)?;
    assert_eq!(rt; at(&pile, 600)?, 31);
    pile.withdraw(1, 150)?;
    let verdict = pile.judge(&request);
    assert_eq!(rt; plain(&verdict), (0, 1, 11));
    let under = pile.judge_under(
        &request,
        &Edit::Swap {
            first: 1,
            second: 2,
        },
    )?;
    assert_eq!(rt; (under.decision.number(), under.place), (0, 1));
    pile.edit(&Edit::Delete { place: 3 })?;
    assert_eq!(rt;
        (pile.count(), declined(pile.decision_at(4)), at(&pile, 600)?),
        (3, 10, 0)
    );
    pile.give_back(1, 150)?;
    assert_eq!(rt; at(&pile, 600)?, 31);
    Ok(())
}

#[test]
fn withdrawing_is_declined_in_order(rt: HostRuntime) -> Result<(), Fail> {
    for (field, number) in FIELDS {
        assert_eq!(rt;
            declined(Withdrawals::<Command>::on(rt.alloc(), field)),
            number
        );
    }
    let mut pile = Withdrawals::on(rt.alloc(), 1)?.over(swapped(rt.alloc())?);
    assert_eq!(rt; declined(pile.withdraw(6, 0)), 14);
    assert_eq!(rt; declined(pile.withdraw(1, 10000)), 5);
    assert_eq!(rt; declined(pile.withdraw(2, 0)), 5);
    assert_eq!(rt; declined(pile.withdraw(2, 1)), 15);
    assert_eq!(rt; declined(pile.give_back(0, 0)), 14);
    assert_eq!(rt; declined(pile.give_back(1, 10000)), 5);
    assert_eq!(rt; declined(pile.give_back(2, 1)), 15);
    assert_eq!(rt; declined(pile.give_back(1, 150)), 18);
    assert_eq!(rt; declined(pile.withdraw(1, 150)), 0);
    assert_eq!(rt; declined(pile.withdraw(1, 150)), 16);
    assert_eq!(rt; declined(pile.withdraw(1, 9999)), 0);
    assert_eq!(rt; declined(pile.give_back(1, 150)), 0);
    assert_eq!(rt; declined(pile.give_back(1, 150)), 18);
    assert_eq!(rt; declined(pile.give_back(1, 9999)), 0);
    Ok(())
}

#[test]
fn thirty_two_values_and_no_more(rt: HostRuntime) -> Result<(), Fail> {
    let mut pile = Withdrawals::on(rt.alloc(), 1)?.over(swapped(rt.alloc())?);
    for code in 0..32u32 {
        pile.withdraw(1, code)?;
    }
    assert_eq!(rt; declined(pile.withdraw(1, 32)), 17);
    assert_eq!(rt; declined(pile.withdraw(1, 31)), 16);
    assert_eq!(rt; declined(pile.withdraw(1, 10000)), 5);
    assert_eq!(rt; declined(pile.give_back(1, 0)), 0);
    assert_eq!(rt; declined(pile.withdraw(1, 32)), 0);
    assert_eq!(rt; declined(pile.withdraw(1, 33)), 17);
    assert_eq!(rt; declined(pile.give_back(1, 0)), 18);
    Ok(())
}

// The inner layer keeps code 150, which the outer one cannot give back.
#[test]
fn two_withdrawal_layers_on_one_field(rt: HostRuntime) -> Result<(), Fail> {
    let mut inner = Withdrawals::on(rt.alloc(), 1)?.over(swapped(rt.alloc())?);
    inner.withdraw(1, 150)?;
    let mut pile = Withdrawals::on(rt.alloc(), 1)?.over(inner);
    assert_eq!(rt;
        (declined(pile.give_back(1, 150)), at(&pile, 600)?),
        (18, 0)
    );
    assert_eq!(rt; (declined(pile.withdraw(1, 150)), at(&pile, 600)?), (0, 0));
    assert_eq!(rt; (declined(pile.withdraw(1, 150)), at(&pile, 600)?), (16, 0));
    assert_eq!(rt; (declined(pile.give_back(1, 150)), at(&pile, 600)?), (0, 0));
    assert_eq!(rt;
        (declined(pile.give_back(1, 150)), at(&pile, 600)?),
        (18, 0)
    );
    Ok(())
}

#[test]
fn layers_in_both_orders(rt: HostRuntime) -> Result<(), Fail> {
    let window = capped(rt.alloc(), 0, 1439, 1)?.over(swapped(rt.alloc())?);
    let mut above = Withdrawals::on(rt.alloc(), 1)?.over(window);
    let withdrawals = Withdrawals::on(rt.alloc(), 1)?.over(swapped(rt.alloc())?);
    let mut below = capped(rt.alloc(), 0, 1439, 1)?.over(withdrawals);
    for (minute, number) in [(0, 1), (1439, 1), (1440, 31)] {
        assert_eq!(rt;
            (at(&above, minute)?, at(&below, minute)?),
            (number, number)
        );
    }
    assert_eq!(rt;
        (
            declined(above.withdraw(1, 150)),
            declined(below.withdraw(1, 150)),
        ),
        (0, 0)
    );
    for minute in [0, 1439, 1440] {
        assert_eq!(rt; (at(&above, minute)?, at(&below, minute)?), (0, 0));
    }
    Ok(())
}

#[test]
fn two_window_layers_on_one_field(rt: HostRuntime) -> Result<(), Fail> {
    let inner = capped(rt.alloc(), 500, 1500, 1)?.over(swapped(rt.alloc())?);
    let pile = capped(rt.alloc(), 0, 1000, 11)?.over(inner);
    for (minute, number) in [
        (0, 11),
        (499, 11),
        (500, 1),
        (1000, 1),
        (1500, 1),
        (1501, 31),
    ] {
        assert_eq!(rt; at(&pile, minute)?, number);
    }
    Ok(())
}

// Every packet is accepted, but those to ports 0 to 1023, and then those from a withdrawn source.
#[test]
fn packets_under_both_layers(rt: HostRuntime) -> Result<(), Fail> {
    let draft = Draft::<Packet, PacketDecision>::new(rt.alloc(), PacketDecision::Accept)?;
    let open = Scan::new(draft.close());
    let mut closed = Windows::on(rt.alloc(), 4)?;
    closed.add(Interval::new(0, 1023), PacketDecision::Discard)?;
    let mut pile = Withdrawals::on(rt.alloc(), 1)?.over(closed.over(open));
    for (value, low, high) in [(4294967295, 0, 1), (7, 0, 0)] {
        pile.withdraw(1, value)?;
        assert_eq!(rt;
            pile.judge(&Packet::new(7, 8, 5000, 1023, 6)?)
                .decision
                .number(),
            low
        );
        assert_eq!(rt;
            pile.judge(&Packet::new(7, 8, 5000, 1024, 6)?)
                .decision
                .number(),
            high
        );
    }
    assert_eq!(rt;
        (
            declined(pile.withdraw(4, 65536)),
            declined(pile.withdraw(4, 65535)),
        ),
        (5, 15)
    );
    Ok(())
}

// A withdrawal layer on the code, below windows on the code and a withdrawal layer on the level: each call finds its layer.
#[test]
fn withdrawals_through_other_layers(rt: HostRuntime) -> Result<(), Fail> {
    let codes = Withdrawals::on(rt.alloc(), 1)?.over(swapped(rt.alloc())?);
    let mut any_code = Windows::on(rt.alloc(), 1)?;
    any_code.add(Interval::new(0, 9999), CommandDecision::make(241)?)?;
    let mut pile = Withdrawals::on(rt.alloc(), 2)?.over(any_code.over(codes));
    assert_eq!(rt; at(&pile, 600)?, 31);
    assert_eq!(rt; (declined(pile.withdraw(1, 150)), at(&pile, 600)?), (0, 0));
    assert_eq!(rt; (declined(pile.withdraw(2, 3)), at(&pile, 600)?), (0, 0));
    assert_eq!(rt; (declined(pile.withdraw(1, 150)), at(&pile, 600)?), (16, 0));
    assert_eq!(rt; (declined(pile.give_back(1, 150)), at(&pile, 600)?), (0, 0));
    assert_eq!(rt; (declined(pile.give_back(2, 3)), at(&pile, 600)?), (0, 31));
    assert_eq!(rt; declined(pile.withdraw(5, 600)), 15);
    Ok(())
}

// All of Monday is capped at hold, under a withdrawal layer; the table below is edited, and looked at under edits, through both.
#[test]
fn edits_through_a_pile(rt: HostRuntime) -> Result<(), Fail> {
    let window = capped(rt.alloc(), 0, 1439, 1)?.over(swapped(rt.alloc())?);
    let mut pile = Withdrawals::on(rt.alloc(), 1)?.over(window);
    let ten = Edit::Change {
        place: 1,
        decision: CommandDecision::make(11)?,
    };
    for (minute, answer) in [(1439, (1, 1, 11)), (1440, (11, 1, 11))] {
        let under = pile.judge_under(&Command::new(150, 3, 7, 2, minute)?, &ten)?;
        assert_eq!(rt; plain(&under), answer);
    }
    let request = Command::new(150, 3, 7, 2, 1440)?;
    for (first, second, number) in [(1, 2, 0), (1, 4, 11), (2, 2, 12), (0, 1, 10)] {
        let swap = Edit::Swap { first, second };
        assert_eq!(rt; declined(pile.judge_under(&request, &swap)), number);
    }
    assert_eq!(rt;
        declined(pile.edit(&Edit::Swap {
            first: 2,
            second: 4
        })),
        11
    );
    assert_eq!(rt; declined(pile.edit(&ten)), 0);
    assert_eq!(rt; declined(pile.edit(&ten)), 13);
    assert_eq!(rt; (at(&pile, 1439)?, at(&pile, 1440)?), (1, 11));
    Ok(())
}

// Windows on the port over a withdrawal layer on the source.
#[test]
fn packets_under_both_layers_the_other_way(rt: HostRuntime) -> Result<(), Fail> {
    let draft = Draft::<Packet, PacketDecision>::new(rt.alloc(), PacketDecision::Accept)?;
    let sources = Withdrawals::on(rt.alloc(), 1)?.over(Scan::new(draft.close()));
    let mut closed = Windows::on(rt.alloc(), 4)?;
    closed.add(Interval::new(0, 1023), PacketDecision::Discard)?;
    let mut pile = closed.over(sources);
    pile.withdraw(1, 7)?;
    for (source, port, number) in [(7, 1023, 0), (7, 1024, 0), (8, 1023, 0), (8, 1024, 1)] {
        let packet = Packet::new(source, 8, 5000, port, 6)?;
        assert_eq!(rt; pile.judge(&packet).decision.number(), number);
    }
    Ok(())
}

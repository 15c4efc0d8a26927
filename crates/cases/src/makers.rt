// Making requests and decisions: each range at both ends and one past them.
use crate::example::declined;
use kinds::command::Command;
use kinds::command_decision::CommandDecision;
use kinds::minutes::Minutes;
use kinds::packet::Packet;
use kinds::packet_decision::PacketDecision;
use rules::kind::{DecisionKind, RequestKind};
use std::test::Fail;

// Values, and the number with which a command of them is declined.
const COMMANDS: [(&[u32], u8); 16] = [
    (&[0, 1, 0, 0, 0], 0),
    (&[9999, 4, 63, 16, 10079], 0),
    (&[10000, 1, 0, 0, 0], 9),
    (&[0, 0, 0, 0, 0], 9),
    (&[0, 5, 0, 0, 0], 9),
    (&[0, 1, 64, 0, 0], 9),
    (&[0, 1, 0, 17, 0], 9),
    (&[0, 1, 0, 0, 10080], 9),
    (&[4294967295, 1, 0, 0, 0], 9),
    (&[0, 4294967295, 0, 0, 0], 9),
    (&[0, 1, 4294967295, 0, 0], 9),
    (&[0, 1, 0, 4294967295, 0], 9),
    (&[0, 1, 0, 0, 4294967295], 9),
    (&[0, 1, 0, 0], 9),
    (&[0, 1, 0, 0, 0, 0], 9),
    (&[], 9),
];

// The same of packets.
const PACKETS: [(&[u32], u8); 10] = [
    (&[0, 0, 0, 0, 0], 0),
    (&[4294967295, 4294967295, 65535, 65535, 255], 0),
    (&[0, 0, 65536, 0, 0], 9),
    (&[0, 0, 0, 65536, 0], 9),
    (&[0, 0, 0, 0, 256], 9),
    (&[0, 0, 4294967295, 0, 0], 9),
    (&[0, 0, 0, 4294967295, 0], 9),
    (&[0, 0, 0, 0, 4294967295], 9),
    (&[0, 0, 0, 0], 9),
    (&[0, 0, 0, 0, 0, 0], 9),
];

// The index of the first row of whose values making a request is not declined with its number.
fn first_wrong<Q: RequestKind>(rows: &[(&[u32], u8)]) -> Option<usize> {
    rows.iter()
        .position(|(values, number)| declined(Q::make(values)) != *number)
}

#[test]
fn commands_at_their_bounds(rt: HostRuntime) {
    assert_eq!(rt; first_wrong::<Command>(&COMMANDS), None);
}

#[test]
fn packets_at_their_bounds(rt: HostRuntime) {
    assert_eq!(rt; first_wrong::<Packet>(&PACKETS), None);
}

#[test]
fn a_command_tells_its_values_back(rt: HostRuntime) -> Result<(), Fail> {
    let command = Command::make(&[9999, 4, 63, 16, 10079])?;
    assert_eq!(rt; command.code(), 9999);
    assert_eq!(rt; command.level(), 4);
    assert_eq!(rt; command.command(), 63);
    assert_eq!(rt; command.loop_number(), 16);
    assert_eq!(rt; command.minute(), 10079);
    assert_eq!(rt; command.value(0), None);
    assert_eq!(rt; command.value(4), Some(16));
    assert_eq!(rt; command.value(6), None);
    Ok(())
}

#[test]
fn a_packet_tells_its_values_back(rt: HostRuntime) -> Result<(), Fail> {
    let packet = Packet::make(&[1, 4294967295, 3, 65535, 255])?;
    assert_eq!(rt; packet.source(), 1);
    assert_eq!(rt; packet.destination(), 4294967295);
    assert_eq!(rt; packet.sport(), 3);
    assert_eq!(rt; packet.dport(), 65535);
    assert_eq!(rt; packet.protocol(), 255);
    assert_eq!(rt; packet.value(5), Some(255));
    Ok(())
}

#[test]
fn decisions_by_number(rt: HostRuntime) -> Result<(), Fail> {
    for (minutes, number) in [(0, 9), (1, 0), (240, 0), (241, 9), (4294967295, 9)] {
        assert_eq!(rt; declined(Minutes::new(minutes)), number);
    }
    for number in [0, 1, 2, 241] {
        assert_eq!(rt; u32::from(CommandDecision::make(number)?.number()), number);
    }
    assert_eq!(rt; declined(CommandDecision::make(242)), 9);
    assert_eq!(rt;
        (
            PacketDecision::make(0)?.number(),
            PacketDecision::make(1)?.number(),
        ),
        (0, 1)
    );
    assert_eq!(rt; declined(PacketDecision::make(2)), 9);
    Ok(())
}

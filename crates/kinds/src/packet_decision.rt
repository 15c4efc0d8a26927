// The decisions on packets, from the strictest: discard 0, accept 1.
ghost use Rattle.kinds.specs.Packets.{packet_number};
ghost use Rattle.kinds.specs.PacketDecisionKindLemmas;
ghost use Rattle.std.proofs.Common.{rules};

use rules::decline::Decline;
use rules::kind::DecisionKind;
use std::fmt;

#[derive(Clone, Copy, PartialEq, Eq, Debug)]
pub enum PacketDecision {
    Discard,
    Accept,
}

impl DecisionKind for PacketDecision {
    ghost count = { 2 };

    ghost number = { packet_number };

    const COUNT: usize = 2;

    ghost COUNT = { 2 };

    ghost told = { Prim.search rules };

    ghost counted = { Prim.search rules };

    ghost numbered = { Prim.search rules };

    ghost determined = { Prim.search rules };

    ghost reached = { λ n h. PacketDecisionKindLemmas.numbered n h };

    fn number(&self) -> u8 {
        match self {
            PacketDecision::Discard => 0,
            PacketDecision::Accept => 1,
        }
    }

    fn make(given: u32) -> Result<PacketDecision, Decline> {
        match given {
            0 => Ok(PacketDecision::Discard),
            1 => Ok(PacketDecision::Accept),
            _ => Err(Decline::NotOfKind),
        }
    }
}

// In the words of the table text.
impl fmt::Display for PacketDecision {
    fn fmt<W: fmt::Write>(&self, f: &mut fmt::Formatter<W>) -> fmt::Result {
        match self {
            PacketDecision::Discard => write!(f, "discard"),
            PacketDecision::Accept => write!(f, "accept"),
        }
    }
}

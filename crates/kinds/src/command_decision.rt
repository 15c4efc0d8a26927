// The decisions on commands, from the strictest: refuse 0, hold 1 (a second key is awaited), permit M minutes 1 + M.
ghost use Rattle.kinds.specs.Commands.{command_number};
ghost use Rattle.kinds.specs.CommandDecisionKindLemmas.{same};
ghost use Rattle.kinds.specs.CommandDecisionKindLemmas;
ghost use Rattle.std.proofs.Common.{rules};

use crate::minutes::Minutes;
use rules::decline::Decline;
use rules::kind::DecisionKind;
use std::fmt;

#[derive(Clone, Copy, PartialEq, Eq, Debug)]
pub enum CommandDecision {
    Refuse,
    Hold,
    Permit(Minutes),
}

impl DecisionKind for CommandDecision {
    ghost count = { 242 };

    ghost number = { command_number };

    const COUNT: usize = 242;

    ghost COUNT = { 242 };

    ghost told = { Prim.search rules };

    ghost counted = { Prim.search rules };

    ghost numbered = { Prim.search rules };

    ghost determined = { λ d e h. same d e h };

    ghost reached = { λ n h. CommandDecisionKindLemmas.numbered n h };

    fn number(&self) -> u8 {
        match self {
            CommandDecision::Refuse => 0,
            CommandDecision::Hold => 1,
            CommandDecision::Permit(minutes) => 1 + minutes.value(),
        }
    }

    fn make(given: u32) -> Result<CommandDecision, Decline> {
        match given {
            0 => Ok(CommandDecision::Refuse),
            1 => Ok(CommandDecision::Hold),
            _ => Ok(CommandDecision::Permit(Minutes::new(given - 1)?)),
        }
    }
}

// In the words of the table text, as "hold" or "permit 30".
impl fmt::Display for CommandDecision {
    fn fmt<W: fmt::Write>(&self, f: &mut fmt::Formatter<W>) -> fmt::Result {
        match self {
            CommandDecision::Refuse => write!(f, "refuse"),
            CommandDecision::Hold => write!(f, "hold"),
            CommandDecision::Permit(minutes) => write!(f, "permit {}", minutes.value()),
        }
    }
}

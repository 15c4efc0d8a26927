// The command kind of request: what a keypad asks of the panel.
// Its fields are code, level (the access levels 1 to 4 of EN 54-2), command, loop (0 is the whole panel)
// and minute of the week (0 is Monday 00:00).
ghost use Rattle.std.specs.Prelude.{◌≡◌, ℕ, true, List, [], ◌∷◌, slice_index_or};
ghost use Rattle.std.proofs.Common.{rules};
ghost use Rattle.rules.specs.Intervals.{within};
ghost use Rattle.rules.specs.Kinds.{MadeFrom};
ghost use Rattle.rules.proofs.Making.{same_test};
ghost use Rattle.kinds.specs.Commands.{command_ranges};

use rules::decline::Decline;
use rules::interval::{Interval, of_field, within};
use rules::kind::RequestKind;
use std::fmt;

// The range of each field, in order.
const RANGES: [Interval; 5] = [
    Interval {
        lower: 0,
        upper: 9999,
    },
    Interval { lower: 1, upper: 4 },
    Interval {
        lower: 0,
        upper: 63,
    },
    Interval {
        lower: 0,
        upper: 16,
    },
    Interval {
        lower: 0,
        upper: 10079,
    },
];

#[derive(Clone, Copy, PartialEq, Eq, Debug)]
pub struct Command {
    code: u16,
    level: u8,
    command: u8,
    loop_number: u8,
    minute: u16,
    ghost ranged: { within command_ranges (code ∷ level ∷ command ∷ loop_number ∷ minute ∷ []) ≡ true },
}

impl Command {
    // Declined 9 where a value lies outside its field's range.
    pub fn new(
        code: u32,
        level: u32,
        command: u32,
        loop_number: u32,
        minute: u32,
    ) -> Result<Command, Decline>
        ensures { MadeFrom command_ranges (λ q. q.code ∷ q.level ∷ q.command ∷ q.loop_number ∷ q.minute ∷ []) (code ∷ level ∷ command ∷ loop_number ∷ minute ∷ []) result }
    {
        if !within(&RANGES, &[code, level, command, loop_number, minute]) {
            return Err(Decline::NotOfKind);
        }
        // Each cast keeps its value, by the test above: `try_from` would only add a refusal that never comes.
        Ok(Command {
            code: code as u16,
            level: level as u8,
            command: command as u8,
            loop_number: loop_number as u8,
            minute: minute as u16,
        })
    }

    pub fn code(&self) -> u16
        ensures { result ≡ self.now.code }
    {
        self.code
    }

    pub fn level(&self) -> u8
        ensures { result ≡ self.now.level }
    {
        self.level
    }

    pub fn command(&self) -> u8
        ensures { result ≡ self.now.command }
    {
        self.command
    }

    pub fn loop_number(&self) -> u8
        ensures { result ≡ self.now.loop_number }
    {
        self.loop_number
    }

    pub fn minute(&self) -> u16
        ensures { result ≡ self.now.minute }
    {
        self.minute
    }
}

impl RequestKind for Command {
    ghost ranges = { command_ranges };

    ghost values = { λ q. q.code ∷ q.level ∷ q.command ∷ q.loop_number ∷ q.minute ∷ [] };

    const FIELDS: usize = 5;

    ghost FIELDS = { 5 };

    ghost counted = { Prim.search rules };

    ghost ranged = { Prim.search rules };

    ghost valued = { Prim.search rules };

    // A command is no more than its values.
    ghost determined = { λ p q e.
        let at : ℕ → List ℕ → ℕ = λ k vs. slice_index_or vs k 0 in
        λ i. record {
          code = at 0 (e i);
          level = at 1 (e i);
          command = at 2 (e i);
          loop_number = at 3 (e i);
          minute = at 4 (e i);
          ranged = same_test (λ j. within command_ranges (at 0 (e j) ∷ at 1 (e j) ∷ at 2 (e j) ∷ at 3 (e j) ∷ at 4 (e j) ∷ [])) p.ranged q.ranged i;
        } };

    fn range(field: usize) -> Option<Interval> {
        of_field(&RANGES, field)
    }

    fn value(&self, field: usize) -> Option<u32> {
        match field {
            1 => Some(u32::from(self.code)),
            2 => Some(u32::from(self.level)),
            3 => Some(u32::from(self.command)),
            4 => Some(u32::from(self.loop_number)),
            5 => Some(u32::from(self.minute)),
            _ => None,
        }
    }

    fn make(given: &[u32]) -> Result<Command, Decline> {
        let [code, level, command, loop_number, minute] = given else {
            return Err(Decline::NotOfKind);
        };
        Command::new(*code, *level, *command, *loop_number, *minute)
    }
}

// Each field by its name, as "code 150, level 3, command 7, loop 2, minute 600".
impl fmt::Display for Command {
    fn fmt<W: fmt::Write>(&self, f: &mut fmt::Formatter<W>) -> fmt::Result {
        let Command {
            code,
            level,
            command,
            loop_number,
            minute,
        } = self;
        write!(
            f,
            "code {code}, level {level}, command {command}, loop {loop_number}, minute {minute}"
        )
    }
}

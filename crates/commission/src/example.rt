// The example table and its three handover tests.
ghost use Rattle.std.specs.Prelude.{◌<◌};

use kinds::command::Command;
use kinds::command_decision::CommandDecision;
use kinds::minutes::Minutes;
use rules::decline::Decline;
use rules::interval::Interval;
use rules::limits::whole_ranges;
use rules::rule::Clauses;
use rules::test::Test;
use std::alloc::Global;
use tables::draft::Draft;
use tables::table::Table;

fn permit(minutes: u32) -> Result<CommandDecision, Decline> {
    Minutes::new(minutes).map(CommandDecision::Permit)
}

// Clauses that ask of one field, counted from 0, a value from one end to the other, and nothing of the rest.
fn only(field: usize, lower: u32, upper: u32) -> Clauses
    requires { field < 6 }
{
    let mut clauses = whole_ranges::<Command>();
    clauses[field] = Interval::new(lower, upper);
    clauses
}

// Codes 100 to 199 are held; code 150 at levels 3 and 4 is permitted for 30 minutes; loop 5 for 10; all else is refused.
pub fn table(heap: Global) -> Result<Table<Command, CommandDecision>, Decline> {
    let mut draft = Draft::new(heap, CommandDecision::Refuse)?;
    draft.add(only(0, 100, 199), CommandDecision::Hold)?;
    let mut engineer = only(0, 150, 150);
    engineer[1] = Interval::new(3, 4);
    draft.add(engineer, permit(30)?)?;
    draft.add(only(3, 5, 5), permit(10)?)?;
    Ok(draft.close())
}

pub fn tests() -> Result<[Test<Command, CommandDecision>; 3], Decline> {
    Ok([
        Test {
            request: Command::new(150, 3, 7, 2, 600)?,
            expected: permit(30)?,
        },
        Test {
            request: Command::new(120, 2, 7, 2, 600)?,
            expected: CommandDecision::Hold,
        },
        Test {
            request: Command::new(300, 2, 7, 5, 600)?,
            expected: permit(10)?,
        },
    ])
}

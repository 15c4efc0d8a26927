// The program that commissions a panel's table: it builds the example table, judges its tests, tries edits,
// and piles a window and a withdrawal layer on, saying in words what was done and what was declined.
#![tactic(auto)]

mod commissioning;
mod example;
mod words;

use commissioning::Commissioning;
use judges::judge::Judge;
use judges::scan::Scan;
use kinds::command::Command;
use kinds::command_decision::CommandDecision;
use layers::windows::Windows;
use layers::withdrawals::Withdrawals;
use rules::interval::Interval;
use rules::test::Test;
use std::alloc::Global;
use std::io;
use tables::edit::Edit;

// The table alone: its tests, an edit looked at and made, and two edits that are declined.
fn try_edits(
    scan: &mut Commissioning<'_, impl Print, Scan<Command, CommandDecision>>,
) -> io::Result<()> {
    let count = scan.panel.count();
    println!(scan.rt; "The example table has {count} rules, the default included.")?;
    scan.judge_all()?;
    let swap = Edit::Swap {
        first: 1,
        second: 2,
    };
    scan.judge_under(&swap)?;
    scan.edit(&swap)?;
    scan.judge_all()?;
    scan.edit(&Edit::Swap {
        first: 1,
        second: 4,
    })?;
    scan.edit(&Edit::Change {
        place: 2,
        decision: CommandDecision::Hold,
    })
}

// A window on the minute, which holds all of Monday, and then a withdrawal layer on the code above it.
fn try_layers(
    heap: Global,
    scan: Commissioning<'_, impl Print, Scan<Command, CommandDecision>>,
) -> anyhow::Result<()> {
    let mut monday = Windows::on(heap, 5)?;
    monday.add(Interval::new(0, 1439), CommandDecision::Hold)?;
    let codes = Withdrawals::on(heap, 1)?;
    let Commissioning { rt, tests, panel } = scan;
    let panel = codes.over(monday.over(panel));
    let mut pile = Commissioning { rt, tests, panel };
    println!(pile.rt; "From minute 0 to 1439, Monday, nothing is laxer than hold:")?;
    pile.judge_all()?;
    let [first, ..] = tests;
    let tuesday = Test {
        request: Command::new(150, 3, 7, 2, 1440)?,
        expected: first.expected,
    };
    pile.judge_one(4, &tuesday)?;
    pile.withdraw_code(150)?;
    pile.judge_one(1, &first)?;
    pile.judge_one(4, &tuesday)?;
    pile.withdraw_code(150)?;
    pile.give_code_back(150)?;
    pile.judge_one(4, &tuesday)?;
    pile.give_code_back(150)?;
    Ok(())
}

fn run(rt: &(impl Print + AllocGlobal)) -> anyhow::Result<()> {
    let table = example::table(rt.alloc())?;
    let tests = example::tests()?;
    let panel = Scan::new(table);
    let mut scan = Commissioning { rt, tests, panel };
    try_edits(&mut scan)?;
    try_layers(rt.alloc(), scan)
}

fn main(rt: HostRuntime) -> anyhow::Result<()> {
    run(&rt)
}

// A panel that is being commissioned: the judge that decides in it, the handover tests that it has to pass,
// and where it is printed what was done and what was declined.
use crate::words::Judged;
use judges::judge::Judge;
use judges::verdict::Verdict;
use kinds::command::Command;
use kinds::command_decision::CommandDecision;
use rules::decline::Decline;
use rules::test::Test;
use std::{fmt, io};
use tables::edit::Edit;

#[derive(Drop)]
pub(crate) struct Commissioning<'a, R, J> {
    pub(crate) rt: &'a R,
    pub(crate) tests: [Test<Command, CommandDecision>; 3],
    pub(crate) panel: J,
}

impl<R: Print, J: Judge<Request = Command, Decision = CommandDecision>> Commissioning<'_, R, J> {
    fn tell(
        &self,
        number: usize,
        test: &Test<Command, CommandDecision>,
        verdict: &Verdict<CommandDecision>,
    ) -> io::Result<()> {
        let judged = Judged {
            number,
            test,
            verdict,
        };
        println!(self.rt; "{judged}")
    }

    // Judges a test and says whether it passes.
    pub(crate) fn judge_one(
        &self,
        number: usize,
        test: &Test<Command, CommandDecision>,
    ) -> io::Result<()> {
        self.tell(number, test, &self.panel.judge(&test.request))
    }

    pub(crate) fn judge_all(&self) -> io::Result<()> {
        for (k, test) in self.tests.iter().enumerate() {
            self.judge_one(k + 1, test)?;
        }
        Ok(())
    }

    // Judges the first test as if the edit had been made. The table stays as it is.
    pub(crate) fn judge_under(&self, edit: &Edit<CommandDecision>) -> io::Result<()> {
        println!(self.rt; "If {edit} were made:")?;
        let test = &self.tests[0];
        match self.panel.judge_under(&test.request, edit) {
            Ok(verdict) => self.tell(1, test, &verdict),
            Err(decline) => println!(self.rt; "  {decline}"),
        }
    }

    // Says in one line how a call went: what it did, or how it was declined and what is then as it was. It is printed by one call:
    // printed by two, the front would stand there without the outcome where the second is not written.
    fn say(
        &self,
        call: impl fmt::Display + Drop,
        went: Result<(), Decline>,
        done: &str,
        kept: &str,
    ) -> io::Result<()> {
        match went {
            Ok(()) => println!(self.rt; "{call}: {done}"),
            Err(decline) => println!(self.rt; "{call}: {decline}; {kept}"),
        }
    }

    pub(crate) fn edit(&mut self, edit: &Edit<CommandDecision>) -> io::Result<()> {
        let went = self.panel.edit(edit);
        self.say(
            format_args!("Edit {edit}"),
            went,
            "made",
            "the table is unchanged",
        )
    }

    pub(crate) fn withdraw_code(&mut self, code: u32) -> io::Result<()> {
        let went = self.panel.withdraw(1, code);
        self.say(
            format_args!("Withdraw code {code}"),
            went,
            "done",
            "nothing is changed",
        )
    }

    pub(crate) fn give_code_back(&mut self, code: u32) -> io::Result<()> {
        let went = self.panel.give_back(1, code);
        self.say(
            format_args!("Give code {code} back"),
            went,
            "done",
            "nothing is changed",
        )
    }
}

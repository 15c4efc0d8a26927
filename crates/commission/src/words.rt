// A judged test in words.
use judges::verdict::Verdict;
use kinds::command::Command;
use kinds::command_decision::CommandDecision;
use rules::test::Test;
use std::fmt;

#[derive(Drop)]
pub struct Judged<'a> {
    pub number: usize,
    pub test: &'a Test<Command, CommandDecision>,
    pub verdict: &'a Verdict<CommandDecision>,
}

// As "test 1 (code 150, ..): hold, by the rule at place 1, matching set 11; expected permit 30: fails".
impl fmt::Display for Judged<'_> {
    fn fmt<W: fmt::Write>(&self, f: &mut fmt::Formatter<W>) -> fmt::Result {
        let Judged {
            number,
            test,
            verdict,
        } = self;
        let Test { request, expected } = test;
        let Verdict {
            decision,
            place,
            matching,
        } = verdict;
        let outcome = if test.passes(decision) {
            "passes"
        } else {
            "fails"
        };
        write!(
            f,
            "  test {number} ({request}): {decision}, by the rule at place {place}, matching set {matching}; expected {expected}: {outcome}"
        )
    }
}

// A handover test: a request, and the decision that the panel is expected to make on it.
ghost use Rattle.std.specs.Prelude.{◌≡◌, ◌==◌};

use crate::kind::DecisionKind;

#[derive(Clone, Copy, Drop, PartialEq, Eq, Debug)]
pub struct Test<Q, D> {
    pub request: Q,
    pub expected: D,
}

impl<Q, D: DecisionKind> Test<Q, D> {
    // Whether this decision passes the test: by its number, which determines it, since a kind of decision need not have an `==`.
    pub fn passes(&self, decision: &D) -> bool
        ensures { result ≡ (D.DecisionKind.number self.now.expected == D.DecisionKind.number decision.now) }
    {
        self.expected.number() == decision.number()
    }
}

// What a judge answers: the decision, the place of the first matching rule, and the matching set,
// whose bit p - 1 is set exactly when the rule at place p matches.
#[derive(Clone, Copy, Drop, PartialEq, Eq, Debug)]
pub struct Verdict<D> {
    pub decision: D,
    pub place: usize,
    pub matching: u64,
}

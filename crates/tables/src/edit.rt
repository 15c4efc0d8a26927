// The single edits of a table. Places are numbered from 1, the top rule first.
ghost use Rattle.std.specs.Prelude.{◌≡◌};
ghost use Rattle.tables.specs.Edits.{plain_edit};

use rules::kind::DecisionKind;
use std::fmt;

#[derive(Clone, Copy, PartialEq, Eq, Debug, Drop)]
pub enum Edit<D> {
    // Gives the rule at a place another decision.
    Change { place: usize, decision: D },
    // Exchanges the rules at two places, the first above the second, the default being neither.
    Swap { first: usize, second: usize },
    // Removes the rule at a place, unless it is the default; later rules move up.
    Delete { place: usize },
}

// The same edit with the decision's number in place of the decision: tables keep plain numbers.
impl<D: DecisionKind> From<&Edit<D>> for Edit<u8> {
    ghost from_gives = { λ edit plain. plain ≡ plain_edit D.DecisionKind.number edit.now };

    fn from(edit: &Edit<D>) -> Edit<u8> {
        match edit {
            Edit::Change { place, decision } => Edit::Change {
                place: *place,
                decision: decision.number(),
            },
            Edit::Swap { first, second } => Edit::Swap {
                first: *first,
                second: *second,
            },
            Edit::Delete { place } => Edit::Delete { place: *place },
        }
    }
}

// As "swap 1, 2".
impl<D: fmt::Display> fmt::Display for Edit<D> {
    fn fmt<W: fmt::Write>(&self, f: &mut fmt::Formatter<W>) -> fmt::Result {
        match self {
            Edit::Change { place, decision } => write!(f, "change {place} to {decision}"),
            Edit::Swap { first, second } => write!(f, "swap {first}, {second}"),
            Edit::Delete { place } => write!(f, "delete {place}"),
        }
    }
}

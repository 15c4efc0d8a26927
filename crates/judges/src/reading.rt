// A verdict read off a table from the top, for every kind: the typed answer over the plain numbers of a view.
ghost use Rattle.std.specs.Prelude.{[]};
ghost use Rattle.judges.specs.Meanings.{VerdictOn};
ghost use Rattle.judges.specs.Views.{Readable, under};
ghost use Rattle.rules.specs.Rules.{cut};

use crate::verdict::Verdict;
use crate::view::View;
use rules::kind::{DecisionKind, RequestKind};
use rules::limits::Limits;
use rules::rule::Rule;
use rules::values::Values;
use tables::edit::Edit;

// The verdict on a request by the rules as kept, under an edit if there is one.
pub(crate) fn verdict<Q: RequestKind, D: DecisionKind>(
    rules: &[Rule],
    edit: Option<Edit<u8>>,
    request: &Q,
) -> Verdict<D>
    requires { Readable Q.RequestKind.ranges D.DecisionKind.count rules.now edit }
    ensures { VerdictOn (record { rules = under edit (cut Q.RequestKind.ranges D.DecisionKind.count rules.entry.now); notes = [] }) (Q.RequestKind.values request.now) D.DecisionKind.number result }
{
    let view = View::new(rules, edit, Limits::of::<Q, D>());
    let gathered = Values::of(request);
    let values = gathered.as_slice();
    let place = view.first_match(values).unwrap();
    Verdict {
        decision: D::make(u32::from(view.decision_at(place))).unwrap(),
        place,
        matching: view.matching_set(values),
    }
}

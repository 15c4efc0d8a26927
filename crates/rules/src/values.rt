// The values that a request bears, as plain numbers, so that matching is written once for every kind.
ghost use Rattle.std.specs.Prelude.{◌≡◌, ◌≤◌, length, take};

use crate::kind::RequestKind;
use std::array;

// An array and how many of it count, and no Vec: a judge gathers the values anew for each request, without claiming memory.
// A generic struct for these and for the ranges of `Limits` is no plainer: beside a ghost field it cannot derive `Clone`.
#[derive(Clone, Copy, PartialEq, Eq, Debug)]
pub struct Values {
    list: [u32; 6],
    fields: usize,
    ghost few: { fields ≤ 6 },
}

// The values of a request, from the start of the array.
fn values_of<Q: RequestKind>(request: &Q) -> [u32; 6]
    ensures { take (length Q.RequestKind.ranges) result ≡ Q.RequestKind.values request.now }
{
    array::from_fn(|k| request.value(k + 1).unwrap_or(0))
}

impl Values {
    pub fn of<Q: RequestKind>(request: &Q) -> Values
        ensures { take result.fields result.list ≡ Q.RequestKind.values request.now }
    {
        Values {
            list: values_of(request),
            fields: Q::field_count(),
        }
    }

    pub fn as_slice(&self) -> &[u32]
        ensures { result.now ≡ take self.now.fields self.now.list }
    {
        &self.list[0..self.fields]
    }
}

// A value of a field, as it is given to withdraw or to give back: whether there is such a field, and such a value of it.
ghost use Rattle.std.specs.Prelude.{◌≡◌};
ghost use Rattle.rules.specs.Declines.{declined};
ghost use Rattle.rules.specs.Kinds.{of_field};
ghost use Rattle.judges.specs.Notes.{value_decline};

use rules::decline::Decline;
use rules::kind::RequestKind;

// Declined 14 where there is no such field, then 5 where the value lies outside its range.
pub fn check_value<Q: RequestKind>(field: usize, value: u32) -> Result<(), Decline>
    ensures { declined result ≡ value_decline (of_field Q.RequestKind.ranges field) value }
{
    let range = Q::range(field).ok_or(Decline::NoSuchField)?;
    if !range.holds(value) {
        return Err(Decline::OutsideRange);
    }
    Ok(())
}

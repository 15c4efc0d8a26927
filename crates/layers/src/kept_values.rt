// The withdrawn values of a field, up to 32, none twice, in the order in which they were withdrawn.
ghost use Rattle.std.specs.Prelude.{◌≢◌, AllPairs};

use crate::field_list::FieldList;

#[derive(Drop)]
pub struct KeptValues {
    pub(crate) list: FieldList<u32, 32>,
    ghost apart: { AllPairs (λ x y. x ≢ y) list.items.items },
}

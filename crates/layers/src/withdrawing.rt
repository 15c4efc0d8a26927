// Keeping withdrawn values: a request that bears one of them is refused.
ghost use Rattle.std.specs.Prelude.{◌≡◌, ◌==◌, position};
ghost use Rattle.layers.specs.Kept.{values_note};
ghost use Rattle.judges.specs.Notes.{holds_value};

use crate::keeper::Keeper;
use crate::kept_values::KeptValues;
use rules::decline::Decline;

impl KeptValues {
    // Whether the value is withdrawn.
    #[tactic(auto, using(crate::proofs::KeptLists::holds_any))]
    fn holds(&self, value: u32) -> bool
        ensures { result ≡ holds_value self.now.list.items.items value }
    {
        self.list.items.contains(&value)
    }

    // Where it stands among those that are, if it does. Kept out of line, where its loop is short: beside the moving up of later
    // values it would count for that too, at each value.
    #[inline(never)]
    fn index_of(&self, value: u32) -> Option<usize>
        ensures { result ≡ position (λ x. x == value) self.now.list.items.items }
    {
        self.list.items.iter().position(|kept| *kept == value)
    }
}

impl Keeper for KeptValues {
    ghost note = { values_note };

    fn field(&self) -> usize {
        self.list.field
    }

    fn lower(&self, value: u32, number: u8) -> u8 {
        if self.holds(value) { 0 } else { number }
    }

    fn withdraw(&mut self, field: usize, value: u32) -> Option<Result<(), Decline>> {
        if field != self.list.field {
            return None;
        }
        if self.holds(value) {
            return Some(Err(Decline::AlreadyWithdrawn));
        }
        if self.list.is_full() {
            return Some(Err(Decline::NoteFull));
        }
        self.list.push(value);
        Some(Ok(()))
    }

    #[tactic(auto, using(crate::proofs::KeptLists::holds_position))]
    fn give_back(&mut self, field: usize, value: u32) -> Option<Result<(), Decline>> {
        if field != self.list.field {
            return None;
        }
        let Some(index) = self.index_of(value) else {
            return Some(Err(Decline::NotWithdrawn));
        };
        self.list.items.remove(index);
        Some(Ok(()))
    }
}

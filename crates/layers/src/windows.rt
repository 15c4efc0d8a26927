// A window layer: set up on a field, it takes up to 8 windows before it is piled; a request inside windows is lowered
// to their smallest cap, if that is stricter.
ghost use Rattle.std.specs.Prelude.{◌≡◌, true, [], is_some, IfOk, IfErr};
ghost use Rattle.rules.specs.Declines.{declined};
ghost use Rattle.rules.specs.Kinds.{of_field};
ghost use Rattle.layers.specs.Kept.{windows_note};
ghost use Rattle.layers.specs.Layers.{layer_meaning, set_up_decline, ends_decline, WindowAdded};
ghost use Rattle.judges.specs.Meanings.{over};
ghost use Rattle.judges.specs.Notes.{windows as NoteOfWindows};

use crate::field_list::FieldList;
use crate::kept_windows::KeptWindows;
use crate::layer::Layer;
use judges::judge::Judge;
use judges::window::Window;
use rules::decline::Decline;
use rules::interval::Interval;
use rules::kind::{DecisionKind, RequestKind};
use std::alloc::Global;
use std::marker::PhantomData;

#[derive(Drop)]
pub struct Windows<Q, D> {
    kept: KeptWindows,
    kinds: PhantomData<(Q, D)>,
}

// Checks the ends of a window on a field, as a rule's clause is checked.
fn check_ends<Q: RequestKind>(field: usize, interval: &Interval) -> Result<(), Decline>
    ensures { declined result ≡ ends_decline (of_field Q.RequestKind.ranges field) interval.now }
{
    let range = Q::range(field).ok_or(Decline::NoSuchField)?;
    interval.check_in(&range)
}

impl<Q: RequestKind, D: DecisionKind> Windows<Q, D> {
    // Set up on a field, with no window. All the memory that it will need is claimed here.
    // Declined 14 where there is no such field, then 99 where there is not enough memory.
    pub fn on(heap: Global, field: usize) -> Result<Windows<Q, D>, Decline>
        ensures made { IfOk result (λ w. (is_some (of_field Q.RequestKind.ranges field) ≡ true) × (windows_note w.kept ≡ NoteOfWindows field [])) }
        ensures declines { IfErr result (λ decline. decline ≡ set_up_decline (of_field Q.RequestKind.ranges field)) }
    {
        let kept = FieldList::on::<Q>(heap, field)?;
        Ok(Windows {
            kept,
            kinds: PhantomData,
        })
    }

    // Adds a window, both ends inside it, with its cap. Declined 7 where there are 8 already, then 5 for the lower end,
    // 5 for the upper, then 6; the layer is then as it was.
    pub fn add(&mut self, interval: Interval, cap: D) -> Result<(), Decline>
        ensures { WindowAdded (of_field Q.RequestKind.ranges self.old.kept.field) self.old.kept.field self.old.kept.items.items (record { interval = interval; cap = D.DecisionKind.number cap }) (declined result) (windows_note self.new.kept) }
    {
        if self.kept.is_full() {
            return Err(Decline::Full);
        }
        check_ends::<Q>(self.kept.field, &interval)?;
        let window = Window {
            interval,
            cap: cap.number(),
        };
        self.kept.push(window);
        Ok(())
    }

    // Piles the layer on a judge of its kinds, which it takes. It is never declined.
    // A function beside that of withdrawals, since caps are decisions of one kind, and the judge's must be of that kind too.
    pub fn over<J: Judge<Request = Q, Decision = D>>(self, below: J) -> Layer<KeptWindows, J>
        ensures { layer_meaning windows_note J.Judge.meaning result ≡ over (windows_note self.kept) (J.Judge.meaning below) }
    {
        Layer {
            kept: self.kept,
            below,
        }
    }
}

// A withdrawal layer: set up on a field, it keeps up to 32 values, none at first, and a request that bears one is refused.
ghost use Rattle.std.specs.Prelude.{◌≡◌, true, [], is_some, IfOk, IfErr};
ghost use Rattle.rules.specs.Kinds.{of_field};
ghost use Rattle.layers.specs.Kept.{values_note};
ghost use Rattle.layers.specs.Layers.{layer_meaning, set_up_decline};
ghost use Rattle.judges.specs.Meanings.{over};
ghost use Rattle.judges.specs.Notes.{withdrawals as NoteOfValues};

use crate::field_list::FieldList;
use crate::kept_values::KeptValues;
use crate::layer::Layer;
use judges::judge::Judge;
use rules::decline::Decline;
use rules::kind::RequestKind;
use std::alloc::Global;
use std::marker::PhantomData;

#[derive(Drop)]
pub struct Withdrawals<Q> {
    kept: KeptValues,
    kind: PhantomData<Q>,
}

impl<Q: RequestKind> Withdrawals<Q> {
    // Set up on a field, with no value. All the memory that it will need is claimed here.
    // Declined 14 where there is no such field, then 99 where there is not enough memory.
    pub fn on(heap: Global, field: usize) -> Result<Withdrawals<Q>, Decline>
        ensures made { IfOk result (λ w. (is_some (of_field Q.RequestKind.ranges field) ≡ true) × (values_note w.kept ≡ NoteOfValues field [])) }
        ensures declines { IfErr result (λ decline. decline ≡ set_up_decline (of_field Q.RequestKind.ranges field)) }
    {
        let list = FieldList::on::<Q>(heap, field)?;
        Ok(Withdrawals {
            kept: KeptValues { list },
            kind: PhantomData,
        })
    }

    // Piles the layer on a judge of its kind, which it takes. It is never declined.
    pub fn over<J: Judge<Request = Q>>(self, below: J) -> Layer<KeptValues, J>
        ensures { layer_meaning values_note J.Judge.meaning result ≡ over (values_note self.kept) (J.Judge.meaning below) }
    {
        Layer {
            kept: self.kept,
            below,
        }
    }
}

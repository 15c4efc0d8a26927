// A list that a layer keeps on a field: up to N items, in the order in which they came.
// Memory for all of them is claimed when the layer is set up, so that no later call can want any.
ghost use Rattle.std.specs.Prelude.{◌≡◌, ◌<◌, ◌≤◌, true, [], ◌∷◌, ◌++◌, is_some, nat_le, vec_len, vec_capacity, vec_items, IfOk, IfErr};
ghost use Rattle.rules.specs.Kinds.{of_field};
ghost use Rattle.layers.specs.Layers.{set_up_decline};

use rules::decline::Decline;
use rules::kind::RequestKind;
use std::alloc::Global;

#[derive(Drop)]
pub struct FieldList<T, const N: usize> {
    pub(crate) field: usize,
    pub(crate) items: Vec<T>,
    ghost few: { vec_len items ≤ N },
    ghost room: { N ≤ vec_capacity items },
}

impl<T, const N: usize> FieldList<T, N> {
    // Set up on a field, with no item. Declined 14 where there is no such field, then 99 where there is not enough memory.
    // The public calls that set a layer up state this again: each of them states its own promise.
    pub(crate) fn on<Q: RequestKind>(heap: Global, field: usize) -> Result<FieldList<T, N>, Decline>
        ensures made { IfOk result (λ list. (is_some (of_field Q.RequestKind.ranges field) ≡ true) × (list.field ≡ field) × (vec_items list.items ≡ [])) }
        ensures declines { IfErr result (λ decline. decline ≡ set_up_decline (of_field Q.RequestKind.ranges field)) }
    {
        Q::range(field).ok_or(Decline::NoSuchField)?;
        let items = Vec::with_capacity(heap, N)?;
        Ok(FieldList { field, items })
    }

    // Whether there are N items already.
    pub(crate) fn is_full(&self) -> bool
        ensures { result ≡ nat_le N (vec_len self.now.items) }
    {
        self.items.len() >= N
    }

    // Puts one more behind the others.
    pub(crate) fn push(&mut self, item: T)
        requires { vec_len self.old.items < N }
        ensures field { self.new.field ≡ self.old.field }
        ensures items { self.new.items.items ≡ self.old.items.items ++ (item ∷ []) }
    {
        self.items.push_reserved(item);
    }
}

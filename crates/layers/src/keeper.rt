// What a layer keeps: its note, what that makes of a decision, and its own part in withdrawing and giving back.
// A layer over a judge is written once for everything that is a keeper.
ghost use Rattle.std.specs.Prelude.{◌≡◌, Some};
ghost use Rattle.layers.specs.Keeping.{Acted, Bars, Frees, own_answer};
ghost use Rattle.judges.specs.Notes.{Note, note_field, noted_value, withdraw_checks, withdrawn, give_back_checks, given_back};

use rules::decline::Decline;

pub trait Keeper: Drop + Sized {
    ghost note: { Self → Note };

    // The field that the layer stands on.
    fn field(&self) -> usize
        ensures { result ≡ note_field (note self.now) };

    // The number of the decision that the note makes of this one, on a request that bears the value in the note's field.
    fn lower(&self, value: u32, number: u8) -> u8
        ensures { result ≡ noted_value (note self.now) (Some value) number };

    // Withdraws the value if the note keeps withdrawn values of this field; None where it does not.
    fn withdraw(&mut self, field: usize, value: u32) -> Option<Result<(), Decline>>
        ensures acted { Acted withdraw_checks withdrawn (note self.old) field value (own_answer result) (note self.new) }
        ensures bars { Bars field value (own_answer result) (note self.new) };

    // Gives the value back if the note keeps withdrawn values of this field; None where it does not.
    fn give_back(&mut self, field: usize, value: u32) -> Option<Result<(), Decline>>
        ensures acted { Acted give_back_checks given_back (note self.old) field value (own_answer result) (note self.new) }
        ensures frees { Frees field value (own_answer result) (note self.new) };
}

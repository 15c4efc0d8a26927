// Keeping windows: a request inside some of them is lowered to their smallest cap, if that is stricter.
ghost use Rattle.std.specs.Prelude.{◌≡◌, min, map, filter, fold};
ghost use Rattle.rules.specs.Intervals.{inside};
ghost use Rattle.layers.specs.Kept.{windows_note};

use crate::keeper::Keeper;
use crate::kept_windows::KeptWindows;
use judges::window::Window;
use rules::decline::Decline;

// The least of a decision's number and the caps of the windows that hold the value.
fn least_cap(windows: &[Window], value: u32, number: u8) -> u8
    ensures { result ≡ fold min number (map (λ w. w.cap) (filter (λ w. inside w.interval value) windows.now)) }
{
    windows
        .iter()
        .filter(|window| window.interval.holds(value))
        .map(|window| window.cap)
        .fold(number, u8::min)
}

// Windows keep no withdrawn values, so withdrawing and giving back are for the judge below.
impl Keeper for KeptWindows {
    ghost note = { windows_note };

    fn field(&self) -> usize {
        self.field
    }

    #[tactic(auto, using(crate::proofs::KeptLists::caps_in_turn))]
    fn lower(&self, value: u32, number: u8) -> u8 {
        least_cap(&self.items, value, number)
    }

    fn withdraw(&mut self, _field: usize, _value: u32) -> Option<Result<(), Decline>> {
        None
    }

    fn give_back(&mut self, _field: usize, _value: u32) -> Option<Result<(), Decline>> {
        None
    }
}

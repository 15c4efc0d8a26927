// A window of a window layer: inside the interval, both ends included, a decision is lowered to the cap if that is stricter.
// The cap is a decision's number, as a rule's decision is: plain numbers, for every kind alike.
use rules::interval::Interval;

#[derive(Clone, Copy, PartialEq, Eq, Debug)]
pub struct Window {
    pub interval: Interval,
    pub cap: u8,
}

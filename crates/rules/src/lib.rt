// Rules: declines, intervals, the kinds of request and decision, when a rule matches, and handover tests.
#![tactic(auto)]

pub mod decline;
pub mod interval;
pub mod kind;
pub mod limits;
pub mod rule;
pub mod test;
pub mod values;

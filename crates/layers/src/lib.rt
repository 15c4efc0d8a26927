// Layers over any judge: withdrawals, which refuse the values that they keep, and windows, which lower decisions inside them.
// Each layer over a judge is again a judge.
#![tactic(auto)]

pub mod capping;
pub mod field_list;
pub mod keeper;
pub mod kept_values;
pub mod kept_windows;
pub mod layer;
pub mod windows;
pub mod withdrawals;
pub mod withdrawing;

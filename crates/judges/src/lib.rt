// Judges: the interface that every judge and every layer keeps, and the scan, which reads a table from the top.
#![tactic(auto)]

pub mod field_value;
pub mod judge;
mod reading;
pub mod scan;
pub mod verdict;
mod view;
pub mod window;

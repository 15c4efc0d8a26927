// Rule tables: drafts, the tables that they are closed to, and the single edits of a table.
#![tactic(auto)]

pub mod draft;
pub mod edit;
mod rule_edits;
mod rule_list;
pub mod table;

// The kinds that panels judge: keypad commands and gateway packets, with the decisions on each.
#![tactic(auto)]

pub mod command;
pub mod command_decision;
pub mod minutes;
pub mod packet;
pub mod packet_decision;

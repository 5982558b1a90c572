//! Action sheets: how fluents change by actions, as the rules of a program over two times.
#![tactic(auto)]

pub mod action_sheet;
pub mod law;

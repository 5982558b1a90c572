//! Worked examples: small programs with all their models, and rule sources of the examples' own.
#![tactic(auto)]

#[cfg(test)]
mod actions;
pub mod either;
pub mod guarded;
#[cfg(test)]
mod models;
pub mod rule_table;

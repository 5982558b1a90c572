//! Two-valued logic programs: literals, rules, rule sources, closures and models.
#![tactic(auto)]

pub mod closure;
pub mod literal;
pub mod refusal;
pub mod rule;
pub mod source;

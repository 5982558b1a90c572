//! The search: the smallest model of a program above a number, found without walking through the numbers between.
#![tactic(auto)]

mod learned;
mod narrow;
mod picks;
mod problem;
mod rows;
pub mod smallest;
mod trail;
mod unfounded;

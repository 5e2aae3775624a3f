#![tactic(auto)]

pub mod point;
pub mod row;

#![tactic(auto)]

pub mod entry;
pub mod layout;
pub mod point;
pub mod record;
pub mod refusal;
pub mod row;
pub mod show;

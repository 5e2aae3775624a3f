// What the programs beside the library share: the tables that they lend, what they read and how they show it.
#![tactic(auto)]

pub mod input;
pub mod lent;
pub mod show;
pub mod sum;

// What stands round closure in a call (document 01, "What comes back"): marks are judged before it, the points of new midpoints are stored after it, and a call without room is undone.
#![tactic(auto)]

pub mod marks;
pub mod points;
pub mod undo;

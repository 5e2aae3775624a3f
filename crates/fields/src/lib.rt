// One read line: its fields, and the numbers and floats that they spell (document 01, "The program").
#![tactic(auto)]

mod digits;
mod field;
mod line;

pub use crate::digits::bits;
pub use crate::field::{TAB, stop};
pub use crate::line::{Line, read_line};

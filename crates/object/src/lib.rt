// What stands at an offset of a file: one object, or why there is none.
#![tactic(auto)]

pub mod container;
pub mod content;
pub mod kind;
pub mod read;
pub mod refusal;

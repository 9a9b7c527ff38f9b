// What C links: each function is the one of its name in the crate `exports`, under the same promise.
#![tactic(auto)]

pub mod date;
pub mod tape_append;
pub mod tape_step;
pub mod text;
pub mod transcript;
pub mod write;

// What Rust and C link: each function is a thin one over a crate's own, by the C calling convention.
#![tactic(auto)]

pub mod date;
pub mod numbers;
pub mod tape_append;
pub mod tape_step;
pub mod text;
pub mod transcript;
pub mod write;

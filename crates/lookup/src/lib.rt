// The value under a list of keys, on a tape that is one whole root.
#![tactic(auto)]

pub mod answer;
pub mod append;
pub mod find;
mod path;
mod seek;

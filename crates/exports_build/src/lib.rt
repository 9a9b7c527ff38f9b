// What Rust and C link of the builder. It is a library of its own: a second function that judges events and checks a tape would make `zm_write`
// slower in one library with it (docs/DECISIONS.md).
#![tactic(auto)]

pub mod build;

// What the programs that replay the reader's answers share: lines on standard input, each answered.
#![tactic(auto)]

pub mod answer;
mod by_tape;
pub mod forged;

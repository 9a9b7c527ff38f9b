// A tape built call by call: each event is judged when it comes.
#![tactic(auto)]

pub mod answer;
pub mod build;
pub mod finish;
pub mod state;
pub mod words;

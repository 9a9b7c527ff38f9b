// Which events make one whole root, and which don't.
#![tactic(auto)]

pub mod answer;
mod around;
pub mod check;
pub mod turn;
pub mod way;

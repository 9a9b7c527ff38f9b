// Lines of hex digits: what the programs that run recorded answers read and write.
#![tactic(auto)]

pub mod hex;
pub mod line;
pub mod stream;

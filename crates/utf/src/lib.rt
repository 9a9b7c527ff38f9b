// Text: UTF-8 and UTF-16, checked and changed into each other.
#![tactic(auto)]

pub mod changed;
mod plain;
pub mod to_utf16;
pub mod unchecked;
pub mod utf16;
pub mod utf8;

// The lines of a listing, in ASCII: each is put whole with its newline, or not at all.
#![tactic(auto)]

pub mod piece;
pub mod put;

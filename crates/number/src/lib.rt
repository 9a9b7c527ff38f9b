// Big-endian numbers, read from a part of a slice and written into one; the size of a maximum; signed numbers; bytes copied.
#![tactic(auto)]

pub mod be;
pub mod copy;
pub mod signed;
pub mod size;
pub mod width;

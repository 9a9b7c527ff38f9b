// Sizes and bytes of the objects that scalars are written as, and of heads and references.
#![tactic(auto)]

pub mod put;
pub mod size;
pub mod unchecked;

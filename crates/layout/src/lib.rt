// What a file says: its trailer, its offset table, the references of a container, and an object by its number.
#![tactic(auto)]

pub mod frame;
pub mod layout;
pub mod lookup;
pub mod refusal;
pub mod trailer;

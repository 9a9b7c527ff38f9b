// What C links of the lookup: each function is the one of its name in the crate `exports_find`, under the same promise. It is a library of its
// own, as that is.
#![tactic(auto)]

pub mod find;
pub mod path_append;

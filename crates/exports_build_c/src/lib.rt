// What C links of the builder: each function is the one of its name in the crate `exports_build`, under the same promise. It is a library of
// its own, as that is.
#![tactic(auto)]

pub mod build;

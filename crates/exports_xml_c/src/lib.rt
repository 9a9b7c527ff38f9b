// What C links of XML: each function is the one of its name in the crate `exports_xml`, under the same promise. It is a library of its own, as
// that is.
#![tactic(auto)]

pub mod as_xml;

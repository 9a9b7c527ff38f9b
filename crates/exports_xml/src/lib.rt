// What Rust and C link of XML. It is a library of its own: a second function that checks a tape and walks along it would make `zm_write` slower
// in one library with it (docs/DECISIONS.md).
#![tactic(auto)]

pub mod as_xml;

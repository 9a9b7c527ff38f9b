// The event tape: events as bytes, appended at the end and stepped over from the front.
#![tactic(auto)]

pub mod append;
pub mod end;
pub mod item;
pub mod room;
mod seven;
pub mod step;
pub mod unchecked;
pub mod utf16;
pub mod value;

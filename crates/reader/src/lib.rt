// The reader: open containers, one event a call, and the text request.
#![tactic(auto)]

pub mod answer;
pub mod opened;
pub mod refusal;
pub mod request;
pub mod state;
pub mod step;

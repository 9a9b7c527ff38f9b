// What a call of the reader answers.
use crate::refusal::Refusal;
use crate::state::Reader;
use event::Event;

// An event, and the number and the offset of the object that it comes from; for an end those of the container it closes.
#[derive(Clone, Copy)]
pub struct Record {
    pub event: Event,
    pub number: u32,
    pub offset: u64,
}

// A refusal comes with its place.
#[derive(Clone, Copy)]
pub enum Answer {
    Handed(Record),
    Ended,
    Refused(Refusal, u64),
}

// The state after a call stands beside its answer.
#[derive(Clone, Copy)]
pub struct Stepped {
    pub reader: Reader,
    pub answer: Answer,
}

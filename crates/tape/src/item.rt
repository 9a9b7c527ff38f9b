// What a step along the tape answers.
use event::Event;

// An event, where the bytes of its data or text stand, and where the next event begins. Other events have no bytes, at the next event.
#[derive(Clone, Copy)]
pub struct Item {
    pub event: Event,
    pub start: usize,
    pub length: usize,
    pub next: usize,
}

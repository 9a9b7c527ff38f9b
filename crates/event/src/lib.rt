// What a property list says, one event at a time.
#![tactic(auto)]

pub mod date;
pub mod limits;
pub mod real;
pub mod same;

// A number that an i64 or a u64 holds. Two are compared by value.
#[derive(Clone, Copy)]
pub enum Integer {
    Signed(i64),
    Unsigned(u64),
}

// Data and text carry no bytes: where those stand is said beside the event. A real that is a number is Real; the bits of one
// that isn't are Nan, since the language has one NaN only.
#[derive(Clone, Copy)]
pub enum Event {
    StartArray(Option<u64>),
    StartDictionary(Option<u64>),
    EndCollection,
    Boolean(bool),
    Data,
    Date(u64),
    Integer(Integer),
    Real(f64),
    Nan(u64),
    String,
    Uid(u64),
}

// Why the writer writes no file.
use grammar::answer::Refusal;

// The tape's refusal with its place; or what there is too little room for; or that the file would be too long.
#[derive(Clone, Copy)]
pub enum WriteError {
    Refused(Refusal, u64),
    NoRoomForWork,
    NoRoomForOutput,
    FileTooLong,
}

// What a change of text from one form to the other answers.

#[derive(Clone, Copy)]
pub enum Changed {
    // How many bytes of the text now stand at the start of the lent memory.
    Written(usize),
    // What was to be changed is no text.
    NotText,
    // The lent memory is shorter than the text.
    NoRoom,
}

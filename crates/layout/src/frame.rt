// The open containers of a reader.

// One of them: its object's number, how many of its references were handed out, its number of elements or pairs, its object's
// offset.
#[derive(Clone, Copy)]
pub struct Frame {
    pub object: u32,
    pub position: u32,
    pub length: u32,
    pub offset: u32,
}

impl Frame {
    pub const NONE: Frame = Frame {
        object: 0,
        position: 0,
        length: 0,
        offset: 0,
    };
}

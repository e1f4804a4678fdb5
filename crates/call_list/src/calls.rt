//! The calls that a line can name.

/// One piece of an area: `len` bytes from `start` on.
// Not the `Piece` of the crate `buffer`: this has a line's 64-bit numbers, tests compare its printed form, and this crate needs none of the writer's.
#[derive(Clone, Copy, Debug)]
pub struct Span {
    pub start: u64,
    pub len: u64,
}

/// One call, with its arguments.
#[derive(Debug, Drop)]
pub enum Call {
    Flat {
        limit: u64,
        content: Vec<u8>,
        durable: Option<Vec<u8>>,
    },
    Writer {
        capacity: u64,
    },
    /// Both `write_at` and `write_pieces`: pieces of one area.
    WriteAt {
        place: u64,
        area: Vec<u8>,
        pieces: Vec<Span>,
    },
    TryWriteAt {
        place: u64,
        bytes: Vec<u8>,
    },
    Resize {
        len: u64,
    },
    Sync,
    ReadAt {
        place: u64,
        len: u64,
    },
    Size,
    NeedsSync,
    Blob,
    Boxes,
}

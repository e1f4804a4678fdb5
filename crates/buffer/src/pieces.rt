// Piece lists: an area of bytes, and the pieces of it that a write lays end to end.
ghost use Rattle.std.specs.Prelude.{◌≡◌, ◌+◌, ◌≤◌, true, length};
ghost use Rattle.blob.specs.Bytes.{part};
ghost use Rattle.buffer.specs.Pieces.{inside, run, carries, Checked};

use crate::error::Error;
use blob::area::end_within;

// The most pieces of a list.
const MAX_PIECES: usize = 1024;

// The most bytes of a piece.
const MAX_PIECE_LEN: usize = 65536;

// A part of an area: where it starts, and how many bytes it has.
#[derive(Clone, Copy)]
pub struct Piece {
    pub start: usize,
    pub len: usize,
}

impl Piece {
    // Whether the piece lies inside an area of `area_len` bytes and is not too long.
    fn is_inside(&self, area_len: usize) -> bool
        ensures { result ≡ inside area_len self.now }
    {
        self.len <= MAX_PIECE_LEN && end_within(self.start, self.len, area_len).is_some()
    }
}

#[derive(Clone, Copy)]
pub struct PieceList<'a> {
    pub area: &'a [u8],
    pub pieces: &'a [Piece],
}

impl PieceList<'_> {
    // Whether the list carries any byte. A loop over the records, a form that docs/DECISIONS.md keeps.
    pub fn carries_any_byte(&self) -> bool
        ensures { result ≡ carries self.now.pieces.now }
    {
        let mut any = false;
        for piece in self.pieces {
            if piece.len > 0 {
                any = true;
            }
        }
        any
    }

    // The number of bytes that the list carries, or why it is no sound list.
    pub fn check(&self) -> Result<usize, Error>
        ensures { Checked (length self.now.area.now) self.now.pieces.now result }
    {
        if self.pieces.len() > MAX_PIECES {
            return Err(Error::TooManyPieces);
        }
        let mut total = 0;
        for (i, piece) in self.pieces.iter().enumerate() {
            if !piece.is_inside(self.area.len()) {
                return Err(Error::BadPiece(i));
            }
            total += piece.len;
        }
        Ok(total)
    }

    // The bytes of a piece that lies inside the area.
    pub fn run(&self, piece: &Piece) -> &[u8]
        requires { inside (length self.now.area.now) piece.now ≡ true }
        ensures { result.now ≡ run self.now.area.now piece.now }
    {
        &self.area[piece.start..piece.start + piece.len]
    }
}

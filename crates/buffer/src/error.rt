// What a writer answers when it does not do what it was asked.
ghost use Rattle.std.specs.Prelude.{◌≡◌, Some};
ghost use Rattle.buffer.specs.declared.error.Error.TheVariants.{DeviceFault};
ghost use Rattle.buffer.specs.Numbers.{step_number, number, text};

use std::fmt;

// What the writer was doing when the device failed.
#[derive(Clone, Copy, Debug, PartialEq, Eq)]
pub enum Step {
    // Writing the drained tip.
    Flush = 1,
    // Writing a piece that does not go through the tip.
    DirectWrite = 2,
    Resize = 3,
    Sync = 4,
    // Waiting for a started sync.
    Wait = 5,
    Read = 6,
}

impl Step {
    pub fn number(&self) -> u8
        ensures { result ≡ step_number self.now }
    {
        *self as u8
    }
}

// A failure of the device, told whole: its code, the step, and the place. The place is the first byte of a
// write or a read, the new length of a resize, and 0 for a sync and a wait.
#[derive(Clone, Copy, Debug, PartialEq, Eq)]
pub struct Fault {
    pub code: u8,
    pub step: Step,
    pub place: u64,
}

#[derive(Clone, Copy, Debug, PartialEq, Eq)]
pub enum Error {
    // A capacity outside 1 to 4,096.
    BadCapacity,
    // More than 1,024 pieces.
    TooManyPieces,
    // A piece, by its number from 0, that leaves its area or is longer than 65,536 bytes.
    BadPiece(usize),
    // A range that ends at or above 2^64.
    OffsetOverflow,
    // A resize or a filled write that ends above the blob's limit.
    NoRoom,
    // A read that ends past the size.
    BlobInsufficientLength,
    // An earlier fault has closed the writer.
    Closed,
    // A blob call that this call made has failed.
    DeviceFault(Fault),
}

impl Error {
    // A match, since `as` takes no enum that carries values.
    pub fn number(&self) -> u8
        ensures { result ≡ number self.now }
    {
        match self {
            Error::BadCapacity => 1,
            Error::TooManyPieces => 2,
            Error::BadPiece(_) => 3,
            Error::OffsetOverflow => 4,
            Error::NoRoom => 5,
            Error::BlobInsufficientLength => 6,
            Error::Closed => 8,
            Error::DeviceFault(_) => 9,
        }
    }
}

impl From<Fault> for Error {
    ghost from_gives = { λ fault r. r ≡ DeviceFault fault };

    fn from(fault: Fault) -> Error {
        Error::DeviceFault(fault)
    }
}

// A refusal by its number, its name and its values. Written by hand, since a derive promises nothing of the text.
impl fmt::Display for Error {
    ghost output = { λ e. Some (text e) };

    fn fmt<W: fmt::Write>(&self, f: &mut fmt::Formatter<W>) -> fmt::Result {
        let n = self.number();
        match self {
            Error::BadCapacity => write!(f, "{n} BadCapacity"),
            Error::TooManyPieces => write!(f, "{n} TooManyPieces"),
            Error::BadPiece(i) => write!(f, "{n} BadPiece {i}"),
            Error::OffsetOverflow => write!(f, "{n} OffsetOverflow"),
            Error::NoRoom => write!(f, "{n} NoRoom"),
            Error::BlobInsufficientLength => write!(f, "{n} BlobInsufficientLength"),
            Error::Closed => write!(f, "{n} Closed"),
            Error::DeviceFault(fault) => {
                let step = fault.step.number();
                let code = fault.code;
                let place = fault.place;
                write!(f, "{n} DeviceFault step {step} code {code} place {place}")
            }
        }
    }
}

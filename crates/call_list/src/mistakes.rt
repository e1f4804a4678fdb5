//! What can be wrong with a line.
ghost use Rattle.std.specs.Prelude.{◌≡◌, Some};
ghost use Rattle.call_list.specs.Phrases.{phrase};
ghost use Rattle.call_list.specs.declared.mistakes.Mistake.TheVariants.{OutOfMemory};

use std::alloc::{AllocError, AllocFailed};
use std::fmt;

/// Why a line is no call. The number is that of the word that the mistake is about; the name of the call is word 0.
#[derive(Clone, Copy)]
pub enum Mistake {
    UnknownCall,
    MissingWord(usize),
    SpareWord(usize),
    NotANumber(usize),
    NumberTooLarge(usize),
    NotHexadecimal(usize),
    OddDigits(usize),
    NotAPair(usize),
    OutOfMemory,
}

// Two impls, since `?` meets two types: this one from `collect`, and `AllocFailed` from `push`.
impl From<AllocError> for Mistake {
    ghost from_gives = { λ _ r. r ≡ OutOfMemory };

    fn from(_e: AllocError) -> Mistake {
        Mistake::OutOfMemory
    }
}

impl<T: Drop> From<AllocFailed<T>> for Mistake {
    ghost from_gives = { λ _ r. r ≡ OutOfMemory };

    fn from(_e: AllocFailed<T>) -> Mistake {
        Mistake::OutOfMemory
    }
}

// By hand, since a derive promises no `output`.
impl fmt::Display for Mistake {
    ghost output = { λ m. Some (phrase m) };

    fn fmt<W: fmt::Write>(&self, f: &mut fmt::Formatter<W>) -> fmt::Result {
        match self {
            Mistake::UnknownCall => write!(f, "unknown call"),
            Mistake::MissingWord(k) => write!(f, "word {k} is missing"),
            Mistake::SpareWord(k) => write!(f, "word {k} is one too many"),
            Mistake::NotANumber(k) => write!(f, "word {k} is not a number"),
            Mistake::NumberTooLarge(k) => write!(f, "word {k} does not fit in 64 bits"),
            Mistake::NotHexadecimal(k) => write!(f, "word {k} is not lowercase hexadecimal"),
            Mistake::OddDigits(k) => write!(f, "word {k} has an odd number of digits"),
            Mistake::NotAPair(k) => write!(f, "word {k} is not START,LENGTH"),
            Mistake::OutOfMemory => write!(f, "out of memory"),
        }
    }
}

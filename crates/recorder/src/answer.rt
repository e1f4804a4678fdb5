// What is printed for a call.
ghost use Rattle.std.specs.Prelude.{◌≡◌, Some};
ghost use Rattle.recorder.specs.Problems.{words};
ghost use Rattle.recorder.specs.declared.answer.Failure.TheVariants as failure;
ghost use Rattle.recorder.specs.declared.answer.Failure.TheVariants.{Refused, BadStart};
ghost use Rattle.recorder.specs.declared.answer.Problem.TheVariants.{Line, OutOfMemory};

use crate::hex::Hex;
use blobs::flat::StartError;
use buffer::error::Error;
use call_list::Mistake;
use std::alloc::AllocError;
use std::fmt;
use writer::sync_state::SyncState;

// The two images of a blob: what can be read of it, and what a power cut would leave.
#[derive(Drop)]
pub struct Images<B> {
    pub content: B,
    pub durable: B,
}

// The tip and the images, and what is known of durability.
#[derive(Drop)]
pub struct Drawing {
    pub offset: u64,
    pub tip: Vec<u8>,
    pub images: Images<Vec<u8>>,
    pub sync_state: SyncState,
    // A flag beside the state: a closed writer still has the state that it was closed in, and both are told.
    pub closed: bool,
}

#[derive(Drop)]
pub enum Answer {
    Accepted,
    Bytes(Vec<u8>),
    YesNo(bool),
    Number(u64),
    Images(Images<Vec<u8>>),
    Boxes(Drawing),
}

// Why a line was not performed.
#[derive(Clone, Copy)]
pub enum Problem {
    Line(Mistake),
    NoBlob,
    NoWriter,
    BlobHeld,
    UnequalImages,
    OutOfMemory,
}

// Why a call has no answer: the writer or the blob refuses it, or the line was not performed.
#[derive(Clone, Copy)]
pub enum Failure {
    Refused(Error),
    BadStart(StartError),
    Problem(Problem),
}

impl From<Error> for Failure {
    ghost from_gives = { λ error r. r ≡ Refused error };

    fn from(error: Error) -> Failure {
        Failure::Refused(error)
    }
}

impl From<StartError> for Failure {
    ghost from_gives = { λ error r. r ≡ BadStart error };

    fn from(error: StartError) -> Failure {
        Failure::BadStart(error)
    }
}

impl From<Problem> for Failure {
    ghost from_gives = { λ problem r. r ≡ failure.Problem problem };

    fn from(problem: Problem) -> Failure {
        Failure::Problem(problem)
    }
}

impl From<Mistake> for Failure {
    ghost from_gives = { λ mistake r. r ≡ failure.Problem (Line mistake) };

    fn from(mistake: Mistake) -> Failure {
        Failure::Problem(Problem::Line(mistake))
    }
}

impl From<AllocError> for Failure {
    ghost from_gives = { λ _ r. r ≡ failure.Problem OutOfMemory };

    fn from(_e: AllocError) -> Failure {
        Failure::Problem(Problem::OutOfMemory)
    }
}

// Written out, since the derive of `thiserror` promises no text.
impl fmt::Display for Problem {
    ghost output = { λ p. Some (words p) };

    fn fmt<W: fmt::Write>(&self, f: &mut fmt::Formatter<W>) -> fmt::Result {
        match self {
            Problem::Line(mistake) => write!(f, "{mistake}"),
            Problem::NoBlob => write!(f, "there is no blob"),
            Problem::NoWriter => write!(f, "there is no writer"),
            Problem::BlobHeld => write!(f, "a writer holds the blob"),
            Problem::UnequalImages => write!(
                f,
                "the content and the durable image differ in length"
            ),
            Problem::OutOfMemory => write!(f, "memory cannot hold it"),
        }
    }
}

// By hand: a derive would print the names of the fields.
impl fmt::Display for Drawing {
    fn fmt<W: fmt::Write>(&self, f: &mut fmt::Formatter<W>) -> fmt::Result {
        let Images { content, durable } = &self.images;
        write!(f, "[tip at {}: {}] -> ", self.offset, Hex(&self.tip))?;
        write!(
            f,
            "[blob: {}] -> [durable: {}] ",
            Hex(content),
            Hex(durable)
        )?;
        if self.closed {
            write!(f, "Closed")
        } else {
            write!(f, "{:?}", self.sync_state)
        }
    }
}

// By hand: a derive would print the names of the variants.
impl fmt::Display for Answer {
    fn fmt<W: fmt::Write>(&self, f: &mut fmt::Formatter<W>) -> fmt::Result {
        match self {
            Answer::Accepted => write!(f, "ok"),
            Answer::Bytes(bytes) => write!(f, "ok {}", Hex(bytes)),
            Answer::YesNo(true) => write!(f, "yes"),
            Answer::YesNo(false) => write!(f, "no"),
            Answer::Number(n) => write!(f, "{n}"),
            Answer::Images(Images { content, durable }) => write!(
                f,
                "content {} durable {}",
                Hex(content),
                Hex(durable)
            ),
            Answer::Boxes(drawing) => write!(f, "{drawing}"),
        }
    }
}

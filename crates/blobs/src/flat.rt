// The flat blob: one area of memory, the content in its first half and the durable image in its second.
ghost use Rattle.std.specs.Prelude.{◌≡◌, ◌+◌, ◌^◌, ◌≤◌, false, take, Some, vec_len};
ghost use Rattle.blob.specs.Meaning.{broken};
ghost use Rattle.blob.specs.Bytes.{part};
ghost use Rattle.blob.specs.declared.StartedSync.TheVariants.{Done};
ghost use Rattle.blobs.specs.Flat.{number, text};

use blob::StartedSync;
use std::fmt;

mod calls;

// Why a starting length is refused.
#[derive(Clone, Copy)]
pub enum StartError {
    // It is above the limit.
    BadStart = 7,
}

impl StartError {
    // The number of the refusal.
    pub fn number(&self) -> u8
        ensures { result ≡ number self.now }
    {
        *self as u8
    }
}

// A refusal by its number and its name. Written by hand, since a derive promises nothing of the text.
impl fmt::Display for StartError {
    ghost output = { λ e. Some (text e) };

    fn fmt<W: fmt::Write>(&self, f: &mut fmt::Formatter<W>) -> fmt::Result {
        let n = self.number();
        match self {
            StartError::BadStart => write!(f, "{n} BadStart"),
        }
    }
}

// A caller knows each byte of the one area, so the area stays whole and the lengths of its two images stand beside it.
#[derive(Drop)]
pub struct FlatBlob {
    area: Vec<u8>,
    // Where the second half begins.
    limit: usize,
    len: usize,
    durable_len: usize,
    started: StartedSync,
    // No `impl Model`: the law `unbroken` of a blob holds of every value, and the plain record of a model keeps no fact.
    ghost halves: { limit + limit ≤ vec_len area },
    ghost small: { limit ≤ 2 ^ 62 },
    ghost content_fits: { len ≤ limit },
    ghost durable_fits: { durable_len ≤ limit },
    ghost unbroken: { broken started ≡ false },
    ghost done: { started ≡ Done → part area.items limit durable_len ≡ take len area.items },
}

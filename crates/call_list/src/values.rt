//! What one word stands for: a number, bytes, a pair of numbers.
ghost use Rattle.std.specs.Prelude.{◌≡◌, ◌==◌, ◌^◌, ◌≤◌, position, vec_items, MatchOption};
ghost use Rattle.call_list.specs.Line.{every};
ghost use Rattle.call_list.specs.Values.{is_digit, is_hex, value_of, number_of, hex_of, pair_of, Reads};

use crate::calls::Span;
use crate::mistakes::Mistake;
use hex::FromHexError;
use std::alloc::Global;

/// A word of a line, with its number in the line, for the mistake.
#[derive(Clone, Copy)]
pub struct Word<'a> {
    pub bytes: &'a [u8],
    pub index: usize,
}

fn all_digits(bytes: &[u8]) -> bool
    ensures { result ≡ every is_digit bytes.now }
{
    bytes.iter().all(|b| b.is_ascii_digit())
}

/// The value of digits, where it fits.
fn digits_value(digits: &[u8]) -> Option<u64>
    ensures { MatchOption result (2 ^ 64 ≤ value_of digits.now) (λ n. n ≡ value_of digits.now) }
{
    digits.iter().try_fold(0u64, |n, b| {
        n.checked_mul(10)?
            .checked_add(u64::from(b.saturating_sub(b'0')))
    })
}

// The test that `hex::decode` lacks: it takes capitals too.
fn all_hex(bytes: &[u8]) -> bool
    ensures { result ≡ every is_hex bytes.now }
{
    bytes.iter().all(|b| matches!(b, b'0'..=b'9' | b'a'..=b'f'))
}

/// The place of the first comma.
fn comma(bytes: &[u8]) -> Option<usize>
    ensures { result ≡ position (λ b. b == 44) bytes.now }
{
    bytes.iter().position(|b| *b == b',')
}

impl Word<'_> {
    /// The value of decimal digits.
    pub fn number(&self) -> Result<u64, Mistake>
        ensures { result ≡ number_of self.now.index self.now.bytes.now }
    {
        if self.bytes.is_empty() || !all_digits(self.bytes) {
            return Err(Mistake::NotANumber(self.index));
        }
        digits_value(self.bytes).ok_or(Mistake::NumberTooLarge(self.index))
    }

    /// The bytes of a word of digits; `-` stands for none.
    #[tactic(auto, using(crate::proofs::Digits::decoded_word))]
    pub fn hex(&self, heap: Global) -> Result<Vec<u8>, Mistake>
        ensures { Reads vec_items result (hex_of self.now.index self.now.bytes.now) }
    {
        if self.bytes == b"-".as_slice() {
            return Ok(Vec::new(heap));
        }
        if !all_hex(self.bytes) {
            return Err(Mistake::NotHexadecimal(self.index));
        }
        let index = self.index;
        hex::decode(heap, self.bytes).map_err(|e| match e {
            FromHexError::OutOfMemory => Mistake::OutOfMemory,
            FromHexError::OddLength => Mistake::OddDigits(index),
            _ => Mistake::NotHexadecimal(index),
        })
    }

    /// `START,LENGTH`, cut at the first comma.
    pub fn pair(&self) -> Result<Span, Mistake>
        ensures { result ≡ pair_of self.now.index self.now.bytes.now }
    {
        let index = self.index;
        let Some(at) = comma(self.bytes) else {
            return Err(Mistake::NotAPair(index));
        };
        let start = Word {
            bytes: &self.bytes[..at],
            index,
        };
        let len = Word {
            bytes: &self.bytes[at + 1..],
            index,
        };
        Ok(Span {
            start: start.number()?,
            len: len.number()?,
        })
    }
}

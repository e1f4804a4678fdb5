//! Reads the words of a line at their places: `k` is the number of a word, and the name of the call is word 0.
ghost use Rattle.std.specs.Prelude.{◌≡◌, drop, IfOk, Ok, vec_items};
ghost use Rattle.std.specs.Option.{option_map};
ghost use Rattle.call_list.specs.Calls.{word_as, optional_as, all_as, no_more, one_number, pieces_of, parts};
ghost use Rattle.call_list.specs.Line.{contents};
ghost use Rattle.call_list.specs.Values.{number_of, hex_of, pair_of, told, Reads};

use crate::calls::Span;
use crate::mistakes::Mistake;
use crate::values::Word;
use std::alloc::Global;

/// The words of a line, and the heap for what they stand for.
#[derive(Clone, Copy)]
pub struct Args<'a> {
    pub heap: Global,
    pub words: &'a [&'a [u8]],
}

impl<'a> Args<'a> {
    fn word(&self, k: usize) -> Result<Word<'a>, Mistake>
        ensures bytes { told (λ w. w.bytes.now) result ≡ word_as (λ _ bytes. Ok bytes) (contents self.now.words.now) k }
        ensures index { IfOk result (λ w. w.index ≡ k) }
    {
        match self.words.get(k) {
            Some(bytes) => Ok(Word { bytes, index: k }),
            None => Err(Mistake::MissingWord(k)),
        }
    }

    pub fn number(&self, k: usize) -> Result<u64, Mistake>
        ensures { result ≡ word_as number_of (contents self.now.words.now) k }
    {
        self.word(k)?.number()
    }

    pub fn hex(&self, k: usize) -> Result<Vec<u8>, Mistake>
        ensures { Reads vec_items result (word_as hex_of (contents self.now.words.now) k) }
    {
        self.word(k)?.hex(self.heap)
    }

    /// A word that may be left out.
    pub fn hex_if_any(&self, k: usize) -> Result<Option<Vec<u8>>, Mistake>
        ensures { Reads (option_map vec_items) result (optional_as hex_of (contents self.now.words.now) k) }
    {
        if k < self.words.len() {
            self.hex(k).map(Some)
        } else {
            Ok(None)
        }
    }

    /// Refuses a line that has a word `k`.
    pub fn no_more(&self, k: usize) -> Result<(), Mistake>
        ensures { result ≡ no_more (contents self.now.words.now) k }
    {
        if k < self.words.len() {
            return Err(Mistake::SpareWord(k));
        }
        Ok(())
    }

    /// The arguments of a call that takes one number.
    pub fn one_number(&self) -> Result<u64, Mistake>
        ensures { result ≡ one_number (contents self.now.words.now) }
    {
        let n = self.number(1)?;
        self.no_more(2)?;
        Ok(n)
    }

    /// The words from `from` on, each a pair.
    pub fn pairs_from(&self, from: usize) -> Result<Vec<Span>, Mistake>
        ensures { Reads vec_items result (all_as pair_of from (drop from (contents self.now.words.now))) }
    {
        let mut pairs = Vec::new(self.heap);
        for (index, bytes) in self.words.iter().enumerate().skip(from) {
            pairs.push(Word { bytes, index }.pair()?)?;
        }
        Ok(pairs)
    }

    /// The words from `from` on, each the bytes of one piece. They become one area, where the pieces lie end to end.
    // A pair, since the struct that holds both is `Call::WriteAt`.
    pub fn pieces_from(&self, from: usize) -> Result<(Vec<u8>, Vec<Span>), Mistake>
        ensures value { Reads (λ both. (both.0.items, both.1.items)) result (pieces_of from (drop from (contents self.now.words.now))) }
        ensures held { IfOk result (λ both. all_as hex_of from (drop from (contents self.now.words.now)) ≡ Ok (parts both.0.items both.1.items)) }
    {
        let mut area = Vec::new(self.heap);
        let mut pieces = Vec::new(self.heap);
        for (index, digits) in self.words.iter().enumerate().skip(from) {
            let word = Word {
                bytes: digits,
                index,
            };
            let bytes = word.hex(self.heap)?;
            pieces.push(Span {
                start: area.len() as u64,
                len: bytes.len() as u64,
            })?;
            area.extend_from_slice(&bytes)?;
        }
        Ok((area, pieces))
    }
}

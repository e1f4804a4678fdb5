// The tip: the bytes at the end of the capture that have not been passed to the blob yet.
ghost use Rattle.std.specs.Prelude.{◌≡◌, ◌+◌, ◌-◌, ◌≤◌, length};
ghost use Rattle.blob.specs.Bytes.{part as part_of};
ghost use Rattle.buffer.specs.Tip.{Sized, HeldPart, Merges, Drains, Resized, raised, fresh, below, buffered};

use blob::area::{clear, end_within};

// The most bytes that a tip can hold.
pub const MAX_CAPACITY: usize = 4096;

// Fills a part of the tip with a run of the same length.
fn copy_run(part: &mut [u8], run: &[u8])
    requires { length part.old ≡ length run.now }
    ensures { part.new ≡ run.now }
{
    part.copy_from_slice(run);
}

// `Sized` is no ghost field: `new`, `resize` and `raise` take any number, and definitions make tips of any bytes and length.
#[derive(Drop)]
pub struct Buffer {
    // The first `len` of these are buffered. An array, since no writer call allocates and those behind stay readable.
    bytes: [u8; MAX_CAPACITY],
    len: usize,
    // The place of the first buffered byte.
    offset: u64,
    capacity: usize,
}

impl Buffer {
    // An empty tip at `offset`.
    pub fn new(offset: u64, capacity: usize) -> Buffer
        ensures { result ≡ fresh offset capacity }
    {
        Buffer {
            bytes: [0; MAX_CAPACITY],
            len: 0,
            offset,
            capacity,
        }
    }

    // Where the capture ends, buffered bytes included.
    pub fn size(&self) -> u64
        requires { Sized self.now }
        ensures { result ≡ self.now.offset + self.now.len }
    {
        self.offset + self.len as u64
    }

    pub fn is_empty(&self) -> bool
        ensures { result ≡ Rattle.buffer.specs.Tip.empty self.now }
    {
        self.len == 0
    }

    // The place of the first buffered byte.
    pub fn offset(&self) -> u64
        ensures { result ≡ self.now.offset }
    {
        self.offset
    }

    // How many of the `n` bytes from `place` on lie below the offset.
    pub fn below(&self, place: u64, n: usize) -> usize
        ensures { result ≡ below self.now place n }
    {
        (self.offset.saturating_sub(place)).min(n as u64) as usize
    }

    // The held bytes from `start` to `end`.
    pub fn slice(&self, start: usize, end: usize) -> &[u8]
        requires { HeldPart start end }
        ensures { result.now ≡ part_of self.now.bytes start (end - start) }
    {
        &self.bytes[start..end]
    }

    // The buffered bytes.
    pub fn buffered(&self) -> &[u8]
        requires { Sized self.now }
        ensures { result.now ≡ buffered self.now }
    {
        self.slice(0, self.len)
    }

    // Merges the run into the tip where it fits between the offset and the capacity. A gap in the tip
    // becomes zeros. Answers whether it fitted; where it did not, nothing has changed. A place and a run beside it,
    // as the ported code has them.
    #[tactic(auto, using(blob::proofs::Parts::part_writes, crate::proofs::Tips::merges))]
    pub fn merge(&mut self, place: u64, run: &[u8]) -> bool
        requires { Sized self.old }
        ensures { Merges self.old place run.now result self.new }
    {
        let Some(start) = place.checked_sub(self.offset) else {
            return false;
        };
        let start = start as usize;
        let Some(end) = end_within(start, run.len(), self.capacity) else {
            return false;
        };
        if run.is_empty() {
            return true;
        }
        clear(&mut self.bytes, self.len, start);
        copy_run(&mut self.bytes[start..end], run);
        self.len = self.len.max(end);
        true
    }

    // Empties the tip: the range that it held, as its offset and its length, unless it was empty. The
    // offset moves to the range's end. The bytes stay to be read until the next merge.
    pub fn take(&mut self) -> Option<(u64, usize)>
        requires { Sized self.old }
        ensures { Drains self.old result self.new }
    {
        if self.is_empty() {
            return None;
        }
        let range = (self.offset, self.len);
        self.offset += self.len as u64;
        self.len = 0;
        Some(range)
    }

    // Fits the tip to a capture of `len` bytes. At or above the size it is emptied and the range that it
    // held is handed out; inside it is shortened; below it is emptied. The offset of an empty tip is `len`.
    pub fn resize(&mut self, len: u64) -> Option<(u64, usize)>
        requires { Sized self.old }
        ensures { Resized self.old len result self.new }
    {
        if len < self.size() && len >= self.offset {
            self.len = (len - self.offset) as usize;
            return None;
        }
        let range = if len < self.offset { None } else { self.take() };
        self.len = 0;
        self.offset = len;
        range
    }

    // Lifts an offset below `end` to it.
    pub fn raise(&mut self, end: u64)
        ensures { self.new ≡ raised self.old end }
    {
        self.offset = self.offset.max(end);
    }
}

// The writer: it gathers the packets of a capture in its tip and passes them to a blob.
ghost use Rattle.std.specs.Prelude.{◌≡◌, true, false, length, MatchResult};
ghost use Rattle.buffer.specs.declared.error.Error.TheVariants.{Closed};
ghost use Rattle.buffer.specs.Tip.{buffered};
ghost use Rattle.writer.specs.Steps.{Consistent, Admits, Concludes, WriteAt, TryWriteAt, ResizeTo, SyncAll, ChecksRead, ReadAt, ChecksCapacity, made, size, needs_sync};
ghost use Rattle.writer.specs.View.{view};

use crate::boxes::Boxes;
use crate::sync_state::SyncState;
use blob::Blob;
use blob::area::end_within;
use buffer::error::{Error, Fault};
use buffer::pieces::PieceList;
use buffer::tip::{Buffer, MAX_CAPACITY};

#[derive(Drop)]
pub struct Write<B> {
    boxes: Boxes<B>,
    // A fault has closed the writer. A flag and no variant of an enum: the parts of a closed writer are shown too.
    closed: bool,
}

// Whether a writer can be made with a tip of this capacity.
pub fn check_capacity(capacity: usize) -> Result<(), Error>
    ensures { ChecksCapacity capacity result }
{
    if capacity == 0 || capacity > MAX_CAPACITY {
        return Err(Error::BadCapacity);
    }
    Ok(())
}

// How a call ends that was neither refused nor made on a closed writer: a fault closes the writer.
fn conclude(closed: &mut bool, outcome: Result<(), Fault>) -> Result<(), Error>
    ensures { Concludes outcome closed.old result closed.new }
{
    if outcome.is_err() {
        *closed = true;
    }
    Ok(outcome?)
}

impl<B: Blob> Write<B> {
    // A writer at the end of the blob's content. A capacity that the check refuses becomes the nearest one
    // that it takes.
    pub fn new(blob: B, capacity: usize) -> Write<B>
        ensures made { view B.disk result ≡ made (B.disk blob) capacity }
        ensures consistent { Consistent (view B.disk result) }
    {
        // No content exceeds the limit, so this is the content's length.
        let offset = blob.len().min(blob.limit());
        let buffer = Buffer::new(offset, capacity.clamp(1, MAX_CAPACITY));
        let boxes = Boxes {
            blob,
            // What the blob holds may not be durable yet.
            sync_state: SyncState::Dirty,
            buffer,
        };
        Write {
            boxes,
            closed: false,
        }
    }

    // The length of the capture, buffered bytes included; 0 once the writer is closed.
    pub fn size(&self) -> u64
        requires { Consistent (view B.disk self.now) }
        ensures { result ≡ size (view B.disk self.now) }
    {
        if self.closed {
            return 0;
        }
        self.boxes.buffer.size()
    }

    // Whether bytes are buffered or changes of the blob need a sync; no once the writer is closed.
    pub fn needs_sync(&self) -> bool
        requires { Consistent (view B.disk self.now) }
        ensures { result ≡ needs_sync (view B.disk self.now) }
    {
        !self.closed && (!self.boxes.buffer.is_empty() || !self.boxes.sync_state.is_clean())
    }

    // Refuses a call of a writer that a fault has closed.
    fn check_open(&self) -> Result<(), Error>
        ensures { MatchResult result (λ _. self.now.closed ≡ false) (λ e. (e ≡ Closed) × (self.now.closed ≡ true)) }
    {
        if self.closed {
            return Err(Error::Closed);
        }
        Ok(())
    }

    // Whether a write of the list at `place` is refused.
    fn admit(&self, place: u64, list: &PieceList) -> Result<(), Error>
        ensures { Admits (view B.disk self.now) place (length list.now.area.now) list.now.pieces.now result }
    {
        let end = place
            .checked_add(list.check()? as u64)
            .ok_or(Error::OffsetOverflow)?;
        if list.carries_any_byte() && end > self.boxes.blob.limit() {
            return Err(Error::NoRoom);
        }
        Ok(())
    }

    // Writes the pieces of the list end to end from `place` on. They go into the tip where they merge; else
    // the tip is flushed, or they are written to the blob directly.
    pub fn write_at(&mut self, place: u64, list: &PieceList) -> Result<(), Error>
        requires { Consistent (view B.disk self.old) }
        ensures step { WriteAt (view B.disk self.old) place list.now.area.now list.now.pieces.now result (view B.disk self.new) }
        ensures consistent { Consistent (view B.disk self.new) }
    {
        self.check_open()?;
        self.admit(place, list)?;
        let outcome = self.boxes.lay_pieces(place, list);
        conclude(&mut self.closed, outcome)
    }

    // Merges the run into the tip if it fits there, and answers whether it did. It asks nothing of the blob
    // but its limit. A place and a run beside it, as the ported code has them.
    pub fn try_write_at(&mut self, place: u64, run: &[u8]) -> bool
        requires { Consistent (view B.disk self.old) }
        ensures step { TryWriteAt (view B.disk self.old) place run.now result (view B.disk self.new) }
        ensures consistent { Consistent (view B.disk self.new) }
    {
        if self.closed {
            return false;
        }
        if run.is_empty() {
            return true;
        }
        let limit = self.boxes.blob.limit() as usize;
        if end_within(place as usize, run.len(), limit).is_none() {
            return false;
        }
        self.boxes.buffer.merge(place, run)
    }

    // Cuts the capture to `len` bytes, or adds zeros up to there.
    pub fn resize(&mut self, len: u64) -> Result<(), Error>
        requires { Consistent (view B.disk self.old) }
        ensures step { ResizeTo (view B.disk self.old) len result (view B.disk self.new) }
        ensures consistent { Consistent (view B.disk self.new) }
    {
        self.check_open()?;
        if len > self.boxes.blob.limit() {
            return Err(Error::NoRoom);
        }
        let outcome = self.boxes.resize(len);
        conclude(&mut self.closed, outcome)
    }

    // Makes the whole capture durable.
    pub fn sync(&mut self) -> Result<(), Error>
        requires { Consistent (view B.disk self.old) }
        ensures step { SyncAll (view B.disk self.old) result (view B.disk self.new) }
        ensures consistent { Consistent (view B.disk self.new) }
    {
        self.check_open()?;
        let outcome = self.boxes.sync();
        conclude(&mut self.closed, outcome)
    }

    // Whether a read of `n` bytes at `place` is refused.
    pub fn check_read(&self, place: u64, n: u64) -> Result<(), Error>
        requires { Consistent (view B.disk self.now) }
        ensures { ChecksRead (view B.disk self.now) place n result }
    {
        self.check_open()?;
        let end = place.checked_add(n).ok_or(Error::OffsetOverflow)?;
        if end > self.boxes.buffer.size() {
            return Err(Error::BlobInsufficientLength);
        }
        Ok(())
    }

    // Fills `out` with the bytes of the capture from `place` on.
    pub fn read_at(&mut self, place: u64, out: &mut [u8]) -> Result<(), Error>
        requires { Consistent (view B.disk self.old) }
        ensures step { ReadAt (view B.disk self.old) place out.old result (view B.disk self.new) out.new }
        ensures consistent { Consistent (view B.disk self.new) }
    {
        self.check_read(place, out.len() as u64)?;
        self.boxes.read_at(place, out)
    }

    // The blob, to be looked at.
    pub fn blob(&self) -> &B
        ensures { result.now ≡ self.now.boxes.blob }
    {
        &self.boxes.blob
    }

    // The buffered bytes.
    pub fn tip(&self) -> &[u8]
        requires { Consistent (view B.disk self.now) }
        ensures { result.now ≡ buffered self.now.boxes.buffer }
    {
        self.boxes.buffer.buffered()
    }

    // The place of the first buffered byte, or where the next one will stand.
    pub fn tip_offset(&self) -> u64
        ensures { result ≡ self.now.boxes.buffer.offset }
    {
        self.boxes.buffer.offset()
    }

    // What is known of the blob's durability.
    pub fn sync_state(&self) -> SyncState
        ensures { result ≡ self.now.boxes.sync_state }
    {
        self.boxes.sync_state
    }

    // Whether a fault has closed the writer.
    pub fn is_closed(&self) -> bool
        ensures { result ≡ self.now.closed }
    {
        self.closed
    }
}

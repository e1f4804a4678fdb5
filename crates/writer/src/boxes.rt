// The tip and the blob behind it: how bytes pass from the one to the other.
ghost use Rattle.std.specs.Prelude.{◌≡◌, ◌+◌, ◌^◌, ◌<◌, ◌≤◌, length, take};
ghost use Rattle.buffer.specs.declared.error.Step.TheVariants.{Flush};
ghost use Rattle.writer.specs.declared.sync_state.WriteOptions.TheVariants.{Plain};
ghost use Rattle.buffer.specs.Tip.{Beyond};
ghost use Rattle.writer.specs.Stores.{StoreWrites};
ghost use Rattle.writer.specs.Boxes.{Flushes, WritesRun, PlacesRun, LaysRun, LaysPieces, ResizesBoxes, SyncsBoxes};
ghost use Rattle.writer.specs.Steps.{Ready, Writable, ReadsBelow, Gathers, running};
ghost use Rattle.writer.specs.Parts.{parts};

use crate::sync_state::{SyncState, WriteOptions, located};
use blob::Blob;
use buffer::error::{Error, Fault, Step};
use buffer::pieces::PieceList;
use buffer::tip::Buffer;

#[derive(Drop)]
pub(crate) struct Boxes<B> {
    pub(crate) blob: B,
    pub(crate) sync_state: SyncState,
    // The bytes at the end of the capture that the blob does not have yet.
    pub(crate) buffer: Buffer,
}

// `Ready` stands in most contracts here and not in the type: after a fault the tip and the blob do not meet it any
// more, and the writer is closed. A run and its place, and that it ends within the limit, are asked of each part as the
// ported code passes them: one check, `admit`, answers for all.
impl<B: Blob> Boxes<B> {
    // Writes the range that was drained from the tip to the blob.
    fn write_drained(&mut self, offset: u64, len: usize, options: WriteOptions) -> Result<(), Fault>
        requires { (len ≤ 4096) × (offset + len ≤ (B.disk self.old.blob).limit) }
        ensures writes { StoreWrites options Flush offset (take len self.old.buffer.bytes) (parts B.disk self.old).store result (parts B.disk self.new).store }
        ensures tip { self.new.buffer ≡ self.old.buffer }
    {
        self.sync_state.write_at(
            &mut self.blob,
            offset,
            self.buffer.slice(0, len),
            options,
            Step::Flush,
        )
    }

    // Empties the tip into the blob.
    fn flush(&mut self) -> Result<(), Fault>
        requires { Ready (parts B.disk self.old) }
        ensures { Flushes Plain (parts B.disk self.old) result (parts B.disk self.new) }
    {
        if let Some((offset, len)) = self.buffer.take() {
            self.write_drained(offset, len, WriteOptions::Plain)?;
        }
        Ok(())
    }

    // Writes a run past the tip.
    fn write_directly(&mut self, place: u64, run: &[u8]) -> Result<(), Fault>
        requires { (place + length run.now ≤ (B.disk self.old.blob).limit) × ((B.disk self.old.blob).limit ≤ 2 ^ 62) × Beyond self.old.buffer place (length run.now) }
        ensures { WritesRun place run.now (parts B.disk self.old) result (parts B.disk self.new) }
    {
        self.sync_state.write_at(
            &mut self.blob,
            place,
            run,
            WriteOptions::Plain,
            Step::DirectWrite,
        )?;
        self.buffer.raise(place + run.len() as u64);
        Ok(())
    }

    // Merges a run into the tip, or writes it directly where it does not merge.
    fn place_run(&mut self, place: u64, run: &[u8]) -> Result<(), Fault>
        requires { Ready (parts B.disk self.old) × (place + length run.now ≤ (B.disk self.old.blob).limit) }
        ensures { PlacesRun place run.now (parts B.disk self.old) result (parts B.disk self.new) }
    {
        if self.buffer.merge(place, run) {
            return Ok(());
        }
        self.write_directly(place, run)
    }

    // Lays a run into the capture.
    fn lay_run(&mut self, place: u64, run: &[u8]) -> Result<(), Fault>
        requires { Ready (parts B.disk self.old) × (place + length run.now ≤ (B.disk self.old.blob).limit) }
        ensures { LaysRun place run.now (parts B.disk self.old) result (parts B.disk self.new) }
    {
        if self.buffer.merge(place, run) {
            return Ok(());
        }
        if self.buffer.offset() >= place + run.len() as u64 {
            return self.write_directly(place, run);
        }
        self.flush()?;
        self.place_run(place, run)
    }

    // Lays the pieces of a sound list end to end.
    pub(crate) fn lay_pieces(&mut self, place: u64, list: &PieceList) -> Result<(), Fault>
        requires { Ready (parts B.disk self.old) × Writable (running (parts B.disk self.old)) (length list.now.area.now) place list.now.pieces.now }
        ensures { LaysPieces list.now.area.now place list.now.pieces.now (parts B.disk self.old) result (parts B.disk self.new) }
    {
        let mut at = place;
        for piece in list.pieces {
            if piece.len > 0 {
                self.lay_run(at, list.run(piece))?;
                at += piece.len as u64;
            }
        }
        Ok(())
    }

    // Fits the tip and then the blob to a capture of `len` bytes.
    pub(crate) fn resize(&mut self, len: u64) -> Result<(), Fault>
        requires { Ready (parts B.disk self.old) × (len ≤ (B.disk self.old.blob).limit) }
        ensures { ResizesBoxes len (parts B.disk self.old) result (parts B.disk self.new) }
    {
        if let Some((offset, drained)) = self.buffer.resize(len) {
            self.write_drained(offset, drained, WriteOptions::Plain)?;
        }
        self.sync_state.resize(&mut self.blob, len)
    }

    // Writes what is buffered and makes the whole capture durable.
    pub(crate) fn sync(&mut self) -> Result<(), Fault>
        requires { Ready (parts B.disk self.old) }
        ensures { SyncsBoxes (parts B.disk self.old) result (parts B.disk self.new) }
    {
        match self.buffer.take() {
            Some((offset, len)) => self.write_drained(offset, len, WriteOptions::Sync),
            None => self.sync_state.sync(&mut self.blob),
        }
    }

    // Fills `out` from the blob, by one read.
    fn read_blob(&mut self, place: u64, out: &mut [u8]) -> Result<(), Fault>
        requires { 0 < length out.old → place + length out.old ≤ length (B.disk self.old.blob).content }
        ensures reads { ReadsBelow (B.disk self.old.blob) place out.old result (B.disk self.new.blob) out.new }
        ensures rest { (self.new.sync_state ≡ self.old.sync_state) × (self.new.buffer ≡ self.old.buffer) }
    {
        if out.is_empty() {
            return Ok(());
        }
        located(self.blob.read_back(place, out), Step::Read, place)
    }

    // Fills `out` from the blob below the tip's offset, and from the tip above it.
    pub(crate) fn read_at(&mut self, place: u64, out: &mut [u8]) -> Result<(), Error>
        requires { Ready (parts B.disk self.old) × (place + length out.old ≤ self.old.buffer.offset + self.old.buffer.len) }
        ensures { Gathers (running (parts B.disk self.old)) place out.old result (running (parts B.disk self.new)) out.new }
    {
        let below = self.buffer.below(place, out.len());
        self.read_blob(place, &mut out[..below])?;
        let start = place.saturating_sub(self.buffer.offset()) as usize;
        let end = start + (out.len() - below);
        out[below..].copy_from_slice(self.buffer.slice(start, end));
        Ok(())
    }
}

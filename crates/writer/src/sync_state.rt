// Whether changes of the blob still need a sync, and the blob calls that change it.
ghost use Rattle.std.specs.Prelude.{◌≡◌, ◌+◌, ◌≤◌, length};
ghost use Rattle.writer.specs.Stores.{store, clean, Waits, StoreWrites, StoreResizes, StoreSyncs, Unrefused, Locates};

use blob::{Blob, BlobError};
use buffer::error::{Fault, Step};

#[derive(Clone, Copy, Debug)]
pub enum SyncState {
    // Nothing needs a sync.
    Clean,
    // Changes of the blob need a sync.
    Dirty,
    // A started sync has not been waited for.
    Pending,
}

#[derive(Clone, Copy)]
pub enum WriteOptions {
    Plain,
    // The write is durable when it is accepted.
    Sync,
}

// A blob's answer, with the step and the place of a fault. The caller knows that the blob does not refuse.
pub(crate) fn located(answer: Result<(), BlobError>, step: Step, place: u64) -> Result<(), Fault>
    requires { Unrefused answer }
    ensures { Locates answer step place result }
{
    match answer {
        Ok(()) => Ok(()),
        Err(BlobError::DeviceFault(code)) => Err(Fault { code, step, place }),
        Err(BlobError::NoRoom | BlobError::BlobInsufficientLength) => unreachable(),
    }
}

// The blob stands beside the state, and each call moves to its next state itself: docs/DECISIONS.md keeps both forms,
// the wait by `let .. else` and the match on the state and the options.
impl SyncState {
    // A pattern, as in the ported code: `==` on one variant would be no plainer.
    pub(crate) fn is_clean(&self) -> bool
        ensures { result ≡ clean self.now }
    {
        matches!(self, SyncState::Clean)
    }

    // Waits for a started sync, before the blob is changed.
    pub(crate) fn wait_for_pending<B: Blob>(&mut self, blob: &mut B) -> Result<(), Fault>
        ensures { Waits (store (B.disk blob.old) self.old) result (store (B.disk blob.new) self.new) }
    {
        let SyncState::Pending = self else {
            return Ok(());
        };
        located(blob.finish_sync(), Step::Wait, 0)?;
        *self = SyncState::Clean;
        Ok(())
    }

    // Writes the bytes to the blob. A fault names `step`.
    pub(crate) fn write_at<B: Blob>(
        &mut self,
        blob: &mut B,
        place: u64,
        bytes: &[u8],
        options: WriteOptions,
        step: Step,
    ) -> Result<(), Fault>
        requires { place + length bytes.now ≤ (B.disk blob.old).limit }
        ensures { StoreWrites options step place bytes.now (store (B.disk blob.old) self.old) result (store (B.disk blob.new) self.new) }
    {
        self.wait_for_pending(blob)?;
        match (&*self, options) {
            (_, WriteOptions::Plain) => {
                located(blob.write_at(place, bytes), step, place)?;
                *self = SyncState::Dirty;
                Ok(())
            }
            (SyncState::Clean, WriteOptions::Sync) => located(
                blob.write_at_sync(place, bytes),
                step,
                place,
            ),
            (SyncState::Dirty, WriteOptions::Sync) => {
                // Earlier changes need the sync too.
                located(blob.write_at(place, bytes), step, place)?;
                located(blob.sync(), Step::Sync, 0)?;
                *self = SyncState::Clean;
                Ok(())
            }
            (SyncState::Pending, WriteOptions::Sync) => unreachable(),
        }
    }

    pub(crate) fn resize<B: Blob>(&mut self, blob: &mut B, len: u64) -> Result<(), Fault>
        requires { len ≤ (B.disk blob.old).limit }
        ensures { StoreResizes len (store (B.disk blob.old) self.old) result (store (B.disk blob.new) self.new) }
    {
        self.wait_for_pending(blob)?;
        located(blob.resize(len), Step::Resize, len)?;
        *self = SyncState::Dirty;
        Ok(())
    }

    pub(crate) fn sync<B: Blob>(&mut self, blob: &mut B) -> Result<(), Fault>
        ensures { StoreSyncs (store (B.disk blob.old) self.old) result (store (B.disk blob.new) self.new) }
    {
        self.wait_for_pending(blob)?;
        if self.is_clean() {
            return Ok(());
        }
        located(blob.sync(), Step::Sync, 0)?;
        *self = SyncState::Clean;
        Ok(())
    }
}

// The flat blob's making and its calls. Each is proved to have a blob's meaning, and beside that promises
// every byte of the area.
ghost use Rattle.std.specs.Prelude.{◌≡◌, ◌+◌, ◌<◌, ◌≤◌, true, false, length, refl};
ghost use Rattle.blob.specs.Bytes.{part};
ghost use Rattle.blob.specs.Meaning.{broken, Limited, Reads, StaysSound, ReadKeeps, Writes, SyncWrites, Resizes, Syncs, Starts as BlobStarts, Finishes};
ghost use Rattle.blob.specs.declared.BlobError.TheVariants.{NoRoom, BlobInsufficientLength};
ghost use Rattle.blob.specs.declared.StartedSync.TheVariants.{Idle};
ghost use Rattle.blobs.specs.Flat.{Starts, fresh, wrote, settled, beginning, finished, AfterWrite, AfterResize};
ghost use Rattle.blobs.specs.Shape.{shape, disk};

use super::{FlatBlob, StartError};
use blob::area::{clear, end_within, lay};
use blob::{Blob, BlobError, Readable, StartedSync};

// The largest limit of any blob, 2^62.
const MAX_LIMIT: usize = 1 << 62;

fn half(area_len: usize) -> usize
    ensures { result ≡ Rattle.blobs.specs.Flat.half area_len }
{
    (area_len / 2).min(MAX_LIMIT)
}

impl FlatBlob {
    // Whether a blob over an area of `area_len` bytes can start with `start` bytes.
    pub fn check(area_len: usize, start: u64) -> Result<(), StartError>
        ensures { Starts area_len start result }
    {
        if start > half(area_len) as u64 {
            return Err(StartError::BadStart);
        }
        Ok(())
    }

    // A blob over the area. It starts with `start` bytes of each half as they lie, or with all of them
    // where the check refuses that number.
    pub fn new(area: Vec<u8>, start: u64) -> FlatBlob
        ensures { shape result ≡ fresh area.items start }
    {
        let limit = half(area.len());
        let len = (start as usize).min(limit);
        FlatBlob {
            area,
            limit,
            len,
            durable_len: len,
            started: StartedSync::Idle,
        }
    }

    // What can be read.
    pub fn content(&self) -> &[u8]
        ensures { result.now ≡ (disk self.now).content }
    {
        &self.area[0..self.len]
    }

    // What a power cut would leave.
    pub fn durable(&self) -> &[u8]
        ensures { result.now ≡ (disk self.now).durable }
    {
        &self.area[self.limit..self.limit + self.durable_len]
    }

    // Puts the bytes at `start`, with zeros in a gap before them.
    fn lay(&mut self, start: usize, bytes: &[u8])
        requires { (start + length bytes.now ≤ self.old.limit) × (0 < length bytes.now) }
        ensures { shape self.new ≡ wrote (shape self.old) start bytes.now }
    {
        lay(&mut self.area, self.len, start, bytes);
        self.len = self.len.max(start + bytes.len());
        self.started = StartedSync::Idle;
    }

    // Makes the durable image equal the content.
    #[tactic(auto, using(blob::proofs::Parts::part_writes))]
    fn settle(&mut self, after: StartedSync)
        requires { broken after ≡ false }
        ensures { shape self.new ≡ settled (shape self.old) after }
    {
        self.area.copy_within(0..self.len, self.limit);
        self.durable_len = self.len;
        self.started = after;
    }
}

// A method's own clauses stand in place of its trait's, so each says the trait's again beside the exact one.
impl Readable for FlatBlob {
    ghost content = { λ s. (disk s).content };

    ghost sound = { λ _. true };

    fn len(&self) -> u64 {
        self.len as u64
    }

    fn read_at(&mut self, place: u64, out: &mut [u8]) -> Result<(), BlobError>
        ensures bytes { Reads (disk self.old).content place out.old result (disk self.new).content out.new }
        ensures sound { StaysSound true result true }
        ensures same { shape self.new ≡ shape self.old }
    {
        let start = place as usize;
        let end = end_within(start, out.len(), self.len).ok_or(BlobError::BlobInsufficientLength)?;
        out.copy_from_slice(&self.area[start..end]);
        Ok(())
    }
}

impl Blob for FlatBlob {
    ghost disk = { disk };

    ghost agrees = { λ _. refl };

    ghost sounds = { λ _. refl };

    ghost unbroken = { λ x _. x.unbroken };

    fn limit(&self) -> u64 {
        self.limit as u64
    }

    // The interfaces have two reads, and a caller of this one knows more of the blob after it.
    fn read_back(&mut self, place: u64, out: &mut [u8]) -> Result<(), BlobError>
        ensures bytes { Reads (disk self.old).content place out.old result (disk self.new).content out.new }
        ensures keeps { ReadKeeps (disk self.old) result (disk self.new) }
        ensures same { shape self.new ≡ shape self.old }
    {
        self.read_at(place, out)
    }

    fn write_at(&mut self, place: u64, bytes: &[u8]) -> Result<(), BlobError>
        ensures means { Writes (disk self.old) place bytes.now result (disk self.new) }
        ensures exact { AfterWrite (λ f. wrote f place bytes.now) (shape self.old) bytes.now result (shape self.new) }
    {
        if bytes.is_empty() {
            return Ok(());
        }
        let start = place as usize;
        end_within(start, bytes.len(), self.limit).ok_or(BlobError::NoRoom)?;
        self.lay(start, bytes);
        Ok(())
    }

    fn write_at_sync(&mut self, place: u64, bytes: &[u8]) -> Result<(), BlobError>
        ensures means { SyncWrites (disk self.old) place bytes.now result (disk self.new) }
        ensures exact { AfterWrite (λ f. settled (wrote f place bytes.now) Idle) (shape self.old) bytes.now result (shape self.new) }
    {
        self.write_at(place, bytes)?;
        if !bytes.is_empty() {
            self.sync()?;
        }
        Ok(())
    }

    fn resize(&mut self, len: u64) -> Result<(), BlobError>
        ensures means { Resizes (disk self.old) len result (disk self.new) }
        ensures exact { AfterResize (shape self.old) len result (shape self.new) }
    {
        if len > self.limit as u64 {
            return Err(BlobError::NoRoom);
        }
        clear(&mut self.area, self.len, len as usize);
        self.len = len as usize;
        self.started = StartedSync::Idle;
        Ok(())
    }

    fn sync(&mut self) -> Result<(), BlobError>
        ensures means { Syncs (disk self.old) result (disk self.new) }
        ensures exact { shape self.new ≡ settled (shape self.old) Idle }
    {
        self.settle(StartedSync::Idle);
        Ok(())
    }

    fn start_sync(&mut self)
        ensures means { BlobStarts (disk self.old) (disk self.new) }
        ensures exact { shape self.new ≡ beginning (shape self.old) }
    {
        self.started = StartedSync::Started;
    }

    fn finish_sync(&mut self) -> Result<(), BlobError>
        ensures means { Finishes (disk self.old) result (disk self.new) }
        ensures exact { shape self.new ≡ finished (shape self.old) self.old.started }
    {
        match self.started {
            StartedSync::Started => {
                self.settle(StartedSync::Done);
                Ok(())
            }
            StartedSync::Idle | StartedSync::Done => Ok(()),
            StartedSync::Broken(code) => Err(BlobError::DeviceFault(code)),
        }
    }
}

// What a blob means: the bytes that a recorder writes to and reads from, what of them a power cut leaves,
// and what each call may do to both.
#![tactic(auto)]

ghost use Rattle.std.specs.Prelude.{◌≡◌, ℕ, Bool, true, false, List, length};
ghost use Rattle.blob.specs.Meaning.{Disk, broken, Limited, Reads, StaysSound, ReadKeeps, Writes, SyncWrites, Resizes, Syncs, Starts, Finishes};
ghost use Rattle.blob.specs.Numbers.{number};

pub mod area;

// Why a blob did not do what it was asked.
#[derive(Clone, Copy)]
pub enum BlobError {
    // A filled write or a resize would end above the limit.
    NoRoom,
    // A read would end past the content.
    BlobInsufficientLength,
    // The device failed, with a code of 1 to 255.
    DeviceFault(u8),
}

impl BlobError {
    // The number of the refusal, the same in every layer. A match, since `as` takes no enum that carries values.
    pub fn number(&self) -> u8
        ensures { result ≡ number self.now }
    {
        match self {
            BlobError::NoRoom => 5,
            BlobError::BlobInsufficientLength => 6,
            BlobError::DeviceFault(_) => 9,
        }
    }
}

// A sync that was started and goes on while the caller does other things.
#[derive(Clone, Copy)]
pub enum StartedSync {
    // None was started, or a later change of the blob has replaced it.
    Idle,
    Started,
    Done,
    // It failed, with the device's code.
    Broken(u8),
}

// What can be read: a content, its length, and a read that hands out exactly the bytes of its range.
pub trait Readable {
    ghost content: { Self → List ℕ };

    // Whether no call will ever give a device fault.
    ghost sound: { Self → Bool };

    fn len(&self) -> u64
        ensures { result ≡ length (content self.now) };

    // Fills `out` with the bytes from `place` on.
    fn read_at(&mut self, place: u64, out: &mut [u8]) -> Result<(), BlobError>
        ensures bytes { Reads (content self.old) place out.old result (content self.new) out.new }
        ensures sound { StaysSound (sound self.old) result (sound self.new) };
}

// What can be written: beside the content a durable image, an unchanging limit and a started sync.
pub trait Blob: Readable {
    ghost disk: { Self → Disk };

    // No write and no resize may end above it.
    fn limit(&self) -> u64
        ensures { Limited (disk self.now) result };

    // The writer's own read: as `read_at`, and it leaves the durable image and the started sync too.
    fn read_back(&mut self, place: u64, out: &mut [u8]) -> Result<(), BlobError>
        ensures bytes { Reads (disk self.old).content place out.old result (disk self.new).content out.new }
        ensures keeps { ReadKeeps (disk self.old) result (disk self.new) };

    // Puts the bytes at `place`, with zeros in a gap before it.
    fn write_at(&mut self, place: u64, bytes: &[u8]) -> Result<(), BlobError>
        ensures { Writes (disk self.old) place bytes.now result (disk self.new) };

    // As `write_at`, and its range is durable when it is accepted.
    fn write_at_sync(&mut self, place: u64, bytes: &[u8]) -> Result<(), BlobError>
        ensures { SyncWrites (disk self.old) place bytes.now result (disk self.new) };

    // Cuts the content to `len` bytes, or adds zeros up to there.
    fn resize(&mut self, len: u64) -> Result<(), BlobError>
        ensures { Resizes (disk self.old) len result (disk self.new) };

    // Makes the durable image equal the content.
    fn sync(&mut self) -> Result<(), BlobError>
        ensures { Syncs (disk self.old) result (disk self.new) };

    // Starts a sync, which `finish_sync` ends. It never fails.
    fn start_sync(&mut self)
        ensures { Starts (disk self.old) (disk self.new) };

    // Waits for the started sync and tells how it ended; the same again until it is replaced.
    fn finish_sync(&mut self) -> Result<(), BlobError>
        ensures { Finishes (disk self.old) result (disk self.new) };

    ghost agrees: { (x : Self) → (disk x).content ≡ Self.Readable.content x };

    ghost sounds: { (x : Self) → (disk x).sound ≡ Self.Readable.sound x };

    ghost unbroken: { (x : Self) → (disk x).sound ≡ true → broken (disk x).started ≡ false };
}

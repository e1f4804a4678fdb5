// What the calls of a list are performed on.
ghost use Rattle.blobs.specs.contracts.flat.calls.FlatBlobBlob.TheImpl.{ghosts};
ghost use Rattle.writer.specs.Steps.{Consistent};
ghost use Rattle.writer.specs.View.{view};
ghost use Rattle.blob.specs.Bytes.{laid};
ghost use Rattle.std.specs.Prelude.{◌≡◌, ◌+◌, ◌*◌, ◌≤◌, min, length, take, IfOk, MatchResult};
ghost use Rattle.call_list.specs.Calls.{plain};
ghost use Rattle.recorder.specs.declared.answer.Failure.TheVariants as failure;
ghost use Rattle.recorder.specs.declared.answer.Problem.TheVariants.{OutOfMemory};
ghost use Rattle.recorder.specs.Session.{Sane, halves, area_of, pieces, told, said, drawn, drawing_of, images, images_of, ReadsBack, Does, Copies, MakesFlat, MakesWriter, Shows, Performs};

use crate::answer::{Answer, Drawing, Failure, Images, Problem};
use blob::area::put;
use blob::{Blob, Readable};
use blobs::flat::FlatBlob;
use buffer::pieces::{Piece, PieceList};
use call_list::{Call, Span};
use std::alloc::{AllocError, Global};
use std::mem;
use writer::write::{Write, check_capacity};

#[derive(Drop)]
pub enum Session {
    Empty,
    // A blob that no writer holds.
    Free(FlatBlob),
    Writing(Write<FlatBlob>),
}

// Puts as many of the bytes as fit into the room that begins at `start`.
fn put_fitting(area: &mut [u8], start: usize, room: usize, bytes: &[u8])
    requires { start + room ≤ length area.old }
    ensures { area.new ≡ laid area.old start (take (min (length bytes.now) room) bytes.now) }
{
    put(area, start, &bytes[..bytes.len().min(room)]);
}

impl<'a> Images<&'a [u8]> {
    // Those of this blob.
    fn of(blob: &'a FlatBlob) -> Images<&'a [u8]>
        ensures { images result.content.now result.durable.now ≡ images_of blob.now }
    {
        Images {
            content: blob.content(),
            durable: blob.durable(),
        }
    }

    fn copied(&self, heap: Global) -> Result<Images<Vec<u8>>, AllocError>
        ensures { IfOk result (λ i. images i.content.items i.durable.items ≡ images self.now.content.now self.now.durable.now) }
    {
        Ok(Images {
            content: self.content.to_vec(heap)?,
            durable: self.durable.to_vec(heap)?,
        })
    }

    // Puts the content at the start of the area and the durable image in its middle.
    fn lay(&self, area: &mut [u8], half: usize)
        requires { length area.old ≡ half * 2 }
        ensures { area.new ≡ halves area.old half self.now.content.now self.now.durable.now }
    {
        put_fitting(area, 0, half, self.content);
        put_fitting(area, half, half, self.durable);
    }

    // The area of a flat blob with this limit and these images.
    fn area(&self, heap: Global, limit: u64) -> Result<Vec<u8>, Failure>
        ensures { MatchResult result (λ area. area.items ≡ area_of limit self.now.content.now self.now.durable.now) (λ e. e ≡ failure.Problem OutOfMemory) }
    {
        let size = limit.checked_mul(2).ok_or(Problem::OutOfMemory)?;
        let mut area = vec![in heap; 0; size as usize]?;
        self.lay(&mut area, limit as usize);
        Ok(area)
    }
}

// A span has the 64-bit numbers of a line, and a piece is a part of an area in memory. Neither crate knows the
// other's type, so no `From` can stand for this.
fn pieces_of(heap: Global, spans: &[Span]) -> Result<Vec<Piece>, AllocError>
    ensures { IfOk result (λ v. v.items ≡ pieces spans.now) }
{
    spans
        .iter()
        .map(|span| Piece {
            start: span.start as usize,
            len: span.len as usize,
        })
        .collect(heap)
}

fn drawing(heap: Global, writer: &Write<FlatBlob>) -> Result<Drawing, AllocError>
    requires { Consistent (view ghosts.disk writer.now) }
    ensures { IfOk result (λ d. drawn d ≡ drawing_of (view ghosts.disk writer.now)) }
{
    Ok(Drawing {
        offset: writer.tip_offset(),
        tip: writer.tip().to_vec(heap)?,
        images: Images::of(writer.blob()).copied(heap)?,
        sync_state: writer.sync_state(),
        closed: writer.is_closed(),
    })
}

impl Session {
    // A new flat blob in the place of whatever was there.
    fn make_flat(
        &mut self,
        heap: Global,
        limit: u64,
        images: &Images<&[u8]>,
    ) -> Result<Answer, Failure>
        requires { Sane self.old }
        ensures makes { MakesFlat limit images.now.content.now images.now.durable.now self.old (said result) self.new }
        ensures sane { Sane self.new }
    {
        if images.content.len() != images.durable.len() {
            return Err(Problem::UnequalImages.into());
        }
        let area = images.area(heap, limit)?;
        let start = images.content.len() as u64;
        let check = FlatBlob::check(area.len(), start);
        *self = Session::Free(FlatBlob::new(area, start));
        check?;
        Ok(Answer::Accepted)
    }

    // A writer on the blob.
    fn make_writer(&mut self, capacity: u64) -> Result<Answer, Failure>
        requires { Sane self.old }
        ensures makes { MakesWriter capacity self.old (said result) self.new }
        ensures sane { Sane self.new }
    {
        match mem::replace(self, Session::Empty) {
            Session::Empty => Err(Problem::NoBlob.into()),
            Session::Writing(writer) => {
                *self = Session::Writing(writer);
                Err(Problem::BlobHeld.into())
            }
            Session::Free(blob) => {
                *self = Session::Writing(Write::new(blob, capacity as usize));
                check_capacity(capacity as usize)?;
                Ok(Answer::Accepted)
            }
        }
    }

    // What a power cut would leave, beside what can be read.
    fn images(&self, heap: Global) -> Result<Answer, Failure>
        ensures { Shows self.now (said result) }
    {
        let blob = match self {
            Session::Empty => return Err(Problem::NoBlob.into()),
            Session::Free(blob) => blob,
            Session::Writing(writer) => writer.blob(),
        };
        Ok(Answer::Images(Images::of(blob).copied(heap)?))
    }

    // Performs one call.
    pub fn perform(&mut self, heap: Global, call: &Call) -> Result<Answer, Failure>
        requires { Sane self.old }
        ensures performs { Performs self.old (plain call.now) (said result) self.new }
        ensures sane { Sane self.new }
    {
        match call {
            Call::Flat {
                limit,
                content,
                durable,
            } => {
                let content = content.as_slice();
                let durable = durable.as_deref().unwrap_or(content);
                self.make_flat(heap, *limit, &Images { content, durable })
            }
            Call::Writer { capacity } => self.make_writer(*capacity),
            Call::Blob => self.images(heap),
            _ => match self {
                Session::Writing(writer) => perform_on(heap, writer, call),
                _ => Err(Problem::NoWriter.into()),
            },
        }
    }
}

// Performs a call of a writer.
fn perform_on(heap: Global, writer: &mut Write<FlatBlob>, call: &Call) -> Result<Answer, Failure>
    requires { Consistent (view ghosts.disk writer.old) }
    ensures does { MatchResult (said result) (λ a. Does (plain call.now) (view ghosts.disk writer.old) a (view ghosts.disk writer.new)) (λ p. (p ≡ OutOfMemory) × Copies (plain call.now) × (writer.new ≡ writer.old)) }
    ensures consistent { Consistent (view ghosts.disk writer.new) }
{
    match call {
        Call::WriteAt {
            place,
            area,
            pieces,
        } => {
            let pieces = pieces_of(heap, pieces.as_slice())?;
            let list = PieceList {
                area: area.as_slice(),
                pieces: pieces.as_slice(),
            };
            writer.write_at(*place, &list)?;
            Ok(Answer::Accepted)
        }
        Call::TryWriteAt { place, bytes } => Ok(Answer::YesNo(writer.try_write_at(
            *place,
            bytes.as_slice(),
        ))),
        Call::Resize { len } => {
            writer.resize(*len)?;
            Ok(Answer::Accepted)
        }
        Call::Sync => {
            writer.sync()?;
            Ok(Answer::Accepted)
        }
        Call::ReadAt { place, len } => read_back(heap, writer, *place, *len),
        Call::Size => Ok(Answer::Number(writer.size())),
        Call::NeedsSync => Ok(Answer::YesNo(writer.needs_sync())),
        // `Boxes`: the other calls are no calls of a writer. An enum for those of a writer alone would change
        // the printed form of a `Call`.
        _ => Ok(Answer::Boxes(drawing(heap, writer)?)),
    }
}

// Reads into an output that is made only for a read that the writer does not refuse.
fn read_back(
    heap: Global,
    writer: &mut Write<FlatBlob>,
    place: u64,
    len: u64,
) -> Result<Answer, Failure>
    requires { Consistent (view ghosts.disk writer.old) }
    ensures reads { MatchResult (said result) (λ a. ReadsBack (view ghosts.disk writer.old) place len a (view ghosts.disk writer.new)) (λ p. (p ≡ OutOfMemory) × (writer.new ≡ writer.old)) }
    ensures consistent { Consistent (view ghosts.disk writer.new) }
{
    writer.check_read(place, len)?;
    let mut out = vec![in heap; 0; len as usize]?;
    writer.read_at(place, &mut out)?;
    Ok(Answer::Bytes(out))
}

// The worked cases, run over a flat blob.
ghost use Rattle.blobs.specs.contracts.flat.calls.FlatBlobBlob.TheImpl.{ghosts};
ghost use Rattle.std.specs.Prelude.{IfOk};
ghost use Rattle.writer.specs.Steps.{Consistent};
ghost use Rattle.writer.specs.View.{view};

use blob::{Blob, Readable};
use blobs::flat::FlatBlob;
use buffer::error::Error;
use buffer::pieces::{Piece, PieceList};
use std::alloc::{AllocError, Global};
use std::test::Fail;
use writer::write::Write;

// Whatever holds a writer asks no bound of its blob. With a bound on `Write` itself, neither a recursive type nor a
// struct over a blob that wraps any other could hold one.
#[derive(Drop)]
struct Held<B> {
    writer: Write<B>,
}

// A writer with a tip of 4 bytes over an empty blob with a limit of 64.
fn writer(heap: Global) -> Result<Write<FlatBlob>, AllocError>
    ensures { IfOk result (λ w. Consistent (view ghosts.disk w)) }
{
    let area = vec![in heap; 0; 128]?;
    Ok(Write::new(FlatBlob::new(area, 0), 4))
}

// Writes the bytes as one piece.
fn put(writer: &mut Write<FlatBlob>, place: u64, bytes: &[u8]) -> Result<(), Error>
    requires { Consistent (view ghosts.disk writer.old) }
    ensures { Consistent (view ghosts.disk writer.new) }
{
    let pieces = [Piece {
        start: 0,
        len: bytes.len(),
    }];
    writer.write_at(
        place,
        &PieceList {
            area: bytes,
            pieces: &pieces,
        },
    )
}

#[test]
fn a_late_packet_is_written_across_the_tip(rt: HostRuntime) -> Result<(), Fail> {
    let mut w = writer(rt.alloc())?;
    put(&mut w, 0, b"abcd")?;
    assert_eq!(rt; w.tip(), b"abcd".as_slice());
    put(&mut w, 4, b"ef")?;
    put(&mut w, 3, b"XYZ")?;
    assert_eq!(rt; w.blob().content(), b"abcXYZ".as_slice());
    assert_eq!(rt; w.tip_offset(), 6);
    Ok(())
}

#[test]
fn a_cut_lets_no_old_byte_back(rt: HostRuntime) -> Result<(), Fail> {
    let mut w = writer(rt.alloc())?;
    put(&mut w, 0, b"abcd")?;
    put(&mut w, 4, b"ef")?;
    w.resize(5)?;
    put(&mut w, 7, b"Z")?;
    let mut out = [9u8; 8];
    w.read_at(0, &mut out)?;
    assert_eq!(rt; out.as_slice(), b"abcde\0\0Z".as_slice());
    w.sync()?;
    assert_eq!(rt; w.blob().durable(), b"abcde\0\0Z".as_slice());
    Ok(())
}

#[test]
fn a_writer_is_held_with_no_bound(rt: HostRuntime) -> Result<(), Fail> {
    let mut held = Held {
        writer: writer(rt.alloc())?,
    };
    put(&mut held.writer, 0, b"abcd")?;
    assert_eq!(rt; held.writer.size(), 4);
    Ok(())
}

#[test]
fn a_long_list_is_refused(rt: HostRuntime) -> Result<(), Fail> {
    let mut w = writer(rt.alloc())?;
    let pieces = [Piece { start: 0, len: 1 }; 1025];
    let list = PieceList {
        area: b"a",
        pieces: &pieces,
    };
    assert_eq!(rt; w.write_at(0, &list), Err(Error::TooManyPieces));
    assert_eq!(rt; w.size(), 0);
    Ok(())
}

#[test]
fn a_write_may_end_at_the_limit_and_not_above(rt: HostRuntime) -> Result<(), Fail> {
    let mut w = writer(rt.alloc())?;
    put(&mut w, 62, b"yz")?;
    assert_eq!(rt; put(&mut w, 63, b"yz"), Err(Error::NoRoom));
    assert_eq!(rt; w.size(), 64);
    Ok(())
}

//! Reads the lines of a call list: one line of bytes is one call, a mistake, or nothing.
//!
//! A line that begins with `#`, or has nothing but blanks (space, tab, carriage return), is skipped. Any other is words
//! with blanks around them: the name of a call, and its arguments.
//!
//! ```text
//! flat LIMIT HEX [HEX]          writer CAPACITY           write_at PLACE HEX ..
//! try_write_at PLACE HEX        read_at PLACE LENGTH      write_pieces PLACE HEX START,LENGTH ..
//! resize LENGTH                 sync     size     needs_sync     blob     boxes
//! ```
//!
//! A number is decimal digits, with a value below 2^64. HEX is lowercase hexadecimal digits, two to a byte, or `-` for no
//! bytes. Words are read from left to right, and the first mistake counts.
//!
//! `meaning`, in specs/Calls.antt, says the same of every line, and the contract of `read_line` rests on it. A further call
//! is a variant of `Call`, a row of `table_of`, an arm of `call_named` and the function that the arm calls.
#![tactic(auto)]

ghost use Rattle.std.specs.Prelude.{◌≡◌, ◌<◌, length};
ghost use Rattle.std.specs.Option.{option_map};
ghost use Rattle.call_list.specs.Calls.{plain, flat_of, writer_of, resize_of, write_of, write_pieces_of, try_write_of, read_of, bare, named, table_of, call_of, meaning};
ghost use Rattle.call_list.specs.Line.{contents, comment};
ghost use Rattle.call_list.specs.Values.{told, Reads};

use args::Args;
use std::alloc::Global;
use std::str::from_utf8;
use words::split_words;

mod args;
mod calls;
mod mistakes;
mod values;
mod words;

pub use calls::{Call, Span};
pub use mistakes::Mistake;

fn flat(args: &Args) -> Result<Call, Mistake>
    ensures { Reads plain result (flat_of (contents args.now.words.now)) }
{
    let limit = args.number(1)?;
    let content = args.hex(2)?;
    let durable = args.hex_if_any(3)?;
    args.no_more(4)?;
    Ok(Call::Flat {
        limit,
        content,
        durable,
    })
}

/// A call that takes nothing.
fn bare_call(args: &Args, call: Call) -> Result<Call, Mistake>
    ensures { told plain result ≡ bare (contents args.now.words.now) (plain call) }
{
    args.no_more(1)?;
    Ok(call)
}

fn read_at(args: &Args) -> Result<Call, Mistake>
    ensures { told plain result ≡ read_of (contents args.now.words.now) }
{
    let place = args.number(1)?;
    let len = args.number(2)?;
    args.no_more(3)?;
    Ok(Call::ReadAt { place, len })
}

fn try_write_at(args: &Args) -> Result<Call, Mistake>
    ensures { Reads plain result (try_write_of (contents args.now.words.now)) }
{
    let place = args.number(1)?;
    let bytes = args.hex(2)?;
    args.no_more(3)?;
    Ok(Call::TryWriteAt { place, bytes })
}

fn write_at(args: &Args) -> Result<Call, Mistake>
    ensures { Reads plain result (write_of (contents args.now.words.now)) }
{
    let place = args.number(1)?;
    let (area, pieces) = args.pieces_from(2)?;
    Ok(Call::WriteAt {
        place,
        area,
        pieces,
    })
}

// Not one function with `write_at`, which makes its area of the words of its pieces: this reads an area, then a pair for each piece.
fn write_pieces(args: &Args) -> Result<Call, Mistake>
    ensures { Reads plain result (write_pieces_of (contents args.now.words.now)) }
{
    let place = args.number(1)?;
    let area = args.hex(2)?;
    let pieces = args.pairs_from(3)?;
    Ok(Call::WriteAt {
        place,
        area,
        pieces,
    })
}

/// The call of this name, with the words of its line.
// A table of functions is no plainer: seven of its twelve rows would be closures round `one_number` or `bare_call`.
fn call_named(args: &Args, name: &str) -> Result<Call, Mistake>
    ensures { Reads plain result (named name.now (table_of (contents args.now.words.now))) }
{
    match name {
        "flat" => flat(args),
        "writer" => args.one_number().map(|capacity| Call::Writer { capacity }),
        "write_at" => write_at(args),
        "write_pieces" => write_pieces(args),
        "try_write_at" => try_write_at(args),
        "resize" => args.one_number().map(|len| Call::Resize { len }),
        "sync" => bare_call(args, Call::Sync),
        "read_at" => read_at(args),
        "size" => bare_call(args, Call::Size),
        "needs_sync" => bare_call(args, Call::NeedsSync),
        "blob" => bare_call(args, Call::Blob),
        "boxes" => bare_call(args, Call::Boxes),
        _ => Err(Mistake::UnknownCall),
    }
}

/// The call that the words of a line are, of which `name` is the first.
#[tactic(auto, using(crate::proofs::Names::no_call))]
fn read_call(args: &Args, name: &[u8]) -> Result<Call, Mistake>
    ensures { Reads plain result (named name.now (table_of (contents args.now.words.now))) }
{
    match from_utf8(name) {
        Ok(name) => call_named(args, name),
        Err(_) => Err(Mistake::UnknownCall),
    }
}

fn is_comment(line: &[u8]) -> bool
    ensures { result ≡ comment line.now }
{
    line.starts_with(b"#")
}

/// The call that a line is, `None` where the line is to be skipped. The line comes without its newline.
pub fn read_line(heap: Global, line: &[u8]) -> Result<Option<Call>, Mistake>
    ensures { Reads (option_map plain) result (meaning line.now) }
{
    if is_comment(line) {
        return Ok(None);
    }
    let words = split_words(heap, line)?;
    let Some(name) = words.first() else {
        return Ok(None);
    };
    let args = Args {
        heap,
        words: &words,
    };
    read_call(&args, name).map(Some)
}

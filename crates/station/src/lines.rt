// Lines of a call list, and what each of them is.
use call_list::read_line;
use std::alloc::{AllocError, Global};
use std::test::Fail;

// What a line is, as text.
fn shown(heap: Global, line: &[u8]) -> Result<String, AllocError> {
    match read_line(heap, line) {
        Ok(None) => format!(in heap; "skipped"),
        Ok(Some(call)) => format!(in heap; "{call:?}"),
        Err(mistake) => format!(in heap; "{mistake}"),
    }
}

#[test]
fn lines(rt: HostRuntime) -> Result<(), Fail> {
    let table = [
        ("", "skipped"),
        (" \t\r", "skipped"),
        ("# sync 1", "skipped"),
        (" # sync", "unknown call"),
        ("synch", "unknown call"),
        ("\tsync \r", "Sync"),
        ("sync 1", "word 1 is one too many"),
        ("flat 9", "word 2 is missing"),
        (
            "flat 9 - 0aff",
            "Flat { limit: 9, content: [], durable: Some([10, 255]) }",
        ),
        ("flat 9 00 - -", "word 4 is one too many"),
        (
            "writer 18446744073709551615",
            "Writer { capacity: 18446744073709551615 }",
        ),
        (
            "writer 18446744073709551616",
            "word 1 does not fit in 64 bits",
        ),
        ("writer 18446744073709551616x", "word 1 is not a number"),
        ("read_at x", "word 1 is not a number"),
        ("read_at 007 2", "ReadAt { place: 7, len: 2 }"),
        ("resize 5", "Resize { len: 5 }"),
        ("resize 5 6", "word 2 is one too many"),
        ("try_write_at 1 0a", "TryWriteAt { place: 1, bytes: [10] }"),
        ("try_write_at 1 0A0", "word 2 is not lowercase hexadecimal"),
        ("try_write_at 1 0a0", "word 2 has an odd number of digits"),
        (
            "write_at 3 0102 - ff",
            "WriteAt { place: 3, area: [1, 2, 255], pieces: [Span { start: 0, len: 2 }, Span { start: 2, len: 0 }, Span { start: 2, len: 1 }] }",
        ),
        (
            "write_pieces 3 0102 1,1 7,9",
            "WriteAt { place: 3, area: [1, 2], pieces: [Span { start: 1, len: 1 }, Span { start: 7, len: 9 }] }",
        ),
        ("write_pieces 3 0102 1,1 7", "word 4 is not START,LENGTH"),
        ("write_pieces 3 0102 1,2,3", "word 3 is not a number"),
    ];
    for (line, expected) in table {
        let text = shown(rt.alloc(), line.as_bytes())?;
        assert_eq!(rt; text.as_str(), expected, "{}", line);
    }
    let text = shown(rt.alloc(), b"syn\xc3 1")?;
    assert_eq!(rt; text.as_str(), "unknown call");
    Ok(())
}

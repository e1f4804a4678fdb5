// Writes into the middle of an area of bytes, and where a part of it ends.
ghost use Rattle.std.specs.Prelude.{◌≡◌, ◌+◌, ◌-◌, ◌≤◌, ◌↔◌, IfSome, IsSome, length, replicate};
ghost use Rattle.blob.specs.Bytes.{laid, Reaches};

// Where `len` bytes from `start` on end, unless that is above `bound`.
pub fn end_within(start: usize, len: usize, bound: usize) -> Option<usize>
    ensures some { IsSome result ↔ (start + len ≤ bound) }
    ensures end { IfSome result (λ end. end ≡ start + len) }
{
    start.checked_add(len).filter(|&end| end <= bound)
}

// Copies `bytes` into the area from `start` on.
#[tactic(auto, using(crate::proofs::Parts::part_writes))]
pub fn put(area: &mut [u8], start: usize, bytes: &[u8])
    requires { Reaches area.old (start + length bytes.now) }
    ensures { area.new ≡ laid area.old start bytes.now }
{
    let end = start + bytes.len();
    area[start..end].copy_from_slice(bytes);
}

// Fills the area with zeros from `start` up to `end`, and leaves it where `start` is not below that.
#[tactic(auto, using(crate::proofs::Parts::part_writes))]
pub fn clear(area: &mut [u8], start: usize, end: usize)
    requires { Reaches area.old end }
    ensures { area.new ≡ laid area.old start (replicate (end - start) 0) }
{
    if start < end {
        area[start..end].fill(0);
    }
}

// Puts `bytes` at `start` of the array of `len` bytes that the area begins with, and zeros in a gap before them.
pub fn lay(area: &mut [u8], len: usize, start: usize, bytes: &[u8])
    requires { Reaches area.old len × Reaches area.old (start + length bytes.now) }
    ensures { area.new ≡ laid (laid area.old len (replicate (start - len) 0)) start bytes.now }
{
    clear(area, len, start);
    put(area, start, bytes);
}

//! Where a file lies in the buffer.
ghost use Rattle.std.specs.Prelude.{◌≡◌, ◌<◌, length, Some, slice_get};
ghost use Rattle.mol_outside.specs.Stored.{AreWithin, IsWithin};

/// A file in the buffer: its path from `start` to `mid`, then its bytes up to `end`.
#[derive(Clone, Copy)]
pub struct Span {
    pub start: usize,
    pub mid: usize,
    pub end: usize,
}

impl Span {
    ghost use Rattle.mol_outside.specs.Stored.{stored, IsWithin};

    pub fn path(self, buffer: &[u8]) -> &[u8]
        requires { IsWithin (length buffer.now) self }
        ensures { result.now ≡ (stored buffer.now self).0 }
    {
        &buffer[self.start..self.mid]
    }

    pub fn bytes(self, buffer: &[u8]) -> &[u8]
        requires { IsWithin (length buffer.now) self }
        ensures { result.now ≡ (stored buffer.now self).1 }
    {
        &buffer[self.mid..self.end]
    }
}

/// The span at a place, in a buffer of `len` bytes.
pub fn span_at(spans: &[Span], i: usize, len: usize) -> Span
    requires inside { i < length spans.now }
    requires within { AreWithin len spans.now }
    ensures at { slice_get spans.now i ≡ Some result }
    ensures within { IsWithin len result }
{
    spans[i]
}

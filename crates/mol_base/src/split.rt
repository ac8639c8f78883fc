//! Cutting bytes in two.
ghost use Rattle.std.specs.Prelude.{◌≡◌, ◌<◌, length, ◌++◌, ◌∷◌, ◌==◌, List, ℕ, IfSome, IsTrue, IsSomeAnd, not};
ghost use Rattle.std.specs.List.{list_all, position};

/// What stands before the first such byte, and what stands after it; none where there is no such byte.
pub fn split_at_byte(bytes: &[u8], byte: u8) -> Option<(&[u8], &[u8])>
    ensures parts { IfSome result (λ parts. parts.0.now ++ byte ∷ parts.1.now ≡ bytes.now) }
    ensures only { (front back : List ℕ) → IsTrue (list_all (λ b. not (b == byte)) front) → front ++ byte ∷ back ≡ bytes.now
        → IsSomeAnd result (λ parts. (parts.0.now ≡ front) × (parts.1.now ≡ back)) }
{
    match place_of(bytes, byte) {
        Some(at) => Some((&bytes[..at], &bytes[at + 1..])),
        None => None,
    }
}

/// The first place of the byte.
fn place_of(bytes: &[u8], byte: u8) -> Option<usize>
    ensures place { result ≡ position (λ b. b == byte) bytes.now }
    ensures within { IfSome result (λ at. at < length bytes.now) }
{
    bytes.iter().position(|b| *b == byte)
}

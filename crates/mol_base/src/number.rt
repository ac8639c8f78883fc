//! Numbers: of identities and stamps in decimal, of places in lists.
ghost use Rattle.std.specs.Prelude.{◌≡◌, ◌≤◌, ◌^◌, ℕ, IfSome, IfNone, IfOk, OnErr, Some, Contains};
ghost use Rattle.std.specs.Fmt.{decimal};
ghost use Rattle.std.specs.Str.Parse.{ParsesUnsigned};
ghost use Rattle.mol_base.specs.Number.{IsNumber, starts_from_one};

use crate::memory::OutOfMemory;

/// A place in a list, or a count of its items, as a number. There is no memory for as many as do not fit.
pub fn number_of(place: usize) -> Result<u32, OutOfMemory>
    ensures ok { IfOk result (λ number. number ≡ place) }
    ensures err { OnErr result (2 ^ 32 ≤ place) }
{
    match u32::try_from(place) {
        Ok(number) => Ok(number),
        Err(_) => Err(OutOfMemory),
    }
}

/// The number that the bytes spell in decimal: 1 to 4,294,967,295, without a leading zero.
pub fn parse_number(bytes: &[u8]) -> Option<u32>
    ensures spells { IfSome result (λ n. IsNumber n × (decimal n ≡ bytes.now)) }
    ensures only { (n : ℕ) → IsNumber n → decimal n ≡ bytes.now → result ≡ Some n }
{
    if !starts(bytes) {
        return None;
    }
    match std::str::from_utf8(bytes) {
        Ok(digits) => match digits.parse::<u32>() {
            Ok(number) => Some(number),
            Err(_) => None,
        },
        Err(_) => None,
    }
}

/// Whether the first byte is a digit other than `0`.
fn starts(bytes: &[u8]) -> bool
    ensures { result ≡ starts_from_one bytes.now }
{
    match bytes {
        [first, ..] => b'1' <= *first && *first <= b'9',
        [] => false,
    }
}

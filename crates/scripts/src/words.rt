// What the words of a line say: so many bytes, and numbers.
ghost use Rattle.std.specs.Prelude.{◌≡◌, IfOk};
ghost use Rattle.scripts.specs.Words.{exactly_in, decimal_in, field_in};

use crate::hex;
use std::alloc::{AllocError, Global};

// Exactly so many bytes in hexadecimal digits.
pub fn exactly<const N: usize>(heap: Global, digits: &str) -> Result<Option<[u8; N]>, AllocError>
    ensures { IfOk result (λ o. o ≡ exactly_in N digits.now) }
{
    let Some(bytes) = hex::decode(heap, digits.as_bytes())? else {
        return Ok(None);
    };
    Ok(<[u8; N]>::try_from(bytes.as_slice()).ok())
}

// A number in decimal digits.
pub fn decimal(digits: &str) -> Option<u64>
    ensures { result ≡ decimal_in digits.now }
{
    if digits.starts_with('+') {
        return None;
    }
    digits.parse::<u64>().ok()
}

// A number in decimal digits; one that no field could hold is as good as the largest.
pub fn field(digits: &str) -> Option<u32>
    ensures { result ≡ field_in digits.now }
{
    decimal(digits).map(|number| u32::try_from(number).unwrap_or(u32::MAX))
}

// Bytes written as pairs of hexadecimal digits. The kit's `hex` is not used: what is read here is promised by the
// repository's own definition of digits.
ghost use Rattle.std.specs.Prelude.{◌≡◌, IfOk, vec_items};
ghost use Rattle.std.specs.Option.{option_map};
ghost use Rattle.std.specs.String.{string_bytes};
ghost use Rattle.scripts.specs.Hex.{digit_of, pair_of, bytes_of, digits_of};

use std::alloc::{AllocError, Global};

fn digit(code: u8) -> Option<u8>
    ensures { result ≡ digit_of code }
{
    match code {
        b'0'..=b'9' => Some(code - b'0'),
        b'a'..=b'f' => Some(code - b'a' + 10),
        b'A'..=b'F' => Some(code - b'A' + 10),
        _ => None,
    }
}

fn pair(high: u8, low: u8) -> Option<u8>
    ensures { result ≡ pair_of (digit_of high) (digit_of low) }
{
    let (high, low) = (digit(high)?, digit(low)?);
    Some(high * 16 + low)
}

// The bytes that a text says, or none where it is no pairs of digits.
pub fn decode(heap: Global, text: &[u8]) -> Result<Option<Vec<u8>>, AllocError>
    ensures { IfOk result (λ o. option_map vec_items o ≡ bytes_of text.now) }
{
    let mut bytes = Vec::new(heap);
    let mut rest = text;
    // over `text.chunks(2)` the proof has an answer more, that of the chunk of one digit, and each speaks of the iterator
    while let [high, low, behind @ ..] = rest {
        let Some(byte) = pair(*high, *low) else {
            return Ok(None);
        };
        bytes.push(byte)?;
        rest = behind;
    }
    Ok(rest.is_empty().then_some(bytes))
}

// Bytes in pairs of hexadecimal digits.
pub fn encode(heap: Global, bytes: &[u8]) -> Result<String, AllocError>
    ensures { IfOk result (λ s. string_bytes s ≡ digits_of bytes.now) }
{
    let mut digits = String::new(heap);
    for b in bytes {
        write!(digits, "{b:02x}")?;
    }
    Ok(digits)
}

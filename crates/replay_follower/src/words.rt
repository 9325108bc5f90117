// What the words of a line say: bytes, symbols, sizes and sources.
ghost use Rattle.std.specs.Prelude.{◌≡◌, IfOk, vec_items};
ghost use Rattle.std.specs.Option.{option_map};
ghost use Rattle.replay_follower.specs.Words.{bytes_in, filled_up, symbol_in};

use crate::lent::Slots;
use crate::sources::{Kind, Stored};
use scripts::words::decimal;
use scripts::{Fault, hex};
use std::alloc::{AllocError, Global};
use wire::SymbolBytes;

// Bytes in pairs of hexadecimal digits, `-` for none.
pub(crate) fn bytes(heap: Global, word: &str) -> Result<Option<Vec<u8>>, AllocError>
    ensures { IfOk result (λ o. option_map vec_items o ≡ bytes_in word.now) }
{
    match word.as_bytes() {
        [b'-'] => Ok(Some(Vec::new(heap))),
        [] => Ok(None),
        digits => hex::decode(heap, digits),
    }
}

// A symbol: text filled up with spaces, or `0x` and twelve digits.
pub(crate) fn symbol(heap: Global, word: &str) -> Result<Option<SymbolBytes>, AllocError>
    ensures { IfOk result (λ o. o ≡ symbol_in word.now) }
{
    let text = word.as_bytes();
    match text {
        [b'0', b'x', digits @ ..] if text.len() == 14 => {
            let bytes = hex::decode(heap, digits)?;
            Ok(bytes.and_then(|bytes| filled(bytes.as_slice())))
        }
        _ => Ok(filled(text)),
    }
}

// Text of one to six characters, filled up with spaces.
fn filled(text: &[u8]) -> Option<SymbolBytes>
    ensures { result ≡ filled_up text.now }
{
    if text.is_empty() || text.len() > 6 {
        return None;
    }
    let mut name = [b' '; 6];
    name[0..text.len()].copy_from_slice(text);
    Some(name)
}

// `S O H R`, the sizes of a follower.
pub(crate) fn slots(words: &str) -> Option<Slots> {
    let (stocks, rest) = words.split_once(' ')?;
    let (orders, rest) = rest.split_once(' ')?;
    let (held, rows) = rest.split_once(' ')?;
    Some(Slots {
        stocks: decimal(stocks)? as usize,
        orders: decimal(orders)? as usize,
        held: decimal(held)? as usize,
        rows: decimal(rows)? as usize,
    })
}

// One source or more, each `session BYTES` or `file BYTES`.
pub(crate) fn sources(heap: Global, words: &str) -> Result<Vec<Stored>, Fault> {
    let mut stored = Vec::new(heap);
    // word by word, so that no word behind a bad one costs memory
    let mut words = words.split(' ');
    while let Some(kind) = words.next() {
        let kind = kind.parse::<Kind>()?;
        let word = words.next().ok_or(Fault::BadLine)?;
        let bytes = bytes(heap, word)?.ok_or(Fault::BadLine)?;
        stored.push(Stored { kind, bytes })?;
    }
    Ok(stored)
}

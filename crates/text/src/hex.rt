// Byte strings in hexadecimal.
ghost use Rattle.std.specs.Prelude.{◌≡◌, ◌<◌, [], IfSome, IfOk, vec_items};
ghost use Rattle.std.specs.Option.{option_map};
ghost use Rattle.text.specs.Hex.{hex_digit, hex_pair, pairs_after, bytes_of};

use std::alloc::{AllocError, Global};

// The value of a hexadecimal digit; letters are in lower case.
fn hex_digit(byte: u8) -> Option<u8>
    ensures is { result ≡ hex_digit byte }
    ensures small { IfSome result (λ d. d < 16) }
{
    match byte {
        b'0'..=b'9' => Some(byte - b'0'),
        b'a'..=b'f' => Some(byte - b'a' + 10),
        _ => None,
    }
}

// The byte that two digits write.
pub fn hex_pair(high: u8, low: u8) -> Option<u8>
    ensures { result ≡ hex_pair high low }
{
    let high = hex_digit(high)?;
    let low = hex_digit(low)?;
    Some(high * 16 + low)
}

// The bytes that pairs of digits write, or `None` where they are no such pairs.
fn pairs_of(heap: Global, digits: &[u8]) -> Result<Option<Vec<u8>>, AllocError>
    ensures { IfOk result (λ o. option_map vec_items o ≡ pairs_after [] digits.now) }
{
    let mut bytes = Vec::new(heap);
    let mut left = digits;
    while let [high, low, rest @ ..] = left {
        let Some(byte) = hex_pair(*high, *low) else {
            return Ok(None);
        };
        bytes.push(byte)?;
        left = rest;
    }
    Ok(left.is_empty().then_some(bytes))
}

// The byte string that a word writes, or `None` where it writes none.
pub fn bytes_of(heap: Global, word: &str) -> Result<Option<Vec<u8>>, AllocError>
    ensures { IfOk result (λ o. option_map vec_items o ≡ bytes_of word.now) }
{
    if word == "-" {
        return Ok(Some(Vec::new(heap)));
    }
    if word.is_empty() {
        return Ok(None);
    }
    pairs_of(heap, word.as_bytes())
}

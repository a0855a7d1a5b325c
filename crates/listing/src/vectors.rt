// The vectors of an image, as a listing shows them.
ghost use Rattle.std.specs.Prelude.{◌≡◌, IfOk, string_bytes};
ghost use Rattle.listing.specs.Vectors.{vector_word};
ghost use Rattle.listing.specs.Text.{vector_text};

use crate::line::{byte_at, columns};
use part::layout::Vector;
use std::alloc::{AllocError, Global};

// The address that a vector holds, as its two bytes write it.
pub fn vector_word(image: &[u8], vector: Vector) -> u16
    ensures { result ≡ vector_word image.now vector }
{
    let at = vector.address();
    let high = byte_at(image, at);
    let low = byte_at(image, at.wrapping_add(1));
    u16::from_be_bytes([high, low])
}

// Address, bytes, the word that they write, and the vector's name.
#[tactic(auto, using(opcodes::proofs::Hex::byte_output, opcodes::proofs::Hex::word_output))]
pub fn vector_text(heap: Global, image: &[u8], vector: Vector) -> Result<String, AllocError>
    ensures { IfOk result (λ s. string_bytes s ≡ vector_text image.now vector) }
{
    let word = vector_word(image, vector);
    let [high, low] = word.to_be_bytes();
    let bytes = format!(in heap; "{high:02X} {low:02X}")?;
    let data = format!(in heap; "FDB ${word:04X}")?;
    let name = vector.to_string(heap)?;
    columns(
        heap,
        vector.address(),
        bytes.as_str(),
        data.as_str(),
        name.as_str(),
    )
}

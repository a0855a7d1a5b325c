// The arguments of a call, by their place in the line: word 0 is the call's name.
// The definitions name each argument by its place: a reader of the words in turn would need to say in every contract where it stands.
ghost use Rattle.std.specs.Prelude.{◌≡◌, ◌≤◌, IfOk};
ghost use Rattle.text.specs.Words.{words};
ghost use Rattle.script.specs.Arguments.{number_argument, byte_argument, reading_argument, outputs_argument, keys_of, keys_argument, end_at, last_number, bare_call, bytes_call};

use crate::call::Problem;
use board::reading::{Outputs, Reading};
use text::hex::hex_pair;
use text::number::number;
use text::word::word_at;

// The number at this place, not above the limit: each caller takes it in a type of its own, of which the limit says that it is wide enough.
pub(crate) fn number_at(line: &str, place: usize, limit: u64) -> Result<u64, Problem>
    ensures is { result ≡ number_argument limit (words line.now) place }
    ensures within { IfOk result (λ n. n ≤ limit) }
{
    let word = word_at(line, place).ok_or(Problem::MissingArgument)?;
    number(word, limit).ok_or(Problem::BadNumber)
}

// The number from 0 to 255 at this place.
pub(crate) fn byte_at(line: &str, place: usize) -> Result<u8, Problem>
    ensures { result ≡ byte_argument (words line.now) place }
{
    let n = number_at(line, place, 255)?;
    Ok(n as u8)
}

// The line ends before this place.
pub(crate) fn end_at(line: &str, place: usize) -> Result<(), Problem>
    ensures { result ≡ end_at (words line.now) place }
{
    match word_at(line, place) {
        Some(_) => Err(Problem::ExtraArgument),
        None => Ok(()),
    }
}

// A call with no argument.
pub fn bare<C: Copy>(line: &str, call: C) -> Result<C, Problem>
    ensures { result ≡ bare_call (words line.now) call }
{
    end_at(line, 1)?;
    Ok(call)
}

// A call whose one argument is a byte string.
pub fn with_bytes<C: Copy>(line: &str, call: C) -> Result<C, Problem>
    ensures { result ≡ bytes_call (words line.now) call }
{
    word_at(line, 1).ok_or(Problem::MissingArgument)?;
    end_at(line, 2)?;
    Ok(call)
}

// The number at this place, as the line's last word, not above the limit.
pub fn last_number_at(line: &str, place: u8, limit: u64) -> Result<u64, Problem>
    ensures is { result ≡ last_number limit (words line.now) place }
    ensures within { IfOk result (λ n. n ≤ limit) }
{
    let place = usize::from(place);
    let n = number_at(line, place, limit)?;
    end_at(line, place + 1)?;
    Ok(n)
}

// The reading that five numbers write from this place on.
pub(crate) fn reading_at(line: &str, place: u8) -> Result<Reading, Problem>
    ensures { result ≡ reading_argument (words line.now) place }
{
    let place = usize::from(place);
    Ok(Reading {
        level_a: byte_at(line, place)?,
        open_a: byte_at(line, place + 1)?,
        level_b: byte_at(line, place + 2)?,
        open_b: byte_at(line, place + 3)?,
        irq: byte_at(line, place + 4)?,
    })
}

// The outputs that four numbers write from this place on.
pub(crate) fn outputs_at(line: &str, place: u8) -> Result<Outputs, Problem>
    ensures { result ≡ outputs_argument (words line.now) place }
{
    let place = usize::from(place);
    Ok(Outputs {
        direction_a: byte_at(line, place)?,
        driven_a: byte_at(line, place + 1)?,
        direction_b: byte_at(line, place + 2)?,
        driven_b: byte_at(line, place + 3)?,
    })
}

// The number that four hexadecimal digits write.
fn keys_of(word: &[u8]) -> Option<u16>
    ensures { result ≡ keys_of word.now }
{
    let [a, b, c, d] = *word else {
        return None;
    };
    let high = hex_pair(a, b)?;
    let low = hex_pair(c, d)?;
    Some(u16::from_be_bytes([high, low]))
}

// The keys of a matrix at this place.
pub(crate) fn keys_at(line: &str, place: usize) -> Result<u16, Problem>
    ensures { result ≡ keys_argument (words line.now) place }
{
    let word = word_at(line, place).ok_or(Problem::MissingArgument)?;
    keys_of(word.as_bytes()).ok_or(Problem::BadKeys)
}

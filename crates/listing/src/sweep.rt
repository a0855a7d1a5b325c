// Where a listing goes on: it leaves out runs of zeros.
ghost use Rattle.std.specs.Prelude.{◌≡◌, ◌-◌, ◌<◌, ◌≤◌, IfSome, IfOk, MatchOption};
ghost use Rattle.listing.specs.Sweep.{sweep_end, blank, past_zeros, next_line, lines_of};

use crate::line::{Line, byte_at, line_at};
use part::layout::{EPROM_FIRST, EPROM_LAST};
use std::alloc::{AllocError, Global};

// The address past the EPROM.
const SWEEP_END: u16 = EPROM_LAST + 1;

// Whether three zeros stand from this address on: no instruction is listed there.
fn is_blank(image: &[u8], address: u16) -> bool
    ensures { result ≡ blank image.now address }
{
    byte_at(image, address) == 0
        && byte_at(image, address.wrapping_add(1)) == 0
        && byte_at(image, address.wrapping_add(2)) == 0
}

// The first address from this one on with a byte that is not 0, up to the end of the EPROM.
fn past_zeros(image: &[u8], from: u16) -> Option<u16>
    ensures { MatchOption result (sweep_end ≤ past_zeros image.now (sweep_end - from) from) (λ at. (at ≡ past_zeros image.now (sweep_end - from) from) × (at < sweep_end)) }
{
    (from..SWEEP_END).find(|&at| byte_at(image, at) != 0)
}

// The next line of the listing from this address on, up to the end of the EPROM.
pub fn next_line(image: &[u8], from: u16) -> Option<Line>
    ensures is { result ≡ next_line image.now from }
    ensures within { IfSome result (λ l. l.address < sweep_end) }
{
    let at = if is_blank(image, from) {
        past_zeros(image, from)?
    } else {
        from
    };
    (at < SWEEP_END).then(|| line_at(image, at))
}

// All lines of the EPROM.
pub fn all_lines(heap: Global, image: &[u8]) -> Result<Vec<Line>, AllocError>
    ensures { IfOk result (λ v. v.items ≡ lines_of image.now) }
{
    let mut lines = Vec::new(heap);
    let mut at = EPROM_FIRST;
    while let Some(line) = next_line(image, at) {
        lines.push(line)?;
        at = line.address + u16::from(line.length());
    }
    Ok(lines)
}

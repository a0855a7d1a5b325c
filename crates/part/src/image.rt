// The check that a string of bytes is an image for the part.
ghost use Rattle.std.specs.Prelude.{◌≡◌, Some};
ghost use Rattle.part.specs.Image.{allowed, image_checked, image_refusal, image_refused_text};

use crate::layout::{ADDRESS_SPACE, from_image};
use refusal::Refusal;
use std::fmt;
use std::fmt::Display;

// Why a string of bytes is no image.
#[derive(Clone, Copy, PartialEq, Eq, Debug)]
pub enum ImageRefused {
    // It has not as many bytes as the part has addresses.
    Length,
    // At this address, the lowest such, a byte is not 0 though it does not come from the image.
    Byte(u16),
}

impl From<ImageRefused> for Refusal {
    ghost from_gives = { λ refused refusal. refusal ≡ image_refusal refused };

    fn from(refused: ImageRefused) -> Refusal {
        match refused {
            ImageRefused::Length => Refusal::ImageLength,
            ImageRefused::Byte(_) => Refusal::ImageByte,
        }
    }
}

// The refusal's number, and where the byte is: `1`, `2 703`.
impl fmt::Display for ImageRefused {
    ghost output = { λ refused. Some (image_refused_text refused) };

    fn fmt<W: fmt::Write>(&self, f: &mut fmt::Formatter<W>) -> fmt::Result {
        let refusal = Refusal::from(*self);
        match self {
            ImageRefused::Length => refusal.fmt(f),
            ImageRefused::Byte(address) => write!(f, "{refusal} {address}"),
        }
    }
}

// Whether an image may have this byte at this address.
fn may_hold(address: u16, byte: u8) -> bool
    ensures { result ≡ allowed address byte }
{
    byte == 0 || from_image(address)
}

// Accepts an image, or says why it is none.
pub fn check_image(bytes: &[u8]) -> Result<(), ImageRefused>
    ensures { result ≡ image_checked bytes.now }
{
    if bytes.len() != usize::from(ADDRESS_SPACE) {
        return Err(ImageRefused::Length);
    }
    match (0..ADDRESS_SPACE)
        .zip(bytes)
        .find(|(address, byte)| !may_hold(*address, **byte))
    {
        Some((address, _)) => Err(ImageRefused::Byte(address)),
        None => Ok(()),
    }
}

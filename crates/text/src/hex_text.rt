// Bytes as the hexadecimal digits that write them: lower case, no prefix.
ghost use Rattle.std.specs.Prelude.{Some};
ghost use Rattle.text.specs.HexText.{bytes_text};

use std::fmt;

// In two digits a byte.
#[derive(Clone, Copy)]
pub struct HexBytes<'a>(pub &'a [u8]);

impl fmt::Display for HexBytes<'_> {
    ghost output = { λ x. Some (bytes_text x.0.now) };

    fn fmt<W: fmt::Write>(&self, f: &mut fmt::Formatter<W>) -> fmt::Result {
        // Four bytes at a time: padding a number costs about as much at eight digits as at two.
        let mut left = self.0;
        while let [a, b, c, d, rest @ ..] = left {
            let quad = u32::from_be_bytes([*a, *b, *c, *d]);
            write!(f, "{quad:08x}")?;
            left = rest;
        }
        for &byte in left {
            write!(f, "{byte:02x}")?;
        }
        Ok(())
    }
}

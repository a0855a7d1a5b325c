// Sums, differences and products of bytes.
ghost use Rattle.std.specs.Prelude.{◌≡◌};
ghost use Rattle.alu.specs.Sum.{sum_of, difference_of, product_of};

use crate::outcome::Outcome;

// The byte, the carry from bit 3 and the carry from bit 7.
#[derive(Clone, Copy)]
pub struct Sum {
    pub value: u8,
    pub half: bool,
    pub carry: bool,
}

pub fn add(a: u8, b: u8, carry: bool) -> Sum
    ensures { result ≡ sum_of a b carry }
{
    let one = u8::from(carry);
    let value = a.wrapping_add(b).wrapping_add(one);
    let half = a % 16 + b % 16 + one >= 16;
    let carry = u16::from(a) + u16::from(b) + u16::from(one) >= 256;
    Sum { value, half, carry }
}

// a less b, and less 1 where there was a borrow.
pub fn subtract(a: u8, b: u8, borrow: bool) -> Outcome
    ensures { result ≡ difference_of a b borrow }
{
    let one = u8::from(borrow);
    let value = a.wrapping_sub(b).wrapping_sub(one);
    let carry = u16::from(a) < u16::from(b) + u16::from(one);
    Outcome { value, carry }
}

// The high byte of the product, and the low one.
pub fn multiply(a: u8, x: u8) -> (u8, u8)
    ensures { result ≡ product_of a x }
{
    let [high, low] = (u16::from(a) * u16::from(x)).to_be_bytes();
    (high, low)
}

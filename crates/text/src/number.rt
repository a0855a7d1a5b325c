// Decimal numbers.
ghost use Rattle.std.specs.Prelude.{◌≡◌, ◌≤◌, IfSome};
ghost use Rattle.text.specs.Numbers.{number_of};

// The number that the word writes in decimal digits, if it is not above the limit. A wider number holds one digit more, so that one comparison says all.
pub fn number(word: &str, limit: u64) -> Option<u64>
    ensures is { result ≡ number_of limit word.now }
    ensures within { IfSome result (λ n. n ≤ limit) }
{
    let digits = word.as_bytes();
    if digits.is_empty() {
        return None;
    }
    let mut value: u64 = 0;
    for digit in digits {
        if !digit.is_ascii_digit() {
            return None;
        }
        let longer = u128::from(value) * 10 + u128::from(*digit - b'0');
        if longer > u128::from(limit) {
            return None;
        }
        value = longer as u64;
    }
    Some(value)
}

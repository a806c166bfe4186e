// The numbers of a line.
ghost use Rattle.std.specs.Prelude.{◌≡◌, ◌-◌, ◌^◌, ◌<◌, ◌≤◌, [], IfSome, if◌then◌else◌, Some, None};
ghost use Rattle.lines.specs.Numbers.{is_digit, numeral, number_in};

// How a number is written: a generator in octal digits, any other in base ten with an optional minus.
#[derive(Clone, Copy)]
pub enum Radix {
    Decimal,
    Octal,
}

fn digit_of(base: u32, byte: u8) -> Option<u32>
    requires { base ≤ 10 }
    ensures { result ≡ (if is_digit base byte then Some (byte - 48) else None) }
{
    let digit = u32::from(byte.checked_sub(b'0')?);
    (digit < base).then_some(digit)
}

// 1 to 6 digits of a base.
fn numeral(base: u32, digits: &[u8]) -> Option<u32>
    requires { base ≤ 10 }
    ensures value { result ≡ numeral base digits.now }
    ensures small { IfSome result (λ n. n < 10 ^ 6) }
{
    if digits.is_empty() || digits.len() > 6 {
        return None;
    }
    // A fold's closure could not name how far the value has grown, which keeps the sum in range.
    let mut value = 0;
    for b in digits {
        let digit = digit_of(base, *b)?;
        value = value * base + digit;
    }
    Some(value)
}

// The number that a word writes, if it writes one.
pub fn number_of(radix: Radix, word: &[u8]) -> Option<i32>
    ensures { result ≡ number_in radix word.now }
{
    match (radix, word) {
        (Radix::Octal, _) => Some(numeral(8, word)? as i32),
        (Radix::Decimal, [b'-', digits @ ..]) => Some(-(numeral(10, digits)? as i32)),
        (Radix::Decimal, _) => Some(numeral(10, word)? as i32),
    }
}

//! Upper-case hexadecimal digits.

ghost use Rattle.std.specs.Prelude.{◌<◌, IfSome};

use arrayvec::ArrayVec;

/// The digit of a value below 16: 0-9, A-F.
fn digit_of(value: u8) -> u8
    requires { value < 16 }
{
    if value < 10 {
        value + b'0'
    } else {
        value - 10 + b'A'
    }
}

/// The value of a digit 0-9 or A-F; `None` for any other byte, lower-case letters included.
fn value_of(digit: u8) -> Option<u16>
    ensures bound { IfSome result (λ value. value < 16) }
{
    match digit {
        b'0'..=b'9' => Some(u16::from(digit - b'0')),
        b'A'..=b'F' => Some(u16::from(digit - b'A') + 10),
        _ => None,
    }
}

/// Parses four digits 0-9 A-F; `None` for any other text.
pub fn u16_of(text: &str) -> Option<u16> {
    let [first, second, third, fourth] = text.as_bytes() else {
        return None;
    };
    let first = value_of(*first)?;
    let second = value_of(*second)?;
    let third = value_of(*third)?;
    let fourth = value_of(*fourth)?;
    Some(((first * 16 + second) * 16 + third) * 16 + fourth)
}

/// The 64 digits of the 32 bytes of a FIB.
pub fn digits_of_fib(fib: &[u8; 32]) -> ArrayVec<u8, 64> {
    let mut digits = ArrayVec::new();
    for byte in fib {
        let _ = digits.try_push(digit_of(byte / 16));
        let _ = digits.try_push(digit_of(byte % 16));
    }
    digits
}

//! Numbers in fields.
ghost use Rattle.std.specs.Prelude.{◌≡◌, ◌≤◌, length, IfOk};
ghost use Rattle.telegram.specs.Numbers.{is_digit, is_led_well, is_natural, is_number, number_of};
ghost use Rattle.telegram.specs.Numbers.{IsFromTo};

use crate::telegram::Reject;
use std::str;

fn is_digit(byte: u8) -> bool
    ensures { result ≡ is_digit byte }
{
    byte.is_ascii_digit()
}

/// One byte, or bytes of which the first isn't `0`.
fn is_led_well(bytes: &[u8]) -> bool
    requires { 1 ≤ length bytes.now }
    ensures { result ≡ is_led_well bytes.now }
{
    bytes.len() == 1 || bytes[0] != b'0'
}

/// `0`, or digits of which the first isn't 0.
fn is_natural(digits: &[u8]) -> bool
    ensures { result ≡ is_natural digits.now }
{
    !digits.is_empty() && is_led_well(digits) && digits.iter().all(|byte| is_digit(*byte))
}

fn is_number(field: &[u8]) -> bool
    ensures { result ≡ is_number field.now }
{
    match field {
        [b'-', digits @ ..] => is_natural(digits) && digits[0] != b'0',
        digits => is_natural(digits),
    }
}

/// The number that a field's text spells, from `low` to `high`: [`number`] of its bytes.
pub fn number_in(field: &str, low: i64, high: i64) -> Result<i64, Reject>
    ensures value { result ≡ number_of field.now low high }
    ensures within { IfOk result (λ z. IsFromTo low high z) }
{
    if !is_number(field.as_bytes()) {
        return Err(Reject::Number);
    }
    let Ok(value) = field.parse::<i64>() else {
        return Err(Reject::Range);
    };
    if value < low || high < value {
        return Err(Reject::Range);
    }
    Ok(value)
}

/// The number that a field spells, from `low` to `high`. It is `Number` exactly where the field
/// isn't spelled as a number, and `Range` exactly where its value, however long, is out of the
/// range.
pub fn number(field: &[u8], low: i64, high: i64) -> Result<i64, Reject>
    ensures value { result ≡ number_of field.now low high }
    ensures within { IfOk result (λ z. IsFromTo low high z) }
{
    match str::from_utf8(field) {
        Ok(text) => number_in(text, low, high),
        Err(_) => Err(Reject::Number),
    }
}

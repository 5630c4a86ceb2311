//! Fields, one after another, and what each of them says.
ghost use Rattle.std.specs.Prelude.{◌≡◌, ◌∷◌, ◌<◌, ℤ, neg_ℤ, pos, ◌-◌, ◌^◌, FitsSigned, IfSome};
ghost use Rattle.std.specs.Int.{w128};
ghost use Rattle.telegram.specs.Numbers.{IsFromTo};
ghost use Rattle.telegram.specs.Telegrams.{fields, fields_left};
ghost use Rattle.log_reading.specs.Fields.{at_first, at_only, both_texts, cut, field_taken, i32_of};
ghost use Rattle.log_reading.specs.Fields.{i64_of, i128_of, next_field, number_in, one_text};
ghost use Rattle.log_reading.specs.Fields.{only_field, taken, u32_of, word_of};

use itoa::Buffer;

/// What stands before the first such mark, and what stands after it.
pub(crate) fn cut(text: &str, mark: char) -> Option<(&str, &str)>
    requires { mark < 128 }
    ensures { both_texts result ≡ cut mark text.now }
{
    text.split_once(mark)
}

/// The text's first field, and what stands after the comma that ends it.
pub(crate) fn first_field(text: &str) -> (&str, Option<&str>)
    ensures { fields text.now ≡ result.0.now ∷ fields_left result.1 }
{
    match text.split_once(',') {
        Some((field, rest)) => (field, Some(rest)),
        None => (text, None),
    }
}

/// The first of the fields that are left, and those after it.
pub(crate) fn next_field(rest: Option<&str>) -> Option<(&str, Option<&str>)>
    ensures { field_taken result ≡ next_field (fields_left rest.entry) }
{
    Some(first_field(rest?))
}

/// The field that is left, where it is the only one.
pub(crate) fn only_field(rest: Option<&str>) -> Option<&str>
    ensures { one_text result ≡ only_field (fields_left rest.entry) }
{
    let (field, rest) = next_field(rest)?;
    match rest {
        None => Some(field),
        Some(_) => None,
    }
}

/// The number from `low` to `high` that a field spells. There is one spelling for each number: `0`, or an optional `-`
/// and digits of which the first isn't 0.
pub(crate) fn number_in(field: &str, low: i128, high: i128) -> Option<i128>
    ensures value { result ≡ number_in low high field.now }
    ensures within { IfSome result (λ z. IsFromTo low high z) }
{
    let value = match field.parse::<i128>() {
        Ok(value) => value,
        Err(_) => return None,
    };
    if value < low || high < value {
        return None;
    }
    if Buffer::new().format(value) != field {
        return None;
    }
    Some(value)
}

pub(crate) fn u32_of(field: &str) -> Option<u32>
    ensures { result ≡ u32_of field.now }
{
    let value = number_in(field, 0, i128::from(u32::MAX))?;
    Some(value as u32)
}

fn i32_of(field: &str) -> Option<i32>
    ensures { result ≡ i32_of field.now }
{
    let value = number_in(field, i128::from(i32::MIN), i128::from(i32::MAX))?;
    Some(value as i32)
}

fn i64_of(field: &str) -> Option<i64>
    ensures { result ≡ i64_of field.now }
{
    let value = number_in(field, i128::from(i64::MIN), i128::from(i64::MAX))?;
    Some(value as i64)
}

fn i128_of(field: &str) -> Option<i128>
    ensures { result ≡ i128_of field.now }
{
    number_in(field, i128::MIN, i128::MAX)
}

/// One of two words, of which the first says that it is so.
pub(crate) fn word_of(field: &str, on: &str, off: &str) -> Option<bool>
    ensures { result ≡ word_of on.now off.now field.now }
{
    if field == on {
        Some(true)
    } else if field == off {
        Some(false)
    } else {
        None
    }
}

pub(crate) fn u32_at(rest: Option<&str>) -> Option<(u32, Option<&str>)>
    ensures { taken result ≡ at_first u32_of (fields_left rest.entry) }
{
    let (field, rest) = next_field(rest)?;
    let value = u32_of(field)?;
    Some((value, rest))
}

pub(crate) fn i32_at(rest: Option<&str>) -> Option<(i32, Option<&str>)>
    ensures { taken result ≡ at_first i32_of (fields_left rest.entry) }
{
    let (field, rest) = next_field(rest)?;
    let value = i32_of(field)?;
    Some((value, rest))
}

pub(crate) fn i64_at(rest: Option<&str>) -> Option<(i64, Option<&str>)>
    ensures { taken result ≡ at_first i64_of (fields_left rest.entry) }
{
    let (field, rest) = next_field(rest)?;
    let value = i64_of(field)?;
    Some((value, rest))
}

pub(crate) fn i128_at(rest: Option<&str>) -> Option<(i128, Option<&str>)>
    ensures { taken result ≡ at_first i128_of (fields_left rest.entry) }
{
    let (field, rest) = next_field(rest)?;
    let value = i128_of(field)?;
    Some((value, rest))
}

pub(crate) fn only_u32(rest: Option<&str>) -> Option<u32>
    ensures { result ≡ at_only u32_of (fields_left rest.entry) }
{
    u32_of(only_field(rest)?)
}

//! From bodies to references.
ghost use Rattle.std.specs.Prelude.{◌≡◌, ◌∷◌, ◌≤◌, [], Err, IfOk, IfSome, IfNone};
ghost use Rattle.telegram.specs.Telegrams.{fields, fields_left, natural_of, within_of};
ghost use Rattle.telegram.specs.declared.telegram.Reject.TheVariants.{Count};
ghost use Rattle.sensor_vote.specs.References.{IsReference, reference_of, reference_of_fields};
ghost use Rattle.plant_model.specs.Numbers.{IsWithin};

use crate::reference::{REFERENCES, Reference};
use frame::Body;
use plant_model::limits::{LAST_MOMENT, MOST_POSITION, WHOLE_TURN};
use telegram::{Reject, number_in};

/// The text's first field, and what stands after the comma that ends it.
fn first_field(text: &str) -> (&str, Option<&str>)
    ensures { fields text.now ≡ result.0.now ∷ fields_left result.1 }
{
    match text.split_once(',') {
        Some((field, rest)) => (field, Some(rest)),
        None => (text, None),
    }
}

/// The five fields after a comma. None where there are more or fewer.
fn five_fields(rest: Option<&str>) -> Option<(&str, &str, &str, &str, &str)>
    ensures found { IfSome result (λ f.
        fields_left rest.entry ≡ f.0.now ∷ f.1.now ∷ f.2.now ∷ f.3.now ∷ f.4.now ∷ []) }
    ensures others { IfNone result (reference_of_fields (fields_left rest.entry) ≡ Err Count) }
{
    let (first, rest) = first_field(rest?);
    let (second, rest) = first_field(rest?);
    let (third, rest) = first_field(rest?);
    let (fourth, rest) = first_field(rest?);
    let (fifth, rest) = first_field(rest?);
    match rest {
        None => Some((first, second, third, fourth, fifth)),
        Some(_) => None,
    }
}

fn natural(field: &str, low: u32, high: u32) -> Result<u32, Reject>
    ensures value { result ≡ natural_of low high field.now }
    ensures above { IfOk result (λ n. low ≤ n) }
    ensures below { IfOk result (λ n. n ≤ high) }
{
    let value = number_in(field, i64::from(low), i64::from(high))?;
    Ok(value as u32)
}

fn position(field: &str) -> Result<i32, Reject>
    ensures value { result ≡ within_of MOST_POSITION field.now }
    ensures within { IfOk result (λ z. IsWithin MOST_POSITION z) }
{
    let most = i64::from(MOST_POSITION);
    let value = number_in(field, -most, most)?;
    Ok(value as i32)
}

fn reference(rest: Option<&str>) -> Result<Reference, Reject>
    ensures value { result ≡ reference_of_fields (fields_left rest.entry) }
    ensures within { IfOk result IsReference }
{
    let (t, i, x, y, h) = five_fields(rest).ok_or(Reject::Count)?;
    let moment = natural(t, 0, LAST_MOMENT)?;
    let number = natural(i, 1, REFERENCES)?;
    let x = position(x)?;
    let y = position(y)?;
    let heading = natural(h, 0, WHOLE_TURN - 1)?;
    Ok(Reference {
        moment,
        number,
        x,
        y,
        heading,
    })
}

/// What a body says of a reference, `REF,t,i,x,y,h`. None exactly where its first field isn't `REF`.
///
/// The moment t is in ms, the number i from 1 to 3, the position x and y in cm within
/// [`MOST_POSITION`] and the heading h in centidegrees below a whole turn. The refusal is the first in
/// this order: `Count` for another number of fields, and then of the fields from left to right
/// `Number` and `Range`, as [`number_in`] says.
pub fn read_reference(body: &Body) -> Option<Result<Reference, Reject>>
    ensures read { result ≡ reference_of body.now }
    ensures within { IfSome result (λ read. IfOk read IsReference) }
{
    let (kind, rest) = first_field(body.as_str());
    if kind != "REF" {
        return None;
    }
    Some(reference(rest))
}

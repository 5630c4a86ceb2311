//! From bodies to telegrams.
ghost use Rattle.std.specs.Prelude.{◌≡◌, ◌∷◌, [], ℕ, List, Bool, Result, Ok, Err, MatchResult, drop};
ghost use Rattle.telegram.specs.Numbers.{number_of};
ghost use Rattle.telegram.specs.Telegrams.{telegram, made, fields, fields_left, natural_of, forms};
ghost use Rattle.telegram.specs.Telegrams.{moment_of, angle_of, name_of, word_of, none, one, two};
ghost use Rattle.telegram.specs.Telegrams.{three, four, position_of, wind_of, setpoint_of};
ghost use Rattle.telegram.specs.Telegrams.{switch_of, mode_of, manual_of, ack_of, bar_of, read_by};
ghost use Rattle.telegram.specs.declared.telegram.Reject.{Reject};
ghost use Rattle.telegram.specs.declared.telegram.Telegram.{Telegram};
ghost use Rattle.telegram.specs.declared.telegram.Telegram.TheVariants.{Board};

use crate::numbers::number_in;
use crate::telegram::{Reject, Telegram};
use frame::Body;
use plant_model::limits::{
    LAST_ALARM, LAST_MOMENT, MOST_FORCE, MOST_MOMENT, MOST_PIECES, MOST_POSITION, MOST_WIND_SPEED,
    WHOLE_TURN,
};
use plant_model::name::Name;
use plant_model::wrench::Wrench;

/// The text's first field, and what stands after the comma that ends it.
fn first_field(text: &str) -> (&str, Option<&str>)
    ensures { fields text.now ≡ result.0.now ∷ fields_left result.1 }
{
    match text.split_once(',') {
        Some((field, rest)) => (field, Some(rest)),
        None => (text, None),
    }
}

/// No field is left.
fn no_field(rest: Option<&str>) -> Result<(), Reject>
    ensures { MatchResult result (λ _. fields_left rest.entry ≡ [])
        (λ e. (read : Result Telegram Reject) → none read (fields_left rest.entry) ≡ Err e) }
{
    match rest {
        None => Ok(()),
        Some(_) => Err(Reject::Count),
    }
}

fn one_field(rest: Option<&str>) -> Result<&str, Reject>
    ensures { MatchResult result (λ field. fields_left rest.entry ≡ field.now ∷ [])
        (λ e. (read : List ℕ → Result Telegram Reject)
        → one read (fields_left rest.entry) ≡ Err e) }
{
    let (field, rest) = first_field(rest.ok_or(Reject::Count)?);
    no_field(rest)?;
    Ok(field)
}

fn two_fields(rest: Option<&str>) -> Result<(&str, &str), Reject>
    ensures { MatchResult result (λ f. fields_left rest.entry ≡ f.0.now ∷ f.1.now ∷ [])
        (λ e. (read : List ℕ → List ℕ → Result Telegram Reject)
        → two read (fields_left rest.entry) ≡ Err e) }
{
    let (first, rest) = first_field(rest.ok_or(Reject::Count)?);
    let second = one_field(rest)?;
    Ok((first, second))
}

fn three_fields(rest: Option<&str>) -> Result<(&str, &str, &str), Reject>
    ensures { MatchResult result (λ f. fields_left rest.entry ≡ f.0.now ∷ f.1.now ∷ f.2.now ∷ [])
        (λ e. (read : List ℕ → List ℕ → List ℕ → Result Telegram Reject)
        → three read (fields_left rest.entry) ≡ Err e) }
{
    let (first, rest) = first_field(rest.ok_or(Reject::Count)?);
    let (second, third) = two_fields(rest)?;
    Ok((first, second, third))
}

fn four_fields(rest: Option<&str>) -> Result<(&str, &str, &str, &str), Reject>
    ensures { MatchResult result
        (λ f. fields_left rest.entry ≡ f.0.now ∷ f.1.now ∷ f.2.now ∷ f.3.now ∷ [])
        (λ e. (read : List ℕ → List ℕ → List ℕ → List ℕ → Result Telegram Reject)
        → four read (fields_left rest.entry) ≡ Err e) }
{
    let (first, rest) = first_field(rest.ok_or(Reject::Count)?);
    let (second, third, fourth) = three_fields(rest)?;
    Ok((first, second, third, fourth))
}

fn natural(field: &str, low: u32, high: u32) -> Result<u32, Reject>
    ensures { result ≡ natural_of low high field.now }
{
    let value = number_in(field, i64::from(low), i64::from(high))?;
    Ok(value as u32)
}

fn whole(field: &str, low: i32, high: i32) -> Result<i32, Reject>
    ensures { result ≡ number_of field.now low high }
{
    let value = number_in(field, i64::from(low), i64::from(high))?;
    Ok(value as i32)
}

fn moment(field: &str) -> Result<u32, Reject>
    ensures { result ≡ moment_of field.now }
{
    natural(field, 0, LAST_MOMENT)
}

fn angle(field: &str) -> Result<u32, Reject>
    ensures { result ≡ angle_of field.now }
{
    natural(field, 0, WHOLE_TURN - 1)
}

fn name(field: &str) -> Result<Name, Reject>
    ensures { result ≡ name_of field.now }
{
    Name::of(field.as_bytes()).ok_or(Reject::Word)
}

/// One of two words, of which the first says that it is so.
fn word(field: &str, on: &str, off: &str) -> Result<bool, Reject>
    ensures { result ≡ word_of on.now off.now field.now }
{
    if field == on {
        Ok(true)
    } else if field == off {
        Ok(false)
    } else {
        Err(Reject::Word)
    }
}

fn position(rest: Option<&str>) -> Result<Telegram, Reject>
    ensures { result ≡ four position_of (fields_left rest.entry) }
{
    let (t, x, y, h) = four_fields(rest)?;
    let moment = moment(t)?;
    let x = whole(x, -MOST_POSITION, MOST_POSITION)?;
    let y = whole(y, -MOST_POSITION, MOST_POSITION)?;
    let heading = angle(h)?;
    Ok(Telegram::Position {
        moment,
        x,
        y,
        heading,
    })
}

fn wind(rest: Option<&str>) -> Result<Telegram, Reject>
    ensures { result ≡ three wind_of (fields_left rest.entry) }
{
    let (t, s, a) = three_fields(rest)?;
    let moment = moment(t)?;
    let speed = natural(s, 0, MOST_WIND_SPEED)?;
    let angle = angle(a)?;
    Ok(Telegram::Wind {
        moment,
        speed,
        angle,
    })
}

fn setpoint(rest: Option<&str>) -> Result<Telegram, Reject>
    ensures { result ≡ three setpoint_of (fields_left rest.entry) }
{
    let (x, y, h) = three_fields(rest)?;
    let x = whole(x, -MOST_POSITION, MOST_POSITION)?;
    let y = whole(y, -MOST_POSITION, MOST_POSITION)?;
    let heading = angle(h)?;
    Ok(Telegram::Setpoint { x, y, heading })
}

/// A part's name, and whether the first of the two words stands after it.
fn switch(rest: Option<&str>, on: &str, off: &str) -> Result<(Name, bool), Reject>
    ensures { (make : List ℕ → Bool → Telegram) →
        made make result ≡ two (switch_of make on.now off.now) (fields_left rest.entry) }
{
    let (n, w) = two_fields(rest)?;
    let name = name(n)?;
    let value = word(w, on, off)?;
    Ok((name, value))
}

fn mode(rest: Option<&str>) -> Result<Telegram, Reject>
    ensures { result ≡ one mode_of (fields_left rest.entry) }
{
    let manual = word(one_field(rest)?, "MANUAL", "AUTO")?;
    Ok(Telegram::Mode { manual })
}

fn manual(rest: Option<&str>) -> Result<Telegram, Reject>
    ensures { result ≡ three manual_of (fields_left rest.entry) }
{
    let (x, y, n) = three_fields(rest)?;
    let x = whole(x, -MOST_FORCE, MOST_FORCE)?;
    let y = whole(y, -MOST_FORCE, MOST_FORCE)?;
    let n = whole(n, -MOST_MOMENT, MOST_MOMENT)?;
    Ok(Telegram::Manual {
        demand: Wrench { x, y, n },
    })
}

fn ack(rest: Option<&str>) -> Result<Telegram, Reject>
    ensures { result ≡ one ack_of (fields_left rest.entry) }
{
    let number = natural(one_field(rest)?, 1, LAST_ALARM)?;
    Ok(Telegram::Ack { number })
}

fn board(rest: Option<&str>) -> Result<Telegram, Reject>
    ensures { result ≡ none (Ok Board) (fields_left rest.entry) }
{
    no_field(rest)?;
    Ok(Telegram::Board)
}

fn bar(rest: Option<&str>) -> Result<Telegram, Reject>
    ensures { result ≡ three bar_of (fields_left rest.entry) }
{
    let (n, k, w) = three_fields(rest)?;
    let name = name(n)?;
    let piece = natural(k, 0, MOST_PIECES as u32 - 1)?;
    let barred = word(w, "BAR", "FREE")?;
    Ok(Telegram::Bar {
        name,
        piece,
        barred,
    })
}

/// The telegram of a kind that is no switch either.
fn commanded(kind: &str, rest: Option<&str>) -> Result<Telegram, Reject>
    ensures { result ≡ read_by (drop 6 forms) kind.now (fields_left rest.entry) }
{
    if kind == "MOD" {
        mode(rest)
    } else if kind == "MAN" {
        manual(rest)
    } else if kind == "ACK" {
        ack(rest)
    } else if kind == "BRD" {
        board(rest)
    } else if kind == "BAR" {
        bar(rest)
    } else {
        Err(Reject::Kind)
    }
}

/// The telegram of a kind that is no position, wind or set point: a switch of a part, or a further one.
fn switched(kind: &str, rest: Option<&str>) -> Result<Telegram, Reject>
    ensures { result ≡ read_by (drop 3 forms) kind.now (fields_left rest.entry) }
{
    if kind == "THR" {
        let (name, selected) = switch(rest, "IN", "OUT")?;
        Ok(Telegram::Thruster { name, selected })
    } else if kind == "GEN" {
        let (name, running) = switch(rest, "RUN", "STOP")?;
        Ok(Telegram::Generator { name, running })
    } else if kind == "TIE" {
        let (name, closed) = switch(rest, "CLOSE", "OPEN")?;
        Ok(Telegram::Tie { name, closed })
    } else {
        commanded(kind, rest)
    }
}

/// The telegram of a body.
///
/// The refusal is the first in this order: `Kind` where the first field is no telegram's, `Count`
/// for another number of fields, and then the fields from left to right: `Number` and `Range` as
/// [`number_in`] says, and `Word` for a field that is no name or no word of the telegram.
pub fn read(body: &Body) -> Result<Telegram, Reject>
    ensures { result ≡ telegram body.now }
{
    let (kind, rest) = first_field(body.as_str());
    if kind == "POS" {
        position(rest)
    } else if kind == "WND" {
        wind(rest)
    } else if kind == "SET" {
        setpoint(rest)
    } else {
        switched(kind, rest)
    }
}

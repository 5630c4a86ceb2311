//! From telegrams to bodies.
ghost use Rattle.std.specs.Prelude.{◌≡◌, ◌+◌, ◌≤◌, ◌∷◌, ◌*◌, ◌++◌, length, flat_map, IsTrue};
ghost use Rattle.std.specs.Fmt.{signed_decimal};
ghost use Rattle.std.specs.List.{list_all};
ghost use Rattle.frame.specs.Bodies.{is_body, is_body_byte};
ghost use Rattle.telegram.specs.Laws.{IsReadOfItsText, IsReadOfNoOther, IsReadWithinRanges};
ghost use Rattle.telegram.specs.Telegrams.{comma, telegram_text};

use crate::telegram::Telegram;
use arrayvec::ArrayString;
use frame::{Body, MOST_BODY_BYTES};
use itoa::Buffer;
use plant_model::limits::MOST_NAME_BYTES;
use plant_model::name::Name;
use std::marker::Model;

/// The bytes of a number of 64 bits: at most this many.
const MOST_NUMBER_BYTES: usize = 20;

/// The fields of a body that were written so far. Contracts see its bytes.
#[derive(Drop)]
struct Fields {
    text: ArrayString<MOST_BODY_BYTES>,
}

impl Model for Fields {
    ghost use Rattle.std.specs.Prelude.{ℕ, ◌≤◌, List, length, IsTrue};
    ghost use Rattle.std.specs.List.{list_all};
    ghost use Rattle.frame.specs.Bodies.{is_body, is_body_byte};

    ghost Value = { List ℕ };

    ghost view = { λ fields. fields.text.bytes };

    ghost invariant = { λ fields. IsTrue (is_body fields.text.bytes) };
}

impl Fields {
    /// The first field.
    fn of(kind: &str) -> Fields
        requires { IsTrue (is_body kind.now) }
        ensures { result ≡ kind.now }
    {
        let mut text = ArrayString::new();
        text.push_str(kind);
        Fields { text }
    }

    fn field(self, field: &str) -> Fields
        requires room { length self + 1 + length field.now ≤ MOST_BODY_BYTES }
        requires bytes { IsTrue (list_all is_body_byte field.now) }
        ensures { result ≡ self ++ comma ∷ field.now }
    {
        let mut text = self.text;
        text.push(',');
        text.push_str(field);
        Fields { text }
    }

    fn number(self, number: i64) -> Fields
        requires { length self + 1 + MOST_NUMBER_BYTES ≤ MOST_BODY_BYTES }
        ensures value { result ≡ self ++ comma ∷ signed_decimal number }
        ensures short { length result ≤ length self + 1 + MOST_NUMBER_BYTES }
    {
        self.field(Buffer::new().format(number))
    }

    /// As many numbers as a body has room for.
    fn numbers(self, numbers: &[i64]) -> Fields
        requires { length self + length numbers.now * (1 + MOST_NUMBER_BYTES) ≤ MOST_BODY_BYTES }
        ensures { result ≡ self ++ flat_map (λ z. comma ∷ signed_decimal z) numbers.now }
    {
        let mut fields = self;
        for number in numbers {
            fields = fields.number(*number);
        }
        fields
    }

    fn name(self, name: &Name) -> Fields
        requires { length self + 1 + MOST_NAME_BYTES ≤ MOST_BODY_BYTES }
        ensures value { result ≡ self ++ comma ∷ name.now }
        ensures short { length result ≤ length self + 1 + MOST_NAME_BYTES }
    {
        self.field(name.as_str())
    }

    fn body(self) -> Body
        ensures { result ≡ self }
    {
        Body::of(self.text.as_str().as_bytes()).unwrap()
    }
}

/// A part's name and the word that says how it is switched.
fn switch(kind: &str, name: &Name, word: &str) -> Body
    requires kind { IsTrue (is_body kind.now) }
    requires word { IsTrue (list_all is_body_byte word.now) }
    requires short { length kind.now + length word.now + MOST_NAME_BYTES + 2 ≤ MOST_BODY_BYTES }
    ensures { result ≡ kind.now ++ comma ∷ (name.now ++ comma ∷ word.now) }
{
    Fields::of(kind).name(name).field(word).body()
}

/// The body of a telegram: the one that is read as it.
pub fn write(telegram: &Telegram) -> Body
    ensures { result ≡ telegram_text telegram.now }
{
    match telegram {
        Telegram::Position {
            moment,
            x,
            y,
            heading,
        } => Fields::of("POS")
            .numbers(&[
                i64::from(*moment),
                i64::from(*x),
                i64::from(*y),
                i64::from(*heading),
            ])
            .body(),
        Telegram::Wind {
            moment,
            speed,
            angle,
        } => Fields::of("WND")
            .numbers(&[i64::from(*moment), i64::from(*speed), i64::from(*angle)])
            .body(),
        Telegram::Setpoint { x, y, heading } => {
            Fields::of("SET")
                .numbers(&[i64::from(*x), i64::from(*y), i64::from(*heading)])
                .body()
        }
        Telegram::Thruster { name, selected } => {
            switch("THR", name, if *selected { "IN" } else { "OUT" })
        }
        Telegram::Generator { name, running } => {
            switch("GEN", name, if *running { "RUN" } else { "STOP" })
        }
        Telegram::Tie { name, closed } => {
            switch("TIE", name, if *closed { "CLOSE" } else { "OPEN" })
        }
        Telegram::Mode { manual } => Fields::of("MOD")
            .field(if *manual { "MANUAL" } else { "AUTO" })
            .body(),
        Telegram::Manual { demand } => Fields::of("MAN")
            .numbers(&[
                i64::from(demand.x),
                i64::from(demand.y),
                i64::from(demand.n),
            ])
            .body(),
        Telegram::Ack { number } => Fields::of("ACK").number(i64::from(*number)).body(),
        Telegram::Board => Fields::of("BRD").body(),
        Telegram::Bar {
            name,
            piece,
            barred,
        } => Fields::of("BAR")
            .name(name)
            .number(i64::from(*piece))
            .field(if *barred { "BAR" } else { "FREE" })
            .body(),
    }
}

/// Reading and writing are exact: each telegram within its ranges is read of its own text, and of
/// no other body; and what is read of any body is within its ranges.
pub fn telegrams_are_exact()
    ensures own_text { IsReadOfItsText }
    ensures no_other { IsReadOfNoOther }
    ensures within { IsReadWithinRanges }
{}

//! The words of `run`, one of which may be the value of another.
ghost use Rattle.std.specs.Prelude.{◌≡◌, ◌==◌, ◌+◌, map, MatchOption, Some, None, IfOk, IfSome};
ghost use Rattle.dp_words.specs.Sorting.{pair};
ghost use Rattle.dp_words.specs.Words.{AsksWithin, AreWorkers, run_at, run_form, run_of};
ghost use Rattle.dp_words.specs.Words.{run_placed, run_valued, value_in, workers_in, workers_of};

use crate::form::{Form, WordsFault};
use crate::sorting::Placed;
use plant_model::limits::MOST_WORKERS;

/// The workers of a session where no word says how many.
const USUAL_WORKERS: u32 = 2;

/// The digit of the most workers.
const LAST_DIGIT: u8 = b'0' + MOST_WORKERS as u8;

/// The value in a word `--workers=N`.
fn value_in(word: &str) -> Option<&[u8]>
    ensures { MatchOption result (value_in word.now ≡ None)
        (λ value. value_in word.now ≡ Some value.now) }
{
    word.as_bytes().strip_prefix(b"--workers=")
}

/// The number of workers that a value says: one digit from 1 to [`MOST_WORKERS`].
fn workers_of(value: &[u8]) -> Option<u32>
    ensures value { result ≡ workers_of value.now }
    ensures within { IfSome result AreWorkers }
{
    match value {
        [digit] if (b'1'..=LAST_DIGIT).contains(digit) => Some(u32::from(*digit - b'0')),
        _ => None,
    }
}

/// The number of workers that an option word says.
fn workers_in(word: &str) -> Option<u32>
    ensures value { result ≡ workers_in (value_in word.now) }
    ensures within { IfSome result AreWorkers }
{
    match value_in(word) {
        Some(value) => workers_of(value),
        None => None,
    }
}

/// The form with these places, of which at most one is `-`, and so many workers.
fn run_of(
    workers: Option<u32>,
    plant: &Placed<'_>,
    sensors: &Placed<'_>,
    operators: &Placed<'_>,
) -> Result<Form, WordsFault>
    requires { IfSome workers AreWorkers }
    ensures form { result ≡ run_of workers (pair plant.now) (pair sensors.now)
        (pair operators.now) }
    ensures within { IfOk result AsksWithin }
{
    let (first, second, third) = (plant.is_dash(), sensors.is_dash(), operators.is_dash());
    match workers {
        Some(workers) if !(first && second || (first || second) && third) => Ok(Form::Run {
            plant: plant.place,
            sensors: sensors.place,
            operators: operators.place,
            workers,
        }),
        _ => Err(WordsFault::OtherWords),
    }
}

/// The form with these places, if they are three.
fn run_placed(workers: Option<u32>, places: &[Placed<'_>]) -> Result<Form, WordsFault>
    requires { IfSome workers AreWorkers }
    ensures form { result ≡ run_placed workers (map pair places.now) }
    ensures within { IfOk result AsksWithin }
{
    match places {
        [plant, sensors, operators] => run_of(workers, plant, sensors, operators),
        _ => Err(WordsFault::OtherWords),
    }
}

/// Whether the word stands right after the other.
fn follows(word: &Placed<'_>, other: &Placed<'_>) -> bool
    ensures { result ≡ (word.now.place == other.now.place + 1) }
{
    word.place > other.place && word.place - other.place == 1
}

/// The form where the option's value is the one of four words that follows it.
fn run_after(
    option: &Placed<'_>,
    a: &Placed<'_>,
    b: &Placed<'_>,
    c: &Placed<'_>,
    d: &Placed<'_>,
) -> Result<Form, WordsFault>
    ensures form { result ≡ run_at (option.now.place + 1) (pair a.now) (pair b.now) (pair c.now)
        (pair d.now) }
    ensures within { IfOk result AsksWithin }
{
    if follows(a, option) {
        run_of(workers_of(a.word.as_bytes()), b, c, d)
    } else if follows(b, option) {
        run_of(workers_of(b.word.as_bytes()), a, c, d)
    } else if follows(c, option) {
        run_of(workers_of(c.word.as_bytes()), a, b, d)
    } else if follows(d, option) {
        run_of(workers_of(d.word.as_bytes()), a, b, c)
    } else {
        Err(WordsFault::OtherWords)
    }
}

/// The form where the option's value is the word that follows it.
fn run_valued(option: &Placed<'_>, places: &[Placed<'_>]) -> Result<Form, WordsFault>
    ensures form { result ≡ run_valued (pair option.now) (map pair places.now) }
    ensures within { IfOk result AsksWithin }
{
    match places {
        [a, b, c, d] => run_after(option, a, b, c, d),
        _ => Err(WordsFault::OtherWords),
    }
}

/// The form of `run` with these options and places.
pub(crate) fn run_form(options: &[Placed<'_>], places: &[Placed<'_>]) -> Result<Form, WordsFault>
    ensures form { result ≡ run_form (map pair options.now) (map pair places.now) }
    ensures within { IfOk result AsksWithin }
{
    match options {
        [] => run_placed(Some(USUAL_WORKERS), places),
        [option] if option.word == "--workers" => run_valued(option, places),
        [option] => run_placed(workers_in(option.word), places),
        _ => Err(WordsFault::OtherWords),
    }
}

//! The words of the command line.
ghost use Rattle.std.specs.Prelude.{◌≡◌, ℕ, ◌<◌, ◌≤◌, length, map, IfOk, IfSome, string_bytes};
ghost use Rattle.plant_model.specs.Versions.{IsDemand};
ghost use Rattle.telegram.specs.Numbers.{number_of, IsFromTo};
ghost use Rattle.telegram.specs.Telegrams.{natural_of};
ghost use Rattle.dp_words.specs.Sorting.{pair};
ghost use Rattle.dp_words.specs.Words.{replay_form, asks_for, demand_of, check_form, vote_form};
ghost use Rattle.dp_words.specs.Words.{capability_form, drill_form, drill_of, seed_of, size_of};
ghost use Rattle.dp_words.specs.Words.{form_of, written_form, kind_of, plant_place, files_of};
ghost use Rattle.dp_words.specs.Words.{NamesBelow, AsksWithin};

use crate::run_form::run_form;
use crate::sorting::{Placed, sort_words};
use drill_streams::MOST_DRILL_STEPS;
use plant_model::limits::{MOST_FORCE, MOST_MOMENT};
use plant_model::wrench::Wrench;
use telegram::{Reject, number};

/// What words of a written form ask for. `plant`, `sensors`, `operators` and `telegrams` are places among the words.
#[derive(Clone, Copy, Debug, PartialEq, Eq)]
pub enum Form {
    /// `run PLANT SENSORS OPERATORS`: a session over two streams that are read at the same time, with so many workers
    /// beside them.
    Run {
        plant: usize,
        sensors: usize,
        operators: usize,
        workers: u32,
    },
    /// `replay PLANT TELEGRAMS`: a session over recorded telegrams.
    Replay {
        plant: usize,
        telegrams: usize,
    },
    /// `check PLANT X Y N`: what each loss would leave of a demand. The text is JSON for `--json`.
    Check {
        plant: usize,
        demand: Wrench,
        json: bool,
    },
    /// `vote TELEGRAMS`: one position for each round of three references. A report of them for `--report`.
    Vote {
        telegrams: usize,
        report: bool,
    },
    /// `capability PLANT X Y N`: how much of a demand, and how much wind, each loss leaves.
    Capability {
        plant: usize,
        demand: Wrench,
    },
    /// `drill SEED SIZE`: a session over streams that are drawn from a number, of so many steps.
    Drill {
        seed: u32,
        size: u32,
    },
}

/// What is wrong with words that have no written form.
#[derive(Clone, Copy, Debug, PartialEq, Eq)]
pub enum WordsFault {
    /// There is no word.
    NoWord,
    /// The first word is no command.
    UnknownCommand,
    /// The other words aren't those of the command.
    OtherWords,
}

impl WordsFault {
    /// Its number: 1 for `NoWord`, 2 for `UnknownCommand` and 3 for `OtherWords`.
    pub fn number(self) -> u32
        ensures { result ≡ kind_of self }
    {
        match self {
            WordsFault::NoWord => 1,
            WordsFault::UnknownCommand => 2,
            WordsFault::OtherWords => 3,
        }
    }
}

impl Form {
    /// The place of the word that names the plant. None where the command has no plant.
    pub fn plant(self) -> Option<usize>
        ensures place { result ≡ plant_place self }
        ensures within { (count : ℕ) → NamesBelow self count
            → IfSome result (λ place. place < count) }
    {
        match self {
            Form::Run { plant, .. }
            | Form::Replay { plant, .. }
            | Form::Check { plant, .. }
            | Form::Capability { plant, .. } => Some(plant),
            Form::Vote { .. } | Form::Drill { .. } => None,
        }
    }
}

/// The form of `replay` with these options and places.
fn replay_form(options: &[Placed<'_>], places: &[Placed<'_>]) -> Result<Form, WordsFault>
    ensures form { result ≡ replay_form (map pair options.now) (map pair places.now) }
    ensures demand { IfOk result AsksWithin }
{
    match (options, places) {
        ([], [plant, telegrams]) if !(plant.is_dash() && telegrams.is_dash()) => Ok(Form::Replay {
            plant: plant.place,
            telegrams: telegrams.place,
        }),
        _ => Err(WordsFault::OtherWords),
    }
}

/// Whether the option is there. None where another one is, or one more.
fn asks_for(name: &str, options: &[Placed<'_>]) -> Option<bool>
    ensures { result ≡ asks_for name.now (map pair options.now) }
{
    match options {
        [] => Some(false),
        [option] if option.word == name => Some(true),
        _ => None,
    }
}

/// The number that a word spells, from `low` to `high`.
fn whole(word: &str, low: i32, high: i32) -> Result<i32, Reject>
    ensures value { result ≡ number_of word.now low high }
    ensures within { IfOk result (λ z. IsFromTo low high z) }
{
    let value = number(word.as_bytes(), i64::from(low), i64::from(high))?;
    Ok(value as i32)
}

/// The demand that the words spell, within its limits.
fn demand_of(x: &str, y: &str, n: &str) -> Result<Wrench, Reject>
    ensures value { result ≡ demand_of x.now y.now n.now }
    ensures within { IfOk result IsDemand }
{
    Ok(Wrench {
        x: whole(x, -MOST_FORCE, MOST_FORCE)?,
        y: whole(y, -MOST_FORCE, MOST_FORCE)?,
        n: whole(n, -MOST_MOMENT, MOST_MOMENT)?,
    })
}

/// The form of `check` with these options and places.
fn check_form(options: &[Placed<'_>], places: &[Placed<'_>]) -> Result<Form, WordsFault>
    ensures form { result ≡ check_form (map pair options.now) (map pair places.now) }
    ensures demand { IfOk result AsksWithin }
{
    let [plant, x, y, n] = places else {
        return Err(WordsFault::OtherWords);
    };
    match (
        demand_of(x.word, y.word, n.word),
        asks_for("--json", options),
    ) {
        (Ok(demand), Some(json)) => Ok(Form::Check {
            plant: plant.place,
            demand,
            json,
        }),
        _ => Err(WordsFault::OtherWords),
    }
}

/// The form of `vote` with these options and places.
fn vote_form(options: &[Placed<'_>], places: &[Placed<'_>]) -> Result<Form, WordsFault>
    ensures form { result ≡ vote_form (map pair options.now) (map pair places.now) }
    ensures demand { IfOk result AsksWithin }
{
    match (places, asks_for("--report", options)) {
        ([telegrams], Some(report)) => Ok(Form::Vote {
            telegrams: telegrams.place,
            report,
        }),
        _ => Err(WordsFault::OtherWords),
    }
}

/// The form of `capability` with these options and places.
fn capability_form(options: &[Placed<'_>], places: &[Placed<'_>]) -> Result<Form, WordsFault>
    ensures form { result ≡ capability_form (map pair options.now) (map pair places.now) }
    ensures demand { IfOk result AsksWithin }
{
    let [plant, x, y, n] = places else {
        return Err(WordsFault::OtherWords);
    };
    match (demand_of(x.word, y.word, n.word), options) {
        (Ok(demand), []) => Ok(Form::Capability {
            plant: plant.place,
            demand,
        }),
        _ => Err(WordsFault::OtherWords),
    }
}

/// The number that a word spells, from `low` to `high`.
fn natural(word: &str, low: u32, high: u32) -> Result<u32, Reject>
    ensures value { result ≡ natural_of low high word.now }
    ensures within { IfOk result (λ n. (low ≤ n) × (n ≤ high)) }
{
    let value = number(word.as_bytes(), i64::from(low), i64::from(high))?;
    Ok(value as u32)
}

/// The form of `drill` with these places.
fn drill_of(seed: &str, size: &str) -> Result<Form, WordsFault>
    ensures form { result ≡ drill_of (seed_of seed.now) (size_of size.now) }
    ensures steps { IfOk result AsksWithin }
{
    match (
        natural(seed, 0, u32::MAX),
        natural(size, 1, MOST_DRILL_STEPS),
    ) {
        (Ok(seed), Ok(size)) => Ok(Form::Drill { seed, size }),
        _ => Err(WordsFault::OtherWords),
    }
}

/// The form of `drill` with these options and places.
fn drill_form(options: &[Placed<'_>], places: &[Placed<'_>]) -> Result<Form, WordsFault>
    ensures form { result ≡ drill_form (map pair options.now) (map pair places.now) }
    ensures steps { IfOk result AsksWithin }
{
    let [seed, size] = places else {
        return Err(WordsFault::OtherWords);
    };
    match options {
        [] => drill_of(seed.word, size.word),
        _ => Err(WordsFault::OtherWords),
    }
}

/// The form of the words, or what is wrong with them.
fn written_form(words: &[String]) -> Result<Form, WordsFault>
    ensures form { result ≡ written_form (map string_bytes words.now) }
    ensures within { IfOk result (λ form. NamesBelow form (length words.now)) }
    ensures demand { IfOk result AsksWithin }
{
    let Some((command, words)) = words.split_first() else {
        return Err(WordsFault::NoWord);
    };
    let sorted = sort_words(words);
    let (options, places) = (sorted.options.as_slice(), sorted.places.as_slice());
    match command.as_str() {
        "run" => run_form(options, places),
        "replay" => replay_form(options, places),
        "check" => check_form(options, places),
        "vote" => vote_form(options, places),
        "capability" => capability_form(options, places),
        "drill" => drill_form(options, places),
        _ => Err(WordsFault::UnknownCommand),
    }
}

/// The form of the words that stand after the program's name, or the number of what is wrong with them: 1 there is no
/// word, 2 the first is no command, 3 the others aren't those of the command.
///
/// The words after the command are read from left to right. The first `--` is dropped, and every word after it is
/// a place. Before it, a word that starts with `-` and is longer than that is an option; every other word is a
/// place, but for the value of an option. `run` has the places PLANT, SENSORS and OPERATORS, of which at most one is
/// the word `-`, and may have the option `--workers N` or `--workers=N`, at most once, with one digit from 1 to 8;
/// without it there are 2 workers. `replay` has the places PLANT and TELEGRAMS, of which at most one is the word `-`,
/// and no option. `check` has the places PLANT, X, Y and N, and may have the option `--json`, at most once. X and Y, in
/// kN, and N, in kN·dm, are numbers as telegrams spell them, within the demand's limits. `vote` has the place
/// TELEGRAMS, and may have the option `--report`, at most once. `capability` has the places of `check` and no option.
/// `drill` has the places SEED, from 0 to 4294967295, and SIZE, from 1 to [`MOST_DRILL_STEPS`], numbers as telegrams
/// spell them, and no option.
pub fn form_of(words: &[String]) -> Result<Form, u32>
    ensures form { result ≡ form_of (map string_bytes words.now) }
    ensures within { IfOk result (λ form. NamesBelow form (length words.now)) }
    ensures demand { IfOk result AsksWithin }
{
    match written_form(words) {
        Ok(form) => Ok(form),
        Err(fault) => Err(fault.number()),
    }
}

/// The places of the words that name files, in the order of the sources that `run` takes: the plant's, also where
/// it is the built-in one, and the sensors' and the operators', or the telegrams'; of `vote` the telegrams' alone.
/// None where the form has no such file, as that of `drill` has none, and where the words have no written form.
pub fn file_words(words: &[String]) -> [Option<usize>; 3]
    ensures { result ≡ files_of (form_of (map string_bytes words.now)) }
{
    match form_of(words) {
        Ok(
            Form::Run {
                plant,
                sensors,
                operators,
                ..
            },
        ) => [Some(plant), Some(sensors), Some(operators)],
        Ok(Form::Replay { plant, telegrams }) => [Some(plant), Some(telegrams), None],
        Ok(Form::Check { plant, .. } | Form::Capability { plant, .. }) => {
            [Some(plant), None, None]
        }
        Ok(Form::Vote { telegrams, .. }) => [Some(telegrams), None, None],
        Ok(Form::Drill { .. }) | Err(_) => [None, None, None],
    }
}

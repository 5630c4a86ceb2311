//! The top call of `check`.
ghost use Rattle.std.specs.Prelude.{◌≡◌, ℕ, List, IfOk, codes, length, map, string_bytes, true};
ghost use Rattle.plant_model.specs.Versions.{IsDemand};
ghost use Rattle.dp_io.specs.Shown.{reading, writing};
ghost use Rattle.dp_sessions.specs.Checks.{AsksCheck, EndsCheck, EndsFindings, IsSo, TookFindings};
ghost use Rattle.dp_sessions.specs.Checks.{TookSomeFindings, findings_text, names_check};
ghost use Rattle.dp_words.specs.Plants.{NamesNoFile};
ghost use Rattle.dp_sessions.specs.Sessions.{passed};
ghost use Rattle.dp_words.specs.Writing.{EndsWriting};

use crate::findings::{findings_of, has_lost};
use dp_io::{Sink, Source};
use dp_words::{Form, RunStatus, WordsFault, form_of, plant_from, send_lines, tell};
use log_text::{Findings, check_json, check_text};
use no_memory::NoMemory;
use plant_model::plant::Plant;
use plant_model::wrench::Wrench;
use std::alloc::Global;

/// The text of what was found, which has an outcome for each group, as JSON or not.
fn findings_text(
    alloc: Global,
    plant: &Plant,
    demand: Wrench,
    json: bool,
    findings: &Findings,
) -> Result<String, NoMemory>
    requires { length findings.now.groups.items ≡ length plant.now.groups.items }
    ensures { IfOk result (λ text. string_bytes text
        ≡ findings_text plant.now demand json findings.now) }
{
    if json {
        check_json(alloc, plant, demand, findings)
    } else {
        check_text(alloc, plant, demand, findings)
    }
}

/// Checks the demand, which is within its limits, on the plant as it opens, and writes what is found. True where some
/// outcome is a `Lost`. The text is made whole before its first line is written. The error is `WriteFault` or
/// `NoMemory`.
fn write_check<O: Sink>(
    alloc: Global,
    plant: &Plant,
    demand: Wrench,
    json: bool,
    out: &mut O,
) -> Result<bool, RunStatus>
    requires { IsDemand demand }
    ensures found { IfOk result (λ lost. TookFindings plant.now demand json
        (writing O.Sink out.old out.new) × IsSo lost plant.now demand) }
    ensures cut { result ≡ Err RunStatus.WriteFault → TookSomeFindings plant.now demand json
        (writing O.Sink out.old out.new) }
    ensures unwritten { result ≡ Err RunStatus.NoMemory → O.taken out.new ≡ O.taken out.old }
    ensures writing { EndsWriting result (writing O.Sink out.old out.new) }
{
    let findings = findings_of(plant, demand);
    let text = findings_text(alloc, plant, demand, json, &findings)?;
    send_lines(out, text.as_bytes())?;
    Ok(has_lost(&findings))
}

/// A check of the demand, which is within its limits, on the plant that the word names, without a word to the error
/// output.
pub fn check<A: Source, O: Sink>(
    alloc: Global,
    word: &str,
    demand: Wrench,
    json: bool,
    first: &mut A,
    out: &mut O,
) -> RunStatus
    requires { IsDemand demand }
    ensures findings { (words : List (List ℕ)) → AsksCheck words word.now demand json
        → EndsFindings words result (reading A.Source first.old first.new)
        (writing O.Sink out.old out.new) }
    ensures unread { word.now ≡ codes "demo" → first.new ≡ first.old }
{
    let plant = match plant_from(alloc, word, first) {
        Ok(plant) => plant,
        Err(status) => return status,
    };
    match write_check(alloc, &plant, demand, json, out) {
        Ok(true) => RunStatus::LossFound,
        Ok(false) => RunStatus::Clear,
        Err(status) => status,
    }
}

/// What the words ask for, without a word to the error output. The first word names the command.
fn check_words<A: Source, O: Sink>(
    alloc: Global,
    words: &[String],
    first: &mut A,
    out: &mut O,
) -> RunStatus
    requires { names_check (map string_bytes words.now) ≡ true }
    ensures findings { EndsFindings (map string_bytes words.now) result
        (reading A.Source first.old first.new) (writing O.Sink out.old out.new) }
    ensures unread { NamesNoFile (map string_bytes words.now) → first.new ≡ first.old }
{
    match form_of(words) {
        Ok(
            Form::Check {
                plant,
                demand,
                json,
            },
        ) => check(alloc, words[plant].as_str(), demand, json, first, out),
        _ => RunStatus::Usage(WordsFault::OtherWords.number()),
    }
}

/// Checks what the words `check PLANT X Y N [--json]` ask for: whether the demand, in kN and kN·dm, can be met as the
/// plant opens, and after the loss of each group.
///
/// The first word names the command. Where the words have that form, there is a plant and nothing fails, `out` takes
/// a verdict for each loss, each with what shows it, and the greatest part of the demand that can be given; the status
/// is `LossFound` where some verdict is a `Lost`, else `Clear`. The status says what failed else, and `err` takes its
/// line. The source is that of the plant file, which isn't read where the plant is the built-in one.
pub fn check_call<A: Source, O: Sink, E: Sink>(
    alloc: Global,
    words: &[String],
    first: &mut A,
    out: &mut O,
    err: &mut E,
) -> RunStatus
    requires { names_check (map string_bytes words.now) ≡ true }
    ensures { EndsCheck (map string_bytes words.now) result
        (passed A.Source first.old first.new) (writing O.Sink out.old out.new)
        (writing E.Sink err.old err.new) }
{
    let status = check_words(alloc, words, first, out);
    tell(&status, err);
    status
}

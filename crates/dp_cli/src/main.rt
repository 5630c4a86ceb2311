//! `dp`: a dynamic positioning controller with consequence analysis.
#![tactic(auto)]

ghost use Rattle.std.specs.Prelude.{◌≡◌, drop, map, string_bytes, IfOk};
ghost use Rattle.std.specs.Process.{exit_status};
ghost use Rattle.std.specs.Vec.Iter.{into_iter_items};
ghost use Rattle.dp_io.specs.Shown.{writing};
ghost use Rattle.dp_words.specs.Statuses.{IsTold};
ghost use Rattle.dp_program.specs.Runs.{EndsRun};
ghost use Rattle.dp_sessions.specs.Sessions.{passed};
ghost use Rattle.dp_words.specs.Statuses.{status_code};
ghost use Rattle.dp_words.specs.Words.{word_at};
ghost use Rattle.dp_words.specs.declared.status.RunStatus.{RunStatus as Status};

use dp_io::{Gate, LazyFile, NoGate, Sink, Source, StdErr, StdOut};
pub use dp_program::run;
pub use dp_sessions::{check_call, replay_call};
use dp_words::{RunStatus, WordsFault, file_words, tell};
use std::alloc::{AllocError, Global};
use std::env;
use std::io::{self, ErrorKind};
use std::process::ExitCode;
use std::sync::Wait;
use std::thread::Threads;

fn main(rt: HostRuntime) -> ExitCode {
    let mut out = StdOut::new(&rt);
    let mut err = StdErr::new(&rt);
    let args = match env::args(&rt) {
        Ok(args) => args,
        Err(error) => return exit_at(no_arguments(&error), &mut err),
    };
    let Ok(words) = words_of(rt.alloc(), args) else {
        return exit_at(RunStatus::NoMemory, &mut err);
    };
    let words = words.as_slice();
    let [first, second, third] = file_words(words);
    exit_of(
        &rt,
        rt.alloc(),
        words,
        &mut LazyFile::new(&rt, word(words, first)),
        &mut LazyFile::new(&rt, word(words, second)),
        &mut LazyFile::new(&rt, word(words, third)),
        &mut out,
        &mut err,
        &NoGate,
    )
}

/// The status of a program whose arguments can't be had. Arguments that aren't text are a faulty command line.
fn no_arguments(error: &io::Error) -> RunStatus {
    match error.kind() {
        ErrorKind::OutOfMemory => RunStatus::NoMemory,
        _ => RunStatus::Usage(WordsFault::OtherWords.number()),
    }
}

/// The words: the arguments after the first, which is the program's name.
fn words_of(alloc: Global, mut args: env::Args) -> Result<Vec<String>, AllocError>
    ensures { IfOk result (λ words. words.items ≡ drop 1 (into_iter_items args)) }
{
    let _program = args.next();
    args.collect(alloc)
}

/// The word at the place, or an empty one. The source of a place that isn't there is never read.
fn word(words: &[String], place: Option<usize>) -> &str
    ensures { result.now ≡ word_at (map string_bytes words.now) place }
{
    match place {
        Some(place) if place < words.len() => words[place].as_str(),
        _ => "",
    }
}

/// Tells the status, and gives its exit status.
fn exit_at<E: Sink>(status: RunStatus, err: &mut E) -> ExitCode
    ensures exit { exit_status result ≡ status_code status }
    ensures told { IsTold status (writing E.Sink err.old err.new) }
{
    tell(&status, err);
    let code = status.code();
    ExitCode::from(code)
}

/// Runs the program on these words, and gives the exit status of the status that it ends with.
fn exit_of<
    R: Threads + Wait + Sync,
    A: Source,
    B: Source,
    C: Source + Send,
    O: Sink,
    E: Sink,
    G: Gate + Sync,
>(
    rt: &R,
    alloc: Global,
    words: &[String],
    first: &mut A,
    second: &mut B,
    third: &mut C,
    out: &mut O,
    err: &mut E,
    gate: &G,
) -> ExitCode
    ensures { (status : Status) × (exit_status result ≡ status_code status)
        × EndsRun (map string_bytes words.now) status (record {
          first = passed A.Source first.old first.new;
          second = passed B.Source second.old second.new;
          third = passed C.Source third.old third.new;
          out = writing O.Sink out.old out.new;
          err = writing E.Sink err.old err.new;
        }) }
{
    let status = run(rt, alloc, words, first, second, third, out, err, gate);
    ExitCode::from(status.code())
}

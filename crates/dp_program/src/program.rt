//! All that the program does.
ghost use Rattle.std.specs.Prelude.{◌≡◌, false, map, string_bytes};
ghost use Rattle.dp_io.specs.Shown.{writing};
ghost use Rattle.dp_program.specs.Runs.{EndsElse, EndsRun};
ghost use Rattle.dp_sessions.specs.Sessions.{passed};
ghost use Rattle.sensor_vote.specs.Calls.{names_vote};
ghost use Rattle.capability_report.specs.Calls.{names_capability};
ghost use Rattle.drill_session.specs.Calls.{names_drill};

use crate::watch::watch;
use capability_report::{capability_call, names_capability};
use dp_io::{Gate, Sink, Source};
use dp_sessions::{check_demand, replay_telegrams};
use dp_words::{Form, RunStatus, form_of, tell};
use drill_session::{drill_call, names_drill};
use sensor_vote::{names_vote, vote_call};
use std::alloc::Global;
use std::sync::Wait;
use std::thread::Threads;

/// What the words ask for, without a word to the error output. They name neither a vote nor a capability nor a drill.
fn answer<
    R: Threads + Wait + Sync,
    A: Source,
    B: Source,
    C: Source + Send,
    O: Sink,
    G: Gate + Sync,
>(
    rt: &R,
    alloc: Global,
    words: &[String],
    first: &mut A,
    second: &mut B,
    third: &mut C,
    out: &mut O,
    gate: &G,
) -> RunStatus
    requires no_vote { names_vote (map string_bytes words.now) ≡ false }
    requires no_capability { names_capability (map string_bytes words.now) ≡ false }
    requires no_drill { names_drill (map string_bytes words.now) ≡ false }
    ensures { EndsElse (map string_bytes words.now) result (passed A.Source first.old first.new)
        (passed B.Source second.old second.new) (passed C.Source third.old third.new)
        (writing O.Sink out.old out.new) }
{
    match form_of(words) {
        Ok(Form::Run { plant, workers, .. }) => {
            let word = words[plant].as_str();
            watch(rt, alloc, word, workers, first, second, third, out, gate)
        }
        Ok(Form::Replay { plant, .. }) => {
            replay_telegrams(alloc, words[plant].as_str(), first, second, out)
        }
        Ok(
            Form::Check {
                plant,
                demand,
                json,
            },
        ) => check_demand(alloc, words[plant].as_str(), demand, json, first, out),
        Ok(Form::Vote { .. }) => unreachable!(),
        Ok(Form::Capability { .. }) => unreachable!(),
        Ok(Form::Drill { .. }) => unreachable!(),
        Err(kind) => RunStatus::Usage(kind),
    }
}

/// All that the program does. The words are those after the program's name.
///
/// The sources are those of the plant, of the sensors or the recorded telegrams, and of the operators. `run` is a session
/// over two streams: the calling thread answers the sensors, another one the operators, and workers beside them publish a
/// verdict on each loss for each version; the gate is told of what they do. `drill` is such a session over two streams in
/// memory, and reads none of the sources. The other commands, `replay`, `check`, `vote` and `capability`, start no
/// thread, don't read the third source and tell the gate nothing. The first source is that of a vote's telegrams.
pub fn run<
    R: Threads + Wait + Sync,
    A: Source,
    B: Source,
    C: Source + Send,
    O: Sink,
    E: Sink,
    G: Gate + Sync,
>(
    rt: &R,
    alloc: Global,
    words: &[String],
    first: &mut A,
    second: &mut B,
    third: &mut C,
    out: &mut O,
    err: &mut E,
    gate: &G,
) -> RunStatus
    ensures { EndsRun (map string_bytes words.now) result (record {
      first = passed A.Source first.old first.new;
      second = passed B.Source second.old second.new;
      third = passed C.Source third.old third.new;
      out = writing O.Sink out.old out.new;
      err = writing E.Sink err.old err.new;
    }) }
{
    if names_vote(words) {
        return vote_call(words, first, out, err);
    }
    if names_capability(words) {
        return capability_call(alloc, words, first, out, err);
    }
    if names_drill(words) {
        return drill_call(rt, alloc, words, out, err, gate);
    }
    let status = answer(rt, alloc, words, first, second, third, out, gate);
    tell(&status, err);
    status
}

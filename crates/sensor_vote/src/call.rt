//! The top call of `vote`.
ghost use Rattle.std.specs.Prelude.{◌≡◌, ℕ, map, string_bytes, true, Err};
ghost use Rattle.dp_io.specs.Shown.{reading, writing};
ghost use Rattle.dp_words.specs.Words.{form_of};
ghost use Rattle.sensor_vote.specs.Calls.{EndsVote, EndsVoteCall, names_vote, status_of};

use crate::stream::{Ending, vote_on};
use dp_io::{Sink, Source};
use dp_words::{Form, RunStatus, WordsFault, form_of, tell};

impl Ending {
    /// The status of a vote of which all was written.
    fn status(self) -> RunStatus
        ensures { result ≡ status_of self }
    {
        match self {
            Ending::End => RunStatus::Clear,
            Ending::Fault => RunStatus::ReadFault,
            Ending::Long => RunStatus::StreamTooLong,
        }
    }
}

/// Whether the first word names the command.
pub fn names_vote(words: &[String]) -> bool
    ensures { result ≡ names_vote (map string_bytes words.now) }
{
    match words.split_first() {
        Some((command, _)) => command.as_str() == "vote",
        None => false,
    }
}

/// What the words ask for, without a word to the error output. The first word names the command.
fn vote<A: Source, O: Sink>(words: &[String], telegrams: &mut A, out: &mut O) -> RunStatus
    requires { names_vote (map string_bytes words.now) ≡ true }
    ensures ends { EndsVote (map string_bytes words.now) result
        (reading A.Source telegrams.old telegrams.new) (writing O.Sink out.old out.new) }
    ensures unread { (kind : ℕ) → form_of (map string_bytes words.now) ≡ Err kind
        → telegrams.new ≡ telegrams.old }
{
    let Ok(Form::Vote { report, .. }) = form_of(words) else {
        return RunStatus::Usage(WordsFault::OtherWords.number());
    };
    match vote_on(report, telegrams, out) {
        Ok(ending) => ending.status(),
        Err(_) => RunStatus::WriteFault,
    }
}

/// Votes on the telegrams of the source, as the words `vote TELEGRAMS [--report]` ask for.
///
/// The first word names the command. Where the words have that form and nothing fails, `out` takes, in
/// the order of the items, the frame of a position for each round that has all its references and the
/// frame of each body that is no reference; or with `--report` a line for each reference that becomes
/// bad, is no longer bad or is refused, and at the end how many rounds had all references, how many
/// hadn't and how many items were dropped. The status says what failed else, and `err` takes its line.
/// No memory is taken.
pub fn vote_call<A: Source, O: Sink, E: Sink>(
    words: &[String],
    first: &mut A,
    out: &mut O,
    err: &mut E,
) -> RunStatus
    requires { names_vote (map string_bytes words.now) ≡ true }
    ensures { EndsVoteCall (map string_bytes words.now) result first.old first.new
        (reading A.Source first.old first.new) (writing O.Sink out.old out.new)
        (writing E.Sink err.old err.new) }
{
    let status = vote(words, first, out);
    tell(&status, err);
    status
}

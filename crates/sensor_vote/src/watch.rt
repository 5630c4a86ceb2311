//! What a vote keeps of the items of a stream, and what it writes for each.
ghost use Rattle.std.specs.Prelude.{◌≡◌, ◌+◌, ◌-◌, ◌≤◌, ◌^◌, ◌∷◌, ◌++◌, [], ℕ, List, length};
ghost use Rattle.std.specs.Prelude.{if◌then◌else◌, OnErr, OnOk};
ghost use Rattle.frame.specs.Frames.{frame_text};
ghost use Rattle.dp_io.specs.Shown.{HasRisen, NoneFailed, writing};
ghost use Rattle.frame.specs.declared.item.Item.{Item};
ghost use Rattle.sensor_vote.specs.References.{IsReference};
ghost use Rattle.sensor_vote.specs.Rounds.{voted};
ghost use Rattle.sensor_vote.specs.Steps.{CountsTo, EndsSending, HasHeard};
ghost use Rattle.sensor_vote.specs.Texts.{answer_frame, answer_lines, bad_after, change_line};
ghost use Rattle.sensor_vote.specs.Texts.{change_lines, counts_line, end_of, heard, is_round};
ghost use Rattle.sensor_vote.specs.Texts.{last_lines, moment_line, references, refused_line, written_for};

use crate::heard::{Heard, hear};
use crate::line::Line;
use crate::reference::Reference;
use crate::vote::{Vote, Voted};
use dp_io::{Failed, Sink, send_all};
use frame::{Body, Item, write_frame};
use telegram::Telegram;

/// What a vote keeps of the items so far.
#[derive(Debug, Drop)]
pub struct Watch {
    vote: Vote,
    /// Which references the last round marked as bad.
    bad: [bool; 3],
    /// The rounds that had all their references.
    rounds: u32,
    /// The rounds that ended before they had all.
    ended: u32,
    /// The items that were dropped.
    dropped: u32,
}

/// The line that says this of a reference at a moment.
fn moment_line(kind: &str, moment: u32, number: u32) -> Line
    requires { length kind.now ≤ 20 }
    ensures { result ≡ moment_line kind.now moment number }
{
    Line::of(kind).number(moment).number(number).end()
}

/// The line of a reference that isn't taken into its round.
fn refused_line(reference: &Reference, cause: &str) -> Line
    requires { length cause.now ≤ 20 }
    ensures { result ≡ refused_line reference.now cause.now }
{
    Line::of("REFUSED")
        .number(reference.moment)
        .number(reference.number)
        .field(cause)
        .end()
}

/// Hands the text over as a piece of its own.
fn send<S: Sink>(text: &[u8], out: &mut S) -> Result<(), Failed>
    ensures { EndsSending result (writing S.Sink out.old out.new) text.now }
{
    send_all(out, text)
}

/// Writes that a reference is bad now, or no longer is.
fn send_change<S: Sink>(
    moment: u32,
    number: u32,
    before: bool,
    now: bool,
    out: &mut S,
) -> Result<(), Failed>
    ensures { EndsSending result (writing S.Sink out.old out.new)
        (change_line moment number before now) }
{
    match (before, now) {
        (false, true) => send(moment_line("ALARM", moment, number).bytes(), out),
        (true, false) => send(moment_line("CLEARED", moment, number).bytes(), out),
        _ => Ok(()),
    }
}

/// Writes which references a round marks that the one before didn't, and the other way round.
fn send_changes<S: Sink>(
    moment: u32,
    before: [bool; 3],
    now: [bool; 3],
    out: &mut S,
) -> Result<(), Failed>
    ensures { EndsSending result (writing S.Sink out.old out.new)
        (change_lines moment before now) }
{
    let [was_first, was_second, was_third] = before;
    let [is_first, is_second, is_third] = now;
    send_change(moment, 1, was_first, is_first, out)?;
    send_change(moment, 2, was_second, is_second, out)?;
    send_change(moment, 3, was_third, is_third, out)
}

/// Writes the report's lines on a reference and on what is answered to it. `bad` are the references
/// that the round before marked.
fn send_lines<S: Sink>(
    bad: [bool; 3],
    reference: &Reference,
    answer: Voted,
    out: &mut S,
) -> Result<(), Failed>
    ensures { EndsSending result (writing S.Sink out.old out.new)
        (answer_lines bad reference.now answer) }
{
    match answer {
        Voted::Waiting => Ok(()),
        Voted::Twice => send(refused_line(reference, "TWICE").bytes(), out),
        Voted::Late { .. } => send(refused_line(reference, "LATE").bytes(), out),
        Voted::Round {
            moment,
            bad: now,
            ..
        } => send_changes(moment, bad, now, out),
    }
}

/// Writes the frame of the position that a round gives.
fn send_frame<S: Sink>(answer: Voted, out: &mut S) -> Result<(), Failed>
    ensures { EndsSending result (writing S.Sink out.old out.new) (answer_frame answer) }
{
    match answer {
        Voted::Round {
            moment,
            x,
            y,
            heading,
            ..
        } => {
            let position = Telegram::Position {
                moment,
                x,
                y,
                heading,
            };
            send(write_frame(&telegram::write(&position)).as_slice(), out)
        }
        Voted::Waiting | Voted::Twice | Voted::Late { .. } => Ok(()),
    }
}

/// Writes what a reference gives, as a report or not.
fn send_answer<S: Sink>(
    report: bool,
    bad: [bool; 3],
    reference: &Reference,
    answer: Voted,
    out: &mut S,
) -> Result<(), Failed>
    ensures { EndsSending result (writing S.Sink out.old out.new)
        (if report then answer_lines bad reference.now answer else answer_frame answer) }
{
    if report {
        send_lines(bad, reference, answer, out)
    } else {
        send_frame(answer, out)
    }
}

/// Writes the frame of a body that is no reference. A report has no line for it.
fn send_passed<S: Sink>(report: bool, body: &Body, out: &mut S) -> Result<(), Failed>
    ensures { EndsSending result (writing S.Sink out.old out.new)
        (if report then [] else frame_text body.now) }
{
    if report {
        Ok(())
    } else {
        send(write_frame(body).as_slice(), out)
    }
}

/// Whether a round has all its references with this answer.
fn is_round(answer: &Voted) -> bool
    ensures { result ≡ is_round answer.now }
{
    matches!(answer, Voted::Round { .. })
}

/// Which references the last round marked, with this answer.
fn bad_after(bad: [bool; 3], answer: &Voted) -> [bool; 3]
    ensures { result ≡ bad_after bad answer.now }
{
    match answer {
        Voted::Round { bad: now, .. } => *now,
        Voted::Waiting | Voted::Twice | Voted::Late { .. } => bad,
    }
}

impl Watch {
    /// Nothing was heard.
    pub fn new() -> Watch
        ensures heard { HasHeard result [] }
        ensures counts { CountsTo result 0 }
    {
        Watch {
            vote: Vote::new(),
            bad: [false; 3],
            rounds: 0,
            ended: 0,
            dropped: 0,
        }
    }

    /// Takes a reference, and answers it.
    fn take(&mut self, reference: Reference) -> Voted
        requires reference { IsReference reference }
        requires counts { CountsTo self.old (2 ^ 32 - 2) }
        ensures answer { (items : List Item) → HasHeard self.old items
            → result ≡ voted (references items) reference }
        ensures heard { (items : List Item) (item : Item) → heard item ≡ Heard.Taken reference
            → HasHeard self.old items → HasHeard self.new (items ++ item ∷ []) }
        ensures counts { (most : ℕ) → CountsTo self.old most → CountsTo self.new (most + 1) }
    {
        self.ended += u32::from(self.vote.ends_unfinished(reference.moment));
        let answer = self.vote.take(reference);
        self.rounds += u32::from(is_round(&answer));
        self.bad = bad_after(self.bad, &answer);
        answer
    }

    /// Keeps an item, and writes what it gives: frames, or lines of the report.
    pub fn tell<S: Sink>(&mut self, report: bool, item: Item, out: &mut S) -> Result<(), Failed>
        requires { CountsTo self.old (2 ^ 32 - 2) }
        ensures heard { (items : List Item) → HasHeard self.old items
            → HasHeard self.new (items ++ item ∷ []) }
        ensures counts { (most : ℕ) → CountsTo self.old most → CountsTo self.new (most + 1) }
        ensures sent { (items : List Item) → HasHeard self.old items
            → EndsSending result (writing S.Sink out.old out.new)
            (written_for report (references items) (heard item)) }
        ensures none_failed { OnOk result (NoneFailed (writing S.Sink out.old out.new)) }
        ensures failed { OnErr result (HasRisen (writing S.Sink out.old out.new)) }
    {
        match hear(item) {
            Heard::Dropped => {
                self.dropped += 1;
                Ok(())
            }
            Heard::Passed(body) => send_passed(report, &body, out),
            Heard::Taken(reference) => {
                let bad = self.bad;
                let answer = self.take(reference);
                send_answer(report, bad, &reference, answer, out)
            }
        }
    }

    /// The line of a report that counts: the rounds, those that aren't finished, and what was dropped.
    fn counts_line(&self) -> Line
        requires { CountsTo self.now (2 ^ 32 - 2) }
        ensures { (items : List Item) → HasHeard self.now items → result ≡ counts_line items }
    {
        Line::of("VOTE")
            .number(self.rounds)
            .number(self.ended + u32::from(self.vote.unfinished()))
            .number(self.dropped)
            .end()
    }

    /// Writes the last lines of a report.
    fn tell_counts<S: Sink>(&self, out: &mut S) -> Result<(), Failed>
        requires { CountsTo self.now (2 ^ 32 - 2) }
        ensures { (items : List Item) → HasHeard self.now items
            → EndsSending result (writing S.Sink out.old out.new) (last_lines items) }
    {
        send(self.counts_line().bytes(), out)?;
        send(b"END\n", out)
    }

    /// Writes what stands after all items: the last lines of a report.
    pub fn tell_end<S: Sink>(&self, report: bool, out: &mut S) -> Result<(), Failed>
        requires { CountsTo self.now (2 ^ 32 - 2) }
        ensures { (items : List Item) → HasHeard self.now items
            → EndsSending result (writing S.Sink out.old out.new) (end_of report items) }
    {
        if report {
            self.tell_counts(out)
        } else {
            Ok(())
        }
    }
}

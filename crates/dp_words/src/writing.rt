//! Texts that are handed to a sink line by line.
ghost use Rattle.std.specs.Prelude.{◌≡◌, ◌≤◌, OnErr, OnOk};
ghost use Rattle.dp_io.specs.Streams.{Rose};
ghost use Rattle.dp_words.specs.Writing.{TookFront};
ghost use Rattle.dp_io.specs.Shown.{Took, writing};

use dp_io::{Failed, Sink, send_all};

/// Hands over each line of the text as a piece of its own.
pub fn send_lines<S: Sink>(sink: &mut S, text: &[u8]) -> Result<(), Failed>
    ensures whole { OnOk result (Took (writing S.Sink sink.old sink.new) text.now) }
    ensures part { OnErr result (TookFront (writing S.Sink sink.old sink.new) text.now) }
    ensures failed { OnErr result (Rose (S.faults sink.old) (S.faults sink.new)) }
    ensures same { OnOk result (S.faults sink.new ≡ S.faults sink.old) }
    ensures counted { S.faults sink.old ≤ S.faults sink.new }
{
    let mut rest = text;
    while let Some(end) = rest.iter().position(|byte| *byte == b'\n') {
        let (line, after) = rest.split_at(end + 1);
        send_all(sink, line)?;
        rest = after;
    }
    send_all(sink, rest)
}

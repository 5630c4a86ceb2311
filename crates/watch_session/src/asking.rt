//! What is asked for an item of a stream, and how the book is asked.
ghost use Rattle.std.specs.Prelude.{◌≡◌, ℕ, List, [], IfOk, OnErr, MatchOption};
ghost use Rattle.plant_book.specs.Books.{IsOf};
ghost use Rattle.plant_book.specs.Calls.{Passes, Serves};
ghost use Rattle.plant_core.specs.Machine.{IsCall};
ghost use Rattle.plant_core.specs.declared.call.Call.TheVariants as calls;
ghost use Rattle.plant_core.specs.declared.call.Reply.{Reply as ReplyView};
ghost use Rattle.plant_model.specs.declared.plant.Parts.{Parts};
ghost use Rattle.telegram.specs.Telegrams.{IsTelegram};
ghost use Rattle.log_text.specs.Commands.{call_frames};
ghost use Rattle.watch_session.specs.Asked.{call_for, call_on, caller_on};

use crate::stream::Stream;
use dp_io::Gate;
use frame::Item;
use no_memory::NoMemory;
use plant_book::{Book, BookPass, Served};
use plant_core::{Allocate, Call, Note};
use std::sync::Wait;
use telegram::Telegram;

/// A telegram of this stream is asked, and one of the other is noted.
fn call_on(stream: Stream, telegram: Telegram) -> Call
    requires { IsTelegram telegram }
    ensures asked { result ≡ call_on (caller_on stream) telegram }
    ensures within { (plant : Parts) → IsCall plant result }
{
    if Stream::of(&telegram) == stream {
        Call::Telegram(telegram)
    } else {
        Call::Note(Note::Stray)
    }
}

/// What is asked for an item of the stream.
pub(crate) fn call_for(stream: Stream, item: Item) -> Call
    ensures asked { result ≡ call_for (caller_on stream) item }
    ensures within { (plant : Parts) → IsCall plant result }
{
    match item {
        Item::Body(body) => match telegram::read(&body) {
            Ok(telegram) => call_on(stream, telegram),
            Err(reject) => Call::Note(Note::Rejected(reject)),
        },
        Item::Damaged(damage) => Call::Note(Note::Damaged(damage)),
    }
}

/// The call again, where its reply may have frames.
pub(crate) fn command_of(call: &Call) -> Option<Call>
    ensures { MatchOption result
        ((plant : Parts) (reply : ReplyView) → call_frames plant call.now reply ≡ [])
        (λ again. again ≡ call.now) }
{
    match call {
        Call::Telegram(
            Telegram::Position {
                moment,
                x,
                y,
                heading,
            },
        ) => Some(Call::Telegram(Telegram::Position {
            moment: *moment,
            x: *x,
            y: *y,
            heading: *heading,
        })),
        _ => None,
    }
}

/// Asks the book for what a telegram says.
fn ask_telegram<R: Wait, A: Allocate, G: Gate>(
    rt: &R,
    book: &Book<A, G>,
    pass: &mut BookPass,
    telegram: Telegram,
) -> Result<Served, NoMemory>
    requires of { IsOf book.now pass.old }
    requires telegram { IsTelegram telegram }
    ensures served { IfOk result (Serves pass.old pass.new (calls.Telegram telegram)) }
    ensures kept { OnErr result (Passes pass.old pass.new) }
    ensures of { IsOf book.now pass.new }
{
    match telegram {
        Telegram::Position { .. } => book.tick(rt, pass, telegram),
        Telegram::Wind { .. } => book.wind(rt, pass, telegram),
        Telegram::Board => book.board(rt, pass),
        telegram => book.operator_call(rt, pass, telegram),
    }
}

/// Asks the book for a call.
pub(crate) fn ask<R: Wait, A: Allocate, G: Gate>(
    rt: &R,
    book: &Book<A, G>,
    pass: &mut BookPass,
    call: Call,
) -> Result<Served, NoMemory>
    requires of { IsOf book.now pass.old }
    requires call { IsCall book.now.base.plant call }
    ensures served { IfOk result (Serves pass.old pass.new call) }
    ensures kept { OnErr result (Passes pass.old pass.new) }
    ensures of { IsOf book.now pass.new }
{
    match call {
        Call::Telegram(telegram) => ask_telegram(rt, book, pass, telegram),
        Call::Note(note) => book.note(rt, pass, note),
        Call::Publish {
            version,
            group,
            outcome,
        } => book.publish(rt, pass, version, group, outcome),
        Call::Close => book.end(rt, pass),
    }
}

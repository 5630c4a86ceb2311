//! What is counted of a history.
ghost use Rattle.std.specs.Prelude.{◌≡◌};
ghost use Rattle.drill_summary.specs.Summaries.{count_entries, count_replies, is_commanded, is_late};
ghost use Rattle.drill_summary.specs.Summaries.{is_same, is_version, last_demand};

use plant_core::{Entry, Reply};
use plant_model::wrench::Wrench;

fn is_commanded(reply: &Reply) -> bool
    ensures { result ≡ is_commanded reply.now }
{
    matches!(reply, Reply::Commanded { .. })
}

fn is_late(reply: &Reply) -> bool
    ensures { result ≡ is_late reply.now }
{
    matches!(reply, Reply::Late { .. })
}

fn is_version(reply: &Reply) -> bool
    ensures { result ≡ is_version reply.now }
{
    matches!(reply, Reply::Version(_))
}

fn is_same(reply: &Reply) -> bool
    ensures { result ≡ is_same reply.now }
{
    matches!(reply, Reply::Same)
}

/// How many entries are by a caller.
pub(crate) fn entries(history: &[Entry], caller: u32) -> usize
    ensures { result ≡ count_entries caller history.now }
{
    history
        .iter()
        .filter(|entry| entry.caller == caller)
        .count()
}

/// How many entries of a caller are commands.
pub(crate) fn commanded(history: &[Entry], caller: u32) -> usize
    ensures { result ≡ count_replies caller is_commanded history.now }
{
    history
        .iter()
        .filter(|entry| entry.caller == caller && is_commanded(&entry.reply))
        .count()
}

/// How many entries of a caller came late.
pub(crate) fn late(history: &[Entry], caller: u32) -> usize
    ensures { result ≡ count_replies caller is_late history.now }
{
    history
        .iter()
        .filter(|entry| entry.caller == caller && is_late(&entry.reply))
        .count()
}

/// How many entries of a caller made a version.
pub(crate) fn versions(history: &[Entry], caller: u32) -> usize
    ensures { result ≡ count_replies caller is_version history.now }
{
    history
        .iter()
        .filter(|entry| entry.caller == caller && is_version(&entry.reply))
        .count()
}

/// How many entries of a caller asked for what stood already.
pub(crate) fn same(history: &[Entry], caller: u32) -> usize
    ensures { result ≡ count_replies caller is_same history.now }
{
    history
        .iter()
        .filter(|entry| entry.caller == caller && is_same(&entry.reply))
        .count()
}

/// What the last command asks of the thrusters, and nothing where there is none.
pub(crate) fn last_demand(history: &[Entry]) -> Wrench
    ensures { result ≡ last_demand history.now }
{
    let mut last = Wrench::default();
    for entry in history {
        if let Reply::Commanded { demand, .. } = &entry.reply {
            last = *demand;
        }
    }
    last
}

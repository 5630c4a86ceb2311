//! The demo plant, shared, and an order to its bus tie.
ghost use Rattle.std.specs.Prelude.{◌≡◌, ◌≤◌, IfOk};
ghost use Rattle.plant_model.specs.Demo.{demo_parts};
ghost use Rattle.plant_model.specs.declared.limits.TheConstants.{MOST_ENTRIES};
ghost use Rattle.plant_book.specs.Books.{IsStarted};
ghost use Rattle.plant_book.specs.Telegrams.{IsOrder};
ghost use Rattle.telegram.specs.Telegrams.{IsTelegram};

use allocator::Direct;
use dp_io::Gate;
use no_memory::NoMemory;
use plant_book::{Book, BookPass};
use plant_model::demo::demo;
use plant_model::name::Name;
use std::alloc::Global;
use std::sync::Wait;
use telegram::Telegram;

pub fn started<R: Wait, G: Gate + Drop>(
    rt: &R,
    alloc: Global,
    limit: u32,
    gate: G,
) -> Result<(Book<Direct, G>, BookPass), NoMemory>
    requires { limit ≤ MOST_ENTRIES }
    ensures { IfOk result (λ r. IsStarted demo_parts limit r.0 r.1) }
{
    Book::start(rt, alloc, demo(), limit, Direct, gate)
}

pub fn tie(closed: bool) -> Telegram
    ensures telegram { IsTelegram result }
    ensures order { IsOrder result }
{
    Telegram::Tie {
        name: Name::of(b"T1").unwrap(),
        closed,
    }
}

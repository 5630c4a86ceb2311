//! What drills come to, against a model in another language, on a machine of one thread.
ghost use Rattle.std.specs.Prelude.{◌≤◌, IfSome};
ghost use Rattle.telegram.specs.Telegrams.{IsTelegram};

use allocator::Direct;
use drill_streams::drill_streams;
use drill_summary::drill_text;
use frame::{Body, Framer, Item};
use plant_core::{Call, Core};
use plant_model::demo::demo;
use plant_model::limits::MOST_ENTRIES;
use std::alloc::Global;
use std::test::Fail;
use telegram::Telegram;

/// In which order the two streams are answered.
#[derive(Clone, Copy)]
enum Order {
    SensorsFirst,
    OperatorsFirst,
}

/// The telegram of a body.
fn telegram_of(body: &Body) -> Option<Telegram>
    ensures { IfSome result IsTelegram }
{
    match telegram::read(body) {
        Ok(telegram) => Some(telegram),
        Err(_) => None,
    }
}

/// Answers the telegram of an item.
fn answer(core: &mut Core, caller: u32, item: &Item) -> Result<(), Fail> {
    let Item::Body(body) = item else {
        return Err(Fail::from("a damage"));
    };
    let Some(telegram) = telegram_of(body) else {
        return Err(Fail::from("no telegram"));
    };
    core.apply(caller, Call::Telegram(telegram), &Direct)?;
    Ok(())
}

/// Answers the telegrams of a stream, in their order.
fn answer_all(core: &mut Core, caller: u32, bytes: &[u8]) -> Result<(), Fail> {
    let mut framer = Framer::new();
    for byte in bytes {
        if let Some(item) = framer.feed(*byte) {
            answer(core, caller, &item)?;
        }
    }
    Ok(())
}

/// What a drill comes to where its streams are answered in this order.
fn summary(alloc: Global, seed: u32, size: u32, order: Order) -> Result<String, Fail>
    requires { size ≤ 25000 }
{
    let streams = drill_streams(alloc, seed, size)?;
    let mut core = Core::start(alloc, demo(), MOST_ENTRIES)?;
    match order {
        Order::SensorsFirst => {
            answer_all(&mut core, 1, streams.sensors.as_slice())?;
            answer_all(&mut core, 2, streams.operators.as_slice())?;
        }
        Order::OperatorsFirst => {
            answer_all(&mut core, 2, streams.operators.as_slice())?;
            answer_all(&mut core, 1, streams.sensors.as_slice())?;
        }
    }
    core.apply(0, Call::Close, &Direct)?;
    Ok(drill_text(alloc, seed, size, &core)?)
}

#[test]
fn one_step_is_a_wind(rt: HostRuntime) -> Result<(), Fail> {
    let text = summary(rt.alloc(), 0, 1, Order::SensorsFirst)?;
    assert_eq!(rt;
        text.as_str(),
        "DRILL,0,1\nSENSORS,1,0,0\nOPERATORS,0,0,0\nSTATUS,1111,11,0\nDEMAND,0,0,0\nEND\n"
    );
    Ok(())
}

#[test]
fn two_steps_ask_of_the_thrusters(rt: HostRuntime) -> Result<(), Fail> {
    let text = summary(rt.alloc(), 0, 2, Order::SensorsFirst)?;
    assert_eq!(rt;
        text.as_str(),
        "DRILL,0,2\nSENSORS,2,1,0\nOPERATORS,0,0,0\nSTATUS,1111,11,0\nDEMAND,-22,-25,0\nEND\n"
    );
    Ok(())
}

#[test]
fn either_order_comes_to_the_same(rt: HostRuntime) -> Result<(), Fail> {
    for order in [Order::SensorsFirst, Order::OperatorsFirst] {
        let text = summary(rt.alloc(), 7, 300, order)?;
        assert_eq!(rt;
            text.as_str(),
            "DRILL,7,300\nSENSORS,300,257,6\nOPERATORS,3,1,2\nSTATUS,0111,11,0\nDEMAND,-66,-115,0\nEND\n"
        );
    }
    Ok(())
}

#[test]
fn late_positions_and_both_kinds_of_switches_are_counted(rt: HostRuntime) -> Result<(), Fail> {
    let text = summary(rt.alloc(), 1, 1000, Order::OperatorsFirst)?;
    assert_eq!(rt;
        text.as_str(),
        "DRILL,1,1000\nSENSORS,1000,886,19\nOPERATORS,10,5,5\nSTATUS,0011,11,1\nDEMAND,22,-71,0\nEND\n"
    );
    Ok(())
}

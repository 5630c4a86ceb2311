//! Both streams, as the bytes of frames.
ghost use Rattle.std.specs.Prelude.{◌≡◌, ◌+◌, ◌<◌, ◌≤◌, ◌∷◌, ◌++◌, [], IfOk, OnOk};
ghost use Rattle.frame.specs.Frames.{frame_text};
ghost use Rattle.telegram.specs.Telegrams.{telegram_text};
ghost use Rattle.drill_streams.specs.Steps.{number_after_orders, number_after_sensor, orders_at};
ghost use Rattle.drill_streams.specs.Steps.{sensor_at};
ghost use Rattle.drill_streams.specs.Streams.{drill_operators, drill_sensors, frames_of};

use crate::draws::Draws;
use crate::steps::{order, sensor};
use frame::write_frame;
use no_memory::NoMemory;
use std::alloc::{AllocError, Global};
use telegram::{Telegram, write};

/// The steps of a drill: 1 to this many.
pub const MOST_DRILL_STEPS: u32 = 25_000;

/// Each step of this many has a telegram of the operators.
const STEPS_OF_AN_ORDER: u32 = 100;

/// The bytes of the two streams of a drill.
#[derive(Debug, Drop)]
pub struct DrillStreams {
    pub sensors: Vec<u8>,
    pub operators: Vec<u8>,
}

/// Appends the frame of a telegram.
fn push_frame(bytes: &mut Vec<u8>, telegram: &Telegram) -> Result<(), AllocError>
    ensures { OnOk result
        (bytes.new.items ≡ bytes.old.items ++ frame_text (telegram_text telegram.now)) }
{
    bytes.extend_from_slice(write_frame(&write(telegram)).as_slice())
}

/// Appends the frame of the sensors' telegram of a step.
fn push_sensor(step: u32, draws: &mut Draws, bytes: &mut Vec<u8>) -> Result<(), AllocError>
    requires some { 0 < step }
    requires few { step ≤ MOST_DRILL_STEPS }
    ensures number { draws.new.number ≡ number_after_sensor draws.old.number }
    ensures bytes { OnOk result (bytes.new.items
        ≡ bytes.old.items ++ frame_text (telegram_text (sensor_at step draws.old.number))) }
{
    let telegram = sensor(step, draws);
    push_frame(bytes, &telegram)
}

/// Appends the frame of the operators' telegram of a step, where it has one.
fn push_orders(step: u32, draws: &mut Draws, bytes: &mut Vec<u8>) -> Result<(), AllocError>
    ensures number { draws.new.number ≡ number_after_orders step draws.old.number }
    ensures bytes { OnOk result (bytes.new.items
        ≡ bytes.old.items ++ frames_of (orders_at step draws.old.number)) }
{
    if step % STEPS_OF_AN_ORDER != 0 {
        return Ok(());
    }
    let telegram = order(draws);
    push_frame(bytes, &telegram)
}

/// The streams of a drill of so many steps, at most [`MOST_DRILL_STEPS`], for the demo plant. They are the same
/// wherever the program runs. Each step draws the sensors' telegram, and each hundredth one of the operators.
pub fn drill_streams(alloc: Global, seed: u32, size: u32) -> Result<DrillStreams, NoMemory>
    requires { size ≤ MOST_DRILL_STEPS }
    ensures sensors { IfOk result
        (λ streams. streams.sensors.items ≡ frames_of (drill_sensors seed size)) }
    ensures operators { IfOk result
        (λ streams. streams.operators.items ≡ frames_of (drill_operators seed size)) }
{
    let mut draws = Draws::of(seed);
    let mut sensors = Vec::new(alloc);
    let mut operators = Vec::new(alloc);
    for done in 0..size {
        push_sensor(done + 1, &mut draws, &mut sensors)?;
        push_orders(done + 1, &mut draws, &mut operators)?;
    }
    Ok(DrillStreams { sensors, operators })
}

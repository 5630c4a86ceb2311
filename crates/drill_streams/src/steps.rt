//! The telegrams of a step.
ghost use Rattle.std.specs.Prelude.{◌≡◌, ◌<◌, ◌≤◌, IsTrue};
ghost use Rattle.plant_model.specs.Names.{is_name};
ghost use Rattle.drill_streams.specs.Draws.{drawn, next_number};
ghost use Rattle.drill_streams.specs.Steps.{moment_of, number_after_sensor, offset_of, sensor_at};
ghost use Rattle.drill_streams.specs.Steps.{switch_at, switch_of};
ghost use Rattle.drill_streams.specs.declared.streams.TheConstants.{MOST_DRILL_STEPS};

use crate::draws::Draws;
use plant_model::limits::WHOLE_TURN;
use plant_model::name::Name;
use telegram::Telegram;

/// The moment of a step in ms: a second after that of the step before it or, in one of 50, the same, which is late.
fn moment(step: u32, draws: &mut Draws) -> u32
    requires some { 0 < step }
    requires few { step ≤ MOST_DRILL_STEPS }
    ensures value { result ≡ moment_of step draws.new.number }
    ensures number { draws.new.number ≡ next_number draws.old.number }
{
    if draws.below(50) == 0 {
        1_000 * (step - 1)
    } else {
        1_000 * step
    }
}

/// How far from the origin along an axis, in cm: up to 50, either way.
fn offset(draws: &mut Draws) -> i32
    ensures value { result ≡ offset_of draws.new.number }
    ensures number { draws.new.number ≡ next_number draws.old.number }
{
    draws.below(101) as i32 - 50
}

/// A position near the origin.
fn position(moment: u32, draws: &mut Draws) -> Telegram
    ensures value { result ≡ Telegram.Position moment (offset_of (next_number draws.old.number))
        (offset_of (next_number (next_number draws.old.number))) 0 }
    ensures number { draws.new.number ≡ next_number (next_number draws.old.number) }
{
    let x = offset(draws);
    let y = offset(draws);
    Telegram::Position {
        moment,
        x,
        y,
        heading: 0,
    }
}

/// A wind of up to 29.9 m/s.
fn wind(moment: u32, draws: &mut Draws) -> Telegram
    ensures value { result ≡ Telegram.Wind moment (drawn 300 (next_number draws.old.number))
        (drawn 36000 (next_number (next_number draws.old.number))) }
    ensures number { draws.new.number ≡ next_number (next_number draws.old.number) }
{
    let speed = draws.below(300);
    let angle = draws.below(WHOLE_TURN);
    Telegram::Wind {
        moment,
        speed,
        angle,
    }
}

/// The sensors' telegram of a step: a position or, in one of ten, a wind.
pub(crate) fn sensor(step: u32, draws: &mut Draws) -> Telegram
    requires some { 0 < step }
    requires few { step ≤ MOST_DRILL_STEPS }
    ensures value { result ≡ sensor_at step draws.old.number }
    ensures number { draws.new.number ≡ number_after_sensor draws.old.number }
{
    let is_wind = draws.below(10) == 0;
    let moment = moment(step, draws);
    if is_wind {
        wind(moment, draws)
    } else {
        position(moment, draws)
    }
}

fn name(text: &[u8]) -> Name
    requires { IsTrue (is_name text.now) }
    ensures { result ≡ text.now }
{
    Name::of(text).unwrap()
}

fn thruster(text: &[u8], selected: bool) -> Telegram
    requires { IsTrue (is_name text.now) }
    ensures { result ≡ Telegram.Thruster text.now selected }
{
    Telegram::Thruster {
        name: name(text),
        selected,
    }
}

fn generator(text: &[u8], running: bool) -> Telegram
    requires { IsTrue (is_name text.now) }
    ensures { result ≡ Telegram.Generator text.now running }
{
    Telegram::Generator {
        name: name(text),
        running,
    }
}

/// The switch of one of the seven parts of the demo plant that operators switch.
fn switch(part: u32, on: bool) -> Telegram
    requires { part < 7 }
    ensures { result ≡ switch_of part on }
{
    match part {
        0 => thruster(b"BOW1", on),
        1 => thruster(b"BOW2", on),
        2 => thruster(b"PORT", on),
        3 => thruster(b"STBD", on),
        4 => generator(b"G1", on),
        5 => generator(b"G2", on),
        _ => Telegram::Tie {
            name: name(b"T1"),
            closed: on,
        },
    }
}

/// An operators' telegram: a part of the demo plant and whether it is to be in use, both drawn.
pub(crate) fn order(draws: &mut Draws) -> Telegram
    ensures value { result ≡ switch_at draws.old.number }
    ensures number { draws.new.number ≡ next_number (next_number draws.old.number) }
{
    let part = draws.below(7);
    let on = draws.below(2) == 1;
    switch(part, on)
}

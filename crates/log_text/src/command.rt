//! The frames of commands.
ghost use Rattle.std.specs.Prelude.{◌≡◌, ◌++◌, IfOk, IsTrue, OnOk, codes, string_bytes};
ghost use Rattle.std.specs.List.{flat_map, zip};
ghost use Rattle.frame.specs.Bodies.{is_body};
ghost use Rattle.frame.specs.Frames.{frame_text};
ghost use Rattle.log_text.specs.Commands.{IsPart, command_body, command_head, command_text};
ghost use Rattle.log_text.specs.Commands.{frames_of, part_text, thrust_body};
ghost use Rattle.log_text.specs.Outcomes.{thrust_text, wrench_text};

use crate::outcome::push_wrench;
use dp_num::Fraction;
use frame::{Body, write_frame};
use no_memory::NoMemory;
use plant_core::{Allocation, Call, Entry, Reply};
use plant_model::parts::Thruster;
use plant_model::plant::Plant;
use plant_model::thrust::Thrust;
use plant_model::wrench::Wrench;
use std::alloc::{AllocError, Global};
use telegram::Telegram;

fn command_head(alloc: Global, moment: u32, version: u32) -> Result<String, AllocError>
    ensures { IfOk result (λ text. string_bytes text ≡ command_head moment version) }
{
    Ok(format!(in alloc; "CMD,{moment},{version}")?)
}

/// Appends a demand after a comma.
fn push_demand(text: &mut String, demand: &Wrench) -> Result<(), AllocError>
    ensures { OnOk result (string_bytes text.new
        ≡ string_bytes text.old ++ (codes "," ++ wrench_text demand.now)) }
{
    text.push_str(",")?;
    push_wrench(text, demand)
}

/// A demand is told in a few bytes, whatever it is.
fn demand_is_short(demand: &Wrench)
    ensures { IsPart 35 (wrench_text demand.now) }
{
    let Wrench {
        x: _x,
        y: _y,
        n: _n,
    } = *demand;
}

/// Appends a part of a demand after a comma.
fn push_part(text: &mut String, part: &Fraction) -> Result<(), AllocError>
    ensures value { OnOk result (string_bytes text.new
        ≡ string_bytes text.old ++ (codes "," ++ part_text part.now)) }
    ensures short { IsPart 41 (part_text part.now) }
{
    let Fraction { top, bottom } = *part;
    write!(text, ",{top},{bottom}")
}

/// The body of a command: the position's moment, the version, what is asked of the thrusters, and which part of it they
/// give.
fn command_body(
    alloc: Global,
    moment: u32,
    version: u32,
    demand: &Wrench,
    part: &Fraction,
) -> Result<String, AllocError>
    ensures value { IfOk result
        (λ text. string_bytes text ≡ command_body moment version demand.now part.now) }
    ensures body { IfOk result (λ text. IsTrue (is_body (string_bytes text))) }
{
    let mut text = command_head(alloc, moment, version)?;
    push_demand(&mut text, demand)?;
    demand_is_short(demand);
    push_part(&mut text, part)?;
    Ok(text)
}

/// Appends a thrust along x and along y, each after a comma.
fn push_thrust(text: &mut String, thrust: &Thrust) -> Result<(), AllocError>
    ensures value { OnOk result (string_bytes text.new
        ≡ string_bytes text.old ++ thrust_text thrust.now) }
    ensures short { IsPart 82 (thrust_text thrust.now) }
{
    let Thrust { x, y } = *thrust;
    write!(text, ",{x},{y}")
}

/// The body of a thruster: its name, and its thrust over `q`.
fn thrust_body(
    alloc: Global,
    thruster: &Thruster,
    thrust: &Thrust,
    q: i64,
) -> Result<String, AllocError>
    ensures value { IfOk result
        (λ text. string_bytes text ≡ thrust_body q (thruster.now, thrust.now)) }
    ensures body { IfOk result (λ text. IsTrue (is_body (string_bytes text))) }
{
    let name = thruster.name.as_str();
    let mut text = format!(in alloc; "THC,{name}")?;
    push_thrust(&mut text, thrust)?;
    write!(text, ",{q}")?;
    Ok(text)
}

/// Appends the frame of a body.
fn push_frame(text: &mut String, body: &str) -> Result<(), AllocError>
    requires { IsTrue (is_body body.now) }
    ensures { OnOk result (string_bytes text.new ≡ string_bytes text.old ++ frame_text body.now) }
{
    let body = Body::of(body.as_bytes()).unwrap();
    let frame = write_frame(&body);
    text.push_str(str::from_utf8(frame.as_slice()).unwrap())
}

fn push_command_frame(
    text: &mut String,
    alloc: Global,
    moment: u32,
    version: u32,
    demand: &Wrench,
    part: &Fraction,
) -> Result<(), AllocError>
    ensures { OnOk result (string_bytes text.new ≡ string_bytes text.old
        ++ frame_text (command_body moment version demand.now part.now)) }
{
    let body = command_body(alloc, moment, version, demand, part)?;
    push_frame(text, body.as_str())
}

fn push_thrust_frame(
    text: &mut String,
    alloc: Global,
    thruster: &Thruster,
    thrust: &Thrust,
    q: i64,
) -> Result<(), AllocError>
    ensures { OnOk result (string_bytes text.new ≡ string_bytes text.old
        ++ frame_text (thrust_body q (thruster.now, thrust.now))) }
{
    let body = thrust_body(alloc, thruster, thrust, q)?;
    push_frame(text, body.as_str())
}

/// Appends a frame for each thruster.
fn push_thrust_frames(
    text: &mut String,
    alloc: Global,
    thrusters: &[Thruster],
    thrusts: &[Thrust],
    q: i64,
) -> Result<(), AllocError>
    ensures { OnOk result (string_bytes text.new ≡ string_bytes text.old
        ++ flat_map (λ given. frame_text (thrust_body q given)) (zip thrusters.now thrusts.now)) }
{
    for (thruster, thrust) in thrusters.iter().zip(thrusts) {
        push_thrust_frame(text, alloc, thruster, thrust, q)?;
    }
    Ok(())
}

/// The frames of a command at a moment: one for the command, and one for each thruster in order.
fn frames_of(
    alloc: Global,
    plant: &Plant,
    moment: u32,
    version: u32,
    demand: &Wrench,
    allocation: &Allocation,
) -> Result<String, AllocError>
    ensures { IfOk result (λ text. string_bytes text
        ≡ frames_of plant.now moment version demand.now allocation.now) }
{
    let mut text = String::new(alloc);
    push_command_frame(
        &mut text,
        alloc,
        moment,
        version,
        demand,
        &allocation.fraction,
    )?;
    let thrusters = plant.thrusters().as_slice();
    let thrusts = allocation.thrusts.list.as_slice();
    push_thrust_frames(&mut text, alloc, thrusters, thrusts, allocation.q)?;
    Ok(text)
}

/// The frames of a position that is answered with a command: one with the moment, the version, the demand in kN and
/// kN·dm and the part of it that is given, and one for each thruster with its name and its thrust in kN. Any other
/// entry has none.
pub fn command_text(alloc: Global, plant: &Plant, entry: &Entry) -> Result<String, NoMemory>
    ensures { IfOk result (λ text. string_bytes text ≡ command_text plant.now entry.now) }
{
    match (&entry.call, &entry.reply) {
        (
            Call::Telegram(Telegram::Position { moment, .. }),
            Reply::Commanded {
                version,
                demand,
                allocation,
            },
        ) => Ok(frames_of(alloc, plant, *moment, *version, demand, allocation)?),
        _ => Ok(String::new(alloc)),
    }
}

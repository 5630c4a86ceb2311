//! Outcomes, demands and allocations by their fields.
ghost use Rattle.std.specs.Prelude.{◌≡◌, ℕ};
ghost use Rattle.telegram.specs.Telegrams.{fields_left};
ghost use Rattle.certificate.specs.declared.outcome.Place.{Place};
ghost use Rattle.log_reading.specs.Fields.{ended, taken};
ghost use Rattle.log_reading.specs.Outcomes.{allocation_of, cut_at, cuts_of, fraction_at, fraction_of};
ghost use Rattle.log_reading.specs.Outcomes.{holds_of, lost_of, numbered_place, outcome_of, place_of};
ghost use Rattle.log_reading.specs.Outcomes.{thrust_at, thrusts_of, wrench_at};

use crate::fields::{i32_at, i64_at, i128_at, next_field, only_u32, u32_at};
use arrayvec::ArrayVec;
use certificate::{Cuts, Outcome, Place};
use dp_num::Fraction;
use plant_core::Allocation;
use plant_model::thrust::{Thrust, Thrusts};
use plant_model::wrench::Wrench;
use wrench_geometry::Vec3;

fn thrust_at(rest: Option<&str>) -> Option<(Thrust, Option<&str>)>
    ensures { taken result ≡ thrust_at (fields_left rest.entry) }
{
    let (x, rest) = i128_at(rest)?;
    let (y, rest) = i128_at(rest)?;
    Some((Thrust { x, y }, rest))
}

/// Thrusts to the last field.
fn thrusts(fields: Option<&str>) -> Option<Thrusts>
    ensures { result ≡ thrusts_of (fields_left fields.entry) }
{
    let mut list = ArrayVec::new();
    let mut rest = fields;
    while rest.is_some() {
        if list.is_full() {
            return None;
        }
        let (thrust, others) = thrust_at(rest)?;
        list.push(thrust);
        rest = others;
    }
    Some(Thrusts { list })
}

fn cut_at(rest: Option<&str>) -> Option<(Vec3, Option<&str>)>
    ensures { taken result ≡ cut_at (fields_left rest.entry) }
{
    let (x, rest) = i64_at(rest)?;
    let (y, rest) = i64_at(rest)?;
    let (z, rest) = i64_at(rest)?;
    Some((Vec3 { x, y, z }, rest))
}

/// Cuts to the last field.
fn cuts(fields: Option<&str>) -> Option<Cuts>
    ensures { result ≡ cuts_of (fields_left fields.entry) }
{
    let mut list = ArrayVec::new();
    let mut rest = fields;
    while rest.is_some() {
        if list.is_full() {
            return None;
        }
        let (cut, others) = cut_at(rest)?;
        list.push(cut);
        rest = others;
    }
    Some(Cuts { list })
}

fn holds(rest: Option<&str>) -> Option<Outcome>
    ensures { result ≡ holds_of (fields_left rest.entry) }
{
    let (choice, rest) = u32_at(rest)?;
    let (q, rest) = i64_at(rest)?;
    let thrusts = thrusts(rest)?;
    Some(Outcome::Holds { choice, q, thrusts })
}

fn lost(rest: Option<&str>) -> Option<Outcome>
    ensures { result ≡ lost_of (fields_left rest.entry) }
{
    let (count, rest) = u32_at(rest)?;
    let cuts = cuts(rest)?;
    if cuts.list.len() == count as usize {
        Some(Outcome::Lost { cuts })
    } else {
        None
    }
}

pub(crate) fn outcome(rest: Option<&str>) -> Option<Outcome>
    ensures { result ≡ outcome_of (fields_left rest.entry) }
{
    let (kind, rest) = next_field(rest)?;
    if kind == "HOLDS" {
        holds(rest)
    } else if kind == "LOST" {
        lost(rest)
    } else {
        None
    }
}

fn plain(rest: Option<&str>, place: Place) -> Option<Place>
    ensures { result ≡ ended place (fields_left rest.entry) }
{
    match rest {
        None => Some(place),
        Some(_) => None,
    }
}

/// Where an outcome first fails.
pub(crate) fn place(rest: Option<&str>) -> Option<Place>
    ensures { result ≡ place_of (fields_left rest.entry) }
{
    let (kind, rest) = next_field(rest)?;
    if kind == "DENOMINATOR" {
        plain(rest, Place::Denominator)
    } else if kind == "CHOICE" {
        plain(rest, Place::Choice)
    } else if kind == "THRUST-COUNT" {
        plain(rest, Place::ThrustCount)
    } else if kind == "THRUSTER" {
        Some(Place::Thruster(only_u32(rest)?))
    } else if kind == "SUM" {
        plain(rest, Place::Sum)
    } else if kind == "CUT-COUNT" {
        plain(rest, Place::CutCount)
    } else if kind == "CUT" {
        Some(Place::Cut(only_u32(rest)?))
    } else {
        None
    }
}

pub(crate) fn wrench_at(rest: Option<&str>) -> Option<(Wrench, Option<&str>)>
    ensures { taken result ≡ wrench_at (fields_left rest.entry) }
{
    let (x, rest) = i32_at(rest)?;
    let (y, rest) = i32_at(rest)?;
    let (n, rest) = i32_at(rest)?;
    Some((Wrench { x, y, n }, rest))
}

/// The fraction of a top of at least 0 and a bottom of at least 1. None where one of them is less.
fn fraction_of(top: i64, bottom: i64) -> Option<Fraction>
    ensures { result ≡ fraction_of top bottom }
{
    if top < 0 || bottom < 1 {
        return None;
    }
    Some(Fraction { top, bottom })
}

fn fraction_at(rest: Option<&str>) -> Option<(Fraction, Option<&str>)>
    ensures { taken result ≡ fraction_at (fields_left rest.entry) }
{
    let (top, rest) = i64_at(rest)?;
    let (bottom, rest) = i64_at(rest)?;
    let fraction = fraction_of(top, bottom)?;
    Some((fraction, rest))
}

pub(crate) fn allocation(rest: Option<&str>) -> Option<Allocation>
    ensures { result ≡ allocation_of (fields_left rest.entry) }
{
    let (fraction, rest) = fraction_at(rest)?;
    let (choice, rest) = u32_at(rest)?;
    let (q, rest) = i64_at(rest)?;
    let thrusts = thrusts(rest)?;
    Some(Allocation {
        fraction,
        choice,
        q,
        thrusts,
    })
}

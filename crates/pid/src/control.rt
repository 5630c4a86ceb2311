//! The controller.
ghost use Rattle.std.specs.Prelude.{◌≡◌, ◌^◌, ◌*◌, ◌<◌, pos, List, [], ◌∷◌, ◌++◌};
ghost use Rattle.pid.specs.Control.{AreWithin, IsAfter, IsNext, fresh, after_fix, sums_over};
ghost use Rattle.pid.specs.Control.{rates_over, demand_from, demand_of};

use crate::axis::{PerAxis, Sample, asked, output, rate, sum_after};
use crate::position::{FixErrors, turned};
use plant_model::controller::Gains;
use plant_model::limits::{MOST_FORCE, MOST_MOMENT};
use plant_model::wrench::{Load, Wrench};
use std::marker::Model;

/// The three axes' sums of errors and the previous fix, with the gains of surge, sway and yaw.
#[derive(Clone, Copy, Debug, PartialEq, Eq)]
pub struct Controller {
    gains: [Gains; 3],
    sums: PerAxis,
    previous: Option<Sample>,
}

impl Model for Controller {
    ghost use Rattle.std.specs.Prelude.{◌^◌, pos};
    ghost use Rattle.pid.specs.Control.{ControlState, AreWithin};

    ghost Value = { ControlState };

    ghost view = { λ c. record { gains = c.gains; sums = c.sums; previous = c.previous } };

    ghost invariant = { λ c. AreWithin (pos (2 ^ 64)) c.sums };

    ghost inverse = { λ s. record { gains = s.gains; sums = s.sums; previous = s.previous } };
}

impl Controller {
    /// A controller with the gains of surge, sway and yaw, with nothing summed and no previous fix.
    pub fn new(gains: [Gains; 3]) -> Self
        ensures { result ≡ fresh gains }
    {
        Controller {
            gains,
            sums: PerAxis::default(),
            previous: None,
        }
    }

    /// Clears the sums and forgets the previous fix.
    pub fn reset(&mut self)
        ensures { self.new ≡ fresh self.old.gains }
    {
        self.sums = PerAxis::default();
        self.previous = None;
    }

    /// Takes a fix of this moment, in ms, and answers the demand. The moment is after the previous
    /// fix's, where there is one.
    ///
    /// Each axis' output is `kp·e/1000 + ki·sum/1000000 + kd·rate/1000`, each quotient rounded down,
    /// where the sum grows by `e·dt` up to its limit, and the rate is `de·1000/dt`. The demand is the
    /// output less the wind's part, within the demand's limits. Without a previous fix the sums stay,
    /// and the rates are 0.
    pub fn step(&mut self, moment: u32, errors: FixErrors, wind: Load) -> Wrench
        requires { IsNext self.old moment }
        ensures demand { result ≡ demand_of self.old moment errors wind }
        ensures after { self.new ≡ after_fix self.old moment errors }
        ensures folds { (fixes : List Sample) → IsAfter self.old fixes
            → IsAfter self.new (fixes ++ record { moment = moment; errors = errors } ∷ []) }
    {
        let rates = match self.previous {
            None => PerAxis::default(),
            Some(previous) => {
                let elapsed = moment - previous.moment;
                self.sums = sums_over(self.gains, self.sums, errors, elapsed);
                rates_over(previous.errors, errors, elapsed)
            }
        };
        self.previous = Some(Sample { moment, errors });
        demand_from(self.gains, errors, self.sums, rates, wind)
    }
}

fn sums_over(gains: [Gains; 3], sums: PerAxis, errors: FixErrors, elapsed: u32) -> PerAxis
    requires { AreWithin (pos (2 ^ 64)) sums }
    ensures value { result ≡ sums_over gains sums errors elapsed }
    ensures within { AreWithin (pos (2 ^ 64)) result }
{
    let [surge, sway, yaw] = gains;
    PerAxis {
        surge: sum_after(surge, sums.surge, errors.surge, elapsed),
        sway: sum_after(sway, sums.sway, errors.sway, elapsed),
        yaw: sum_after(yaw, sums.yaw, errors.yaw, elapsed),
    }
}

fn rates_over(before: FixErrors, errors: FixErrors, elapsed: u32) -> PerAxis
    requires { 0 < elapsed }
    ensures value { result ≡ rates_over before errors elapsed }
    ensures within { AreWithin (pos (1000 * 2 ^ 64)) result }
{
    let surge = errors.surge as i128 - before.surge as i128;
    let sway = errors.sway as i128 - before.sway as i128;
    let yaw = turned(errors.yaw as i128 - before.yaw as i128);
    PerAxis {
        surge: rate(surge, elapsed),
        sway: rate(sway, elapsed),
        yaw: rate(yaw, elapsed),
    }
}

fn demand_from(
    gains: [Gains; 3],
    errors: FixErrors,
    sums: PerAxis,
    rates: PerAxis,
    wind: Load,
) -> Wrench
    requires sums { AreWithin (pos (2 ^ 64)) sums }
    requires rates { AreWithin (pos (1000 * 2 ^ 64)) rates }
    ensures { result ≡ demand_from gains errors sums rates wind }
{
    let [surge, sway, yaw] = gains;
    Wrench {
        x: asked(
            output(surge, errors.surge, sums.surge, rates.surge),
            wind.x,
            MOST_FORCE,
        ),
        y: asked(
            output(sway, errors.sway, sums.sway, rates.sway),
            wind.y,
            MOST_FORCE,
        ),
        n: asked(
            output(yaw, errors.yaw, sums.yaw, rates.yaw),
            wind.n,
            MOST_MOMENT,
        ),
    }
}

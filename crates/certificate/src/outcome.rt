//! What a consequence analysis answers, and the places at which an answer can fail.

use arrayvec::ArrayVec;
use plant_model::limits::MOST_CHOICES;
use plant_model::thrust::Thrusts;
use wrench_geometry::Vec3;

/// A direction for each choice, in the order of choices.
#[derive(Debug, PartialEq, Eq, Drop)]
pub struct Cuts {
    pub list: ArrayVec<Vec3, MOST_CHOICES>,
}

/// Whether what is left of a plant meets a demand, with what shows it.
#[derive(Debug, PartialEq, Eq, Drop)]
pub enum Outcome {
    /// It does: in the choice, the thrusts over `q` meet the demand exactly.
    Holds {
        choice: u32,
        q: i64,
        thrusts: Thrusts,
    },
    /// It doesn't: in each choice, no sum of thrusts reaches as far along its cut as the demand.
    Lost {
        cuts: Cuts,
    },
}

/// No cut, of no choice.
impl Default for Outcome {
    ghost use Rattle.std.specs.Prelude.{◌≡◌, []};
    ghost use Rattle.certificate.specs.declared.outcome.Outcome.TheVariants.{Lost};

    ghost is_default = { λ outcome. outcome ≡ Lost (record { list = record { items = [] } }) };

    fn default() -> Self {
        Outcome::Lost {
            cuts: Cuts {
                list: ArrayVec::new(),
            },
        }
    }
}

/// What an outcome is judged by, in the order of judging: first what a `Holds` says, then what a
/// `Lost` says.
#[derive(Clone, Copy, Debug, PartialEq, Eq)]
pub enum Place {
    /// The denominator is at least 1.
    Denominator,
    /// The choice is there.
    Choice,
    /// There is a thrust for each thruster.
    ThrustCount,
    /// This thruster's thrust, less its fixed thrust, lies in its piece of the choice.
    Thruster(u32),
    /// The thrusts with their levers sum to the demand.
    Sum,
    /// There is a cut for each choice.
    CutCount,
    /// This choice's cut separates it from the demand.
    Cut(u32),
}

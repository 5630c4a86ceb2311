//! Where the ray of a demand leaves the sums of lists, shown by a least cut and by weights of the
//! lists' images. Nothing here overflows, and nothing takes memory.
#![tactic(auto)]

ghost use Rattle.std.specs.Prelude.{◌≢◌};
ghost use Rattle.wrench_geometry.specs.Vectors.{zero_vector};
ghost use Rattle.wrench_geometry.specs.Wrenches.{IsDemandVector};
ghost use Rattle.exit_point.specs.Exits.{IsExit};

mod candidates;
mod corners;
mod face_cuts;
mod orders;
pub mod portal;
mod search;
mod tents;
mod weights;

pub use tents::{Tent, tent_about};
pub use weights::{ExitWeights, MOST_WEIGHT, MOST_WEIGHTS};
use wrench_geometry::{Sums, Vec3};

/// Weights that show where the ray of the demand leaves the sums of the lists, with a least cut.
/// The demand is within its limits, in kN and kN·dm, and not zero. The portal is tried first, and
/// where it gives up a least cut and a least cut of its face are searched among all candidates.
pub fn exit(sums: &Sums, d: Vec3) -> ExitWeights
    requires demand { IsDemandVector d }
    requires not_zero { d ≢ zero_vector }
    ensures exit { IsExit sums.now d result }
{
    match portal::exit(sums, d) {
        Some(exit) => exit,
        None => candidates::exit(sums, d),
    }
}

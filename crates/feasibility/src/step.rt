//! What the exit weights of a choice say of a demand.
ghost use Rattle.std.specs.Prelude.{◌≡◌, pos, ◌≤ℤ◌, ◌<ℤ◌, List, length, map};
ghost use Rattle.thrust_region.specs.Pieces.{points_of};
ghost use Rattle.wrench_geometry.specs.Vectors.{dot_of, support_of};
ghost use Rattle.wrench_geometry.specs.declared.vector.Vec3.{Vec3};
ghost use Rattle.exit_point.specs.Exits.{IsExit};
ghost use Rattle.certificate.specs.Outcomes.{IsValid, Question};
ghost use Rattle.feasibility.specs.First.{IsHeldBy};
ghost use Rattle.feasibility.specs.Lowest.{IsLowest, IsPrimitive};
ghost use Rattle.feasibility.specs.Means.{HaveRoom};
ghost use Rattle.feasibility.specs.Reached.{IsReached};

use crate::lowest::{Shared, direction, lowest};
use crate::mean::means;
use certificate::Outcome;
use exit_point::ExitWeights;
use plant_model::thrust::Point;
use thrust_region::Chosen;
use wrench_geometry::Vec3;

/// The Holds of a choice, for which the weights show that the ray of the demand leaves the sums no
/// sooner than at the demand: its thrusts over `t`, in lowest terms. There is a list of weights and
/// a fixed thrust for each piece, and a weight for each point. `t` is at least 1, and as great as
/// `q` where the outcome is to be valid.
pub fn held(number: u32, chosen: &Chosen, fixed: &[Point], exit: &ExitWeights) -> Outcome
    requires rows { HaveRoom exit.now.weights.items (map points_of chosen.now.pieces.items) }
    requires fixed_each { length fixed.now ≡ length chosen.now.pieces.items }
    requires from_1 { pos 1 ≤ℤ exit.now.t }
    ensures choice { IsHeldBy number result }
    ensures valid { (question : Question) (ahead : Vec3) →
        IsReached question ahead number (map points_of chosen.now.pieces.items) fixed.now exit.now →
        IsValid question result }
    ensures lowest { IsLowest result }
{
    let shared = Shared {
        q: exit.t,
        thrusts: means(chosen, fixed, exit),
    };
    let Shared { q, thrusts } = lowest(&shared);
    Outcome::Holds {
        choice: number,
        q,
        thrusts,
    }
}

/// The direction of the cut in lowest terms. It separates a choice from the demand where the ray of
/// the demand leaves the choice's sums before it, at `t` below `q`. The cut's product with the
/// demand is at least 1.
pub fn cut_off(exit: &ExitWeights) -> Vec3
    requires { pos 1 ≤ℤ exit.now.cut.bottom }
    ensures separates { (lists : List (List Vec3)) (d : Vec3) → IsExit lists d exit.now →
        exit.now.t <ℤ exit.now.q → support_of lists result <ℤ dot_of result d }
    ensures primitive { (d : Vec3) → exit.now.cut.bottom ≡ dot_of exit.now.cut.w d →
        IsPrimitive result }
{
    direction(&exit.cut)
}

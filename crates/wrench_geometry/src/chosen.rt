//! The sums of a choice of pieces.
ghost use Rattle.std.specs.Prelude.{◌≡◌, length, map};
ghost use Rattle.thrust_region.specs.Pieces.{points_of};
ghost use Rattle.wrench_geometry.specs.Chosen.{images_of, levers_of};

use crate::sums::{Images, Sums};
use plant_model::plant::Plant;
use thrust_region::Chosen;

/// The images of the chosen pieces, each at the lever of its thruster. There are as many pieces as
/// thrusters.
pub fn sums_of(plant: &Plant, chosen: &Chosen) -> Sums
    requires { length chosen.now.pieces.items ≡ length plant.now.thrusters.items }
    ensures { result ≡ images_of (levers_of plant.now) (map points_of chosen.now.pieces.items) }
{
    let thrusters = plant.parts().thrusters.as_slice();
    let pieces = chosen.pieces.as_slice();
    let mut sums = Sums::new();
    for (i, thruster) in thrusters.iter().enumerate() {
        let images = Images::at(thruster.lever, pieces[i].points.as_slice());
        sums.push(images);
    }
    sums
}

//! What frozen thrusters do to the vessel.
ghost use Rattle.std.specs.Prelude.{◌≡◌, length};
ghost use Rattle.wrench_geometry.specs.Wrenches.{IsPointWithin};
ghost use Rattle.redundancy_groups.specs.Loads.{IsLoadWithin, levers_of, load_at, load_of, sum_of};

use plant_model::limits::{FARTHEST_LEVER, MOST_THRUSTERS};
use plant_model::plant::Plant;
use plant_model::thrust::Point;
use plant_model::wrench::Load;
use thrust_region::Regions;

/// What the components of the load of one thrust are within, whatever the thrust: the moment has
/// two parts, each of the farthest lever and a number of 32 bits.
pub const MOST_LOAD: i64 = 1 << 43;

/// What the components of the load of all fixed thrusts are within, whatever these are.
pub const MOST_FIXED_LOAD: i64 = MOST_THRUSTERS as i64 * MOST_LOAD;

/// What the components of a load may be within where one is added.
const MOST_TOTAL: i64 = 1 << 61;

/// The sum of `(fx, fy, x·fy - y·fx)` over the fixed thrusts `(fx, fy)` of the regions and the
/// levers `(x, y)` of their thrusters, in kN and kN·dm. There are as many lists of pieces, and as
/// many fixed thrusts, as thrusters.
pub fn fixed_load(plant: &Plant, regions: &Regions) -> Load
    requires lists { length regions.now.list.items ≡ length plant.now.thrusters.items }
    requires fixed { length regions.now.fixed.items ≡ length plant.now.thrusters.items }
    ensures value { result ≡ load_of (levers_of plant.now) regions.now.fixed.items }
    ensures within { IsLoadWithin MOST_FIXED_LOAD result }
{
    let thrusters = plant.parts().thrusters.as_slice();
    let fixed = regions.fixed.as_slice();
    let mut total = Load::default();
    for (place, thruster) in thrusters.iter().enumerate() {
        total = sum(total, load_at(thruster.lever, fixed[place]));
    }
    total
}

fn load_at(lever: Point, thrust: Point) -> Load
    requires { IsPointWithin FARTHEST_LEVER lever }
    ensures value { result ≡ load_at (lever, thrust) }
    ensures within { IsLoadWithin MOST_LOAD result }
{
    let (along, across) = (i64::from(thrust.x), i64::from(thrust.y));
    Load {
        x: along,
        y: across,
        n: i64::from(lever.x) * across - i64::from(lever.y) * along,
    }
}

/// `a + b`, of which both are within `MOST_TOTAL`.
fn sum(a: Load, b: Load) -> Load
    requires a { IsLoadWithin MOST_TOTAL a }
    requires b { IsLoadWithin MOST_LOAD b }
    ensures { result ≡ sum_of a b }
{
    Load {
        x: a.x + b.x,
        y: a.y + b.y,
        n: a.n + b.n,
    }
}

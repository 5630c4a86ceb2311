//! A demand as a vector, and how much of it is left beside fixed thrusts.
ghost use Rattle.std.specs.Prelude.{◌≡◌, length};
ghost use Rattle.plant_model.specs.Versions.{IsDemand};
ghost use Rattle.wrench_geometry.specs.Vectors.{IsVectorWithin};
ghost use Rattle.wrench_geometry.specs.Wrenches.{IsDemandVector};
ghost use Rattle.wrench_geometry.specs.declared.vector.TheConstants.{MOST_PLAIN};
ghost use Rattle.certificate.specs.Losses.{demand_of};
ghost use Rattle.certificate.specs.Outcomes.{IsAhead, question_of};

use plant_model::plant::Plant;
use plant_model::wrench::Wrench;
use redundancy_groups::fixed_load;
use thrust_region::Regions;
use wrench_geometry::{Vec3, difference};

/// The demand, which is within its limits, as a vector in kN and kN·dm.
pub fn vector_of(demand: Wrench) -> Vec3
    requires { IsDemand demand }
    ensures value { result ≡ demand_of demand }
    ensures within { IsDemandVector result }
{
    Vec3 {
        x: demand.x as i64,
        y: demand.y as i64,
        z: demand.n as i64,
    }
}

/// The demand less what the fixed thrusts give. There are a region and a fixed thrust for each
/// thruster.
pub fn ahead(plant: &Plant, regions: &Regions, demand: Vec3) -> Vec3
    requires region_each { length regions.now.list.items ≡ length plant.now.thrusters.items }
    requires fixed_each { length regions.now.fixed.items ≡ length plant.now.thrusters.items }
    requires demand { IsDemandVector demand }
    ensures ahead { IsAhead (question_of plant.now regions.now demand) result }
    ensures within { IsVectorWithin MOST_PLAIN MOST_PLAIN result }
{
    let load = fixed_load(plant, regions);
    let fixed = Vec3 {
        x: load.x,
        y: load.y,
        z: load.n,
    };
    difference(demand, fixed)
}

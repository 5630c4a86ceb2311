//! The power on an island, and what it allows.
ghost use Rattle.std.specs.Prelude.{◌≡◌, ◌*◌, ◌≤◌, IsTrue};
ghost use Rattle.plant_model.specs.Plants.{is_plant};
ghost use Rattle.bus_topology.specs.Islands.{IsIslandMap, IsLive, has_number};
ghost use Rattle.bus_topology.specs.Shares.{IsShare, power_on, quarter_of, rated_on};

use crate::map::IslandMap;
use plant_model::limits::{MOST_GENERATORS, MOST_POWER, MOST_THRUSTERS, QUARTERS, THRESHOLDS};
use plant_model::plant::{Parts, Plant};
use plant_model::status::Standing;

/// The share of the full power that there is on a live section's island, in percent:
/// `floor(100·P/R)`, where P is what the running generators on the island give, and R what the
/// selected thrusters on it take at full thrust. It is 0 where R is 0. `islands` are those of this
/// plant as it stands.
pub fn share(plant: &Plant, standing: &Standing, islands: &IslandMap, section: u32) -> u32
    requires live { IsLive plant.now standing.now section }
    requires islands { IsIslandMap plant.now standing.now islands.now.of }
    ensures { IsShare plant.now standing.now section result }
{
    let parts = plant.parts();
    let island = islands.number(section);
    let rated = rated(parts, standing, islands, island);
    if rated == 0 {
        return 0;
    }
    100 * power(parts, standing, islands, island) / rated
}

/// What the running generators on the island give, in kW.
fn power(parts: &Parts, standing: &Standing, islands: &IslandMap, island: u32) -> u32
    requires { IsTrue (is_plant parts.now) }
    ensures value { result ≡ power_on parts.now standing.now (has_number islands.now.of island) }
    ensures most { result ≤ MOST_GENERATORS * MOST_POWER }
{
    let mut power = 0;
    for (place, generator) in parts.generators.iter().enumerate() {
        if standing.running[place] && islands.number(generator.section) == island {
            power += generator.power;
        }
    }
    power
}

/// What the selected thrusters on the island take at full thrust, in kW.
fn rated(parts: &Parts, standing: &Standing, islands: &IslandMap, island: u32) -> u32
    requires { IsTrue (is_plant parts.now) }
    ensures value { result ≡ rated_on parts.now standing.now (has_number islands.now.of island) }
    ensures most { result ≤ MOST_THRUSTERS * MOST_POWER }
{
    let mut rated = 0;
    for (place, thruster) in parts.thrusters.iter().enumerate() {
        if standing.selected[place] && islands.number(thruster.section) == island {
            rated += thruster.rated;
        }
    }
    rated
}

/// How many quarters of its thrust a thruster with these thresholds may give at this share: as many
/// as there are thresholds of at most the share.
pub fn quarter(share: u32, thresholds: &[u32; THRESHOLDS]) -> u32
    ensures quarter { result ≡ quarter_of share thresholds.now }
    ensures most { result ≤ QUARTERS }
{
    thresholds
        .iter()
        .filter(|threshold| **threshold <= share)
        .count() as u32
}

//! The islands of a switchboard.
ghost use Rattle.std.specs.Prelude.{◌≡◌, ◌+◌, ◌<◌, ◌↔◌, map, length, slice_index_or, IsTrue};
ghost use Rattle.bus_topology.specs.Islands.{IsIslandMap, IsLive, IsMapSoFar, exchanged};

use plant_model::limits::MOST_SECTIONS;
use plant_model::plant::Plant;
use plant_model::status::Standing;

/// The number of no island.
pub(crate) const NO_ISLAND: u32 = MOST_SECTIONS as u32;

/// The island of each section, by the section's place. An island has the number of its least
/// section. Places of sections that are lost or not there have the number `MOST_SECTIONS`.
#[derive(Clone, Copy, Debug, PartialEq, Eq)]
pub struct IslandMap {
    pub of: [u32; MOST_SECTIONS],
}

/// The islands of a plant as it stands. A lost tie is open in the standing.
pub fn islands(plant: &Plant, standing: &Standing) -> IslandMap
    ensures { IsIslandMap plant.now standing.now result.of }
{
    let mut islands = apart(plant, standing);
    for place in 0..plant.ties().len() {
        islands.take_tie(plant, standing, place);
    }
    islands
}

/// Whether the section is there and isn't lost.
fn is_live(plant: &Plant, standing: &Standing, section: u32) -> bool
    ensures { IsTrue result ↔ IsLive plant.now standing.now section }
{
    let place = section as usize;
    place < plant.sections().len() && standing.live[place]
}

/// Each live section as an island of its own.
fn apart(plant: &Plant, standing: &Standing) -> IslandMap
    ensures { IsMapSoFar plant.now standing.now 0 result.of }
{
    let mut of = [NO_ISLAND; MOST_SECTIONS];
    for section in 0..plant.sections().len() {
        if standing.live[section] {
            of[section] = section as u32;
        }
    }
    IslandMap { of }
}

impl IslandMap {
    /// The number of the section's island, or of none.
    pub(crate) fn number(&self, section: u32) -> u32
        ensures { result ≡ slice_index_or self.now.of section NO_ISLAND }
    {
        self.of.get(section as usize).copied().unwrap_or(NO_ISLAND)
    }

    /// Merges the islands of the two sections of the tie at this place, if it joins them.
    fn take_tie(&mut self, plant: &Plant, standing: &Standing, place: usize)
        requires place { place < length plant.now.ties.items }
        requires so_far { IsMapSoFar plant.now standing.now place self.old.of }
        ensures { IsMapSoFar plant.now standing.now (place + 1) self.new.of }
    {
        let tie = &plant.ties()[place];
        if standing.closed[place]
            && is_live(plant, standing, tie.first)
            && is_live(plant, standing, tie.second)
        {
            let first = self.of[tie.first as usize];
            let second = self.of[tie.second as usize];
            self.renumber(first.max(second), first.min(second));
        }
    }

    /// Exchanges the one number for the other.
    fn renumber(&mut self, old: u32, new: u32)
        ensures { self.new.of ≡ map (exchanged old new) self.old.of }
    {
        for island in self.of.iter_mut() {
            if *island == old {
                *island = new;
            }
        }
    }
}

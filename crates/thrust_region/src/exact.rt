//! What the pieces of a ring have to do with its sectors.
ghost use Rattle.thrust_region.specs.Exact.{AvoidSectors, CoverTheRest};

/// The law of pieces, for every ring and its sectors: no thrust that lies in a piece is strictly inside a sector, and
/// each thrust that lies in the ring and is strictly inside no sector lies in a piece. Calling it does nothing.
pub fn pieces_are_exact()
    ensures avoid { AvoidSectors }
    ensures cover { CoverTheRest }
{}

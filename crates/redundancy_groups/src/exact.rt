//! What the test of connected sections has to do with chains of ties.
ghost use Rattle.std.specs.Prelude.{◌≡◌, ℕ, ◌↔◌};
ghost use Rattle.bus_topology.specs.Shares.{IsShare, TestsConnection};
ghost use Rattle.plant_model.specs.declared.plant.Parts.{Parts};
ghost use Rattle.plant_model.specs.declared.status.Standing.{Standing};
ghost use Rattle.redundancy_groups.specs.Connections.{leads_to};
ghost use Rattle.redundancy_groups.specs.Surviving.{share_at};

/// The law of shares, for all parts and however they stand: ties lead from one section to another
/// exactly where the two are connected, and a share of the full power on a section is the one that
/// regions go by. Calling it does nothing.
pub fn shares_are_exact()
    ensures ways { (p : Parts) (s : Standing) (section : ℕ) →
        TestsConnection p s section (leads_to p s section) }
    ensures shares { (p : Parts) (s : Standing) (section share : ℕ) →
        IsShare p s section share ↔ (share ≡ share_at p s section) }
{}

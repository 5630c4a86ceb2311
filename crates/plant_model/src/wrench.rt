//! Forces with their moments.
ghost use Rattle.std.specs.Prelude.{◌≡◌};
ghost use Rattle.plant_model.specs.Versions.{are_separate, differ_by_more};

use crate::limits::AXES;

/// A force and a moment that are asked of the thrusters: `x` and `y` in kN, `n` in kN·dm.
#[derive(Clone, Copy, Debug, Default, PartialEq, Eq)]
pub struct Wrench {
    pub x: i32,
    pub y: i32,
    pub n: i32,
}

/// A force and a moment that act on the vessel: `x` and `y` in kN, `n` in kN·dm.
#[derive(Clone, Copy, Debug, Default, PartialEq, Eq)]
pub struct Load {
    pub x: i64,
    pub y: i64,
    pub n: i64,
}

/// Whether some component of the two differs by more than its band. The band is in kN, kN and kN·dm.
pub fn separate(wrench: Wrench, other: Wrench, band: [u32; AXES]) -> bool
    ensures { result ≡ are_separate wrench other band }
{
    let [along, across, turning] = band;
    if differ_by_more(wrench.x, other.x, along) || differ_by_more(wrench.y, other.y, across) {
        return true;
    }
    differ_by_more(wrench.n, other.n, turning)
}

fn differ_by_more(a: i32, b: i32, band: u32) -> bool
    ensures { result ≡ differ_by_more a b band }
{
    a.abs_diff(b) > band
}

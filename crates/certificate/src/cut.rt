//! Whether a direction shows that a demand can't be met.
ghost use Rattle.std.specs.Prelude.{◌<ℤ◌, ◌↔◌, IsTrue};
ghost use Rattle.wrench_geometry.specs.Vectors.{IsVectorWithin, dot_of, support_of};
ghost use Rattle.wrench_geometry.specs.declared.vector.TheConstants.{MOST_PLAIN};

use wrench_geometry::{Sums, Vec3, dot, support};

/// Whether `d` is farther along `w` than each sum of the lists. The components of `d` are within
/// [`wrench_geometry::MOST_PLAIN`], as those of each demand are.
pub fn check_cut(sums: &Sums, w: Vec3, d: Vec3) -> bool
    requires { IsVectorWithin MOST_PLAIN MOST_PLAIN d }
    ensures { IsTrue result ↔ (support_of sums.now w <ℤ dot_of w d) }
{
    support(sums, w) < dot(w, d)
}

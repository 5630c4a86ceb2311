//! Vectors in space.
ghost use Rattle.std.specs.Prelude.{◌≡◌, ◌⊎◌};
ghost use Rattle.wrench_geometry.specs.Vectors.{IsVectorWithin, cross_of, difference_of, dot_of};
ghost use Rattle.wrench_geometry.specs.Vectors.{opposite_of, sum_of};

/// How far from 0 the components of one vector of a dot product may be, and those of both vectors
/// of a difference.
pub const MOST_PLAIN: i64 = 1 << 61;

/// How far from 0 the components of the vectors of a cross product may be.
pub const MOST_FACTOR: i64 = (1 << 31) - 1;

/// A force with its moment, or a direction in which forces and moments are measured. Of a force,
/// `x` and `y` are in kN and `z` is in kN·dm.
#[derive(Clone, Copy, Debug, Default, PartialEq, Eq)]
pub struct Vec3 {
    pub x: i64,
    pub y: i64,
    pub z: i64,
}

/// The dot product. The components of one of the two vectors are within `MOST_PLAIN`.
pub fn dot(a: Vec3, b: Vec3) -> i128
    requires { (IsVectorWithin MOST_PLAIN MOST_PLAIN a) ⊎ (IsVectorWithin MOST_PLAIN MOST_PLAIN b) }
    ensures { result ≡ dot_of a b }
{
    a.x as i128 * b.x as i128 + a.y as i128 * b.y as i128 + a.z as i128 * b.z as i128
}

/// The cross product. The components of both vectors are within `MOST_FACTOR`.
pub fn cross(a: Vec3, b: Vec3) -> Vec3
    requires a { IsVectorWithin MOST_FACTOR MOST_FACTOR a }
    requires b { IsVectorWithin MOST_FACTOR MOST_FACTOR b }
    ensures { result ≡ cross_of a b }
{
    Vec3 {
        x: a.y * b.z - a.z * b.y,
        y: a.z * b.x - a.x * b.z,
        z: a.x * b.y - a.y * b.x,
    }
}

/// `-a`. The components are within `MOST_PLAIN`.
pub fn opposite(a: Vec3) -> Vec3
    requires { IsVectorWithin MOST_PLAIN MOST_PLAIN a }
    ensures { result ≡ opposite_of a }
{
    Vec3 {
        x: -a.x,
        y: -a.y,
        z: -a.z,
    }
}

/// `a - b`. The components of both vectors are within `MOST_PLAIN`.
pub fn difference(a: Vec3, b: Vec3) -> Vec3
    requires a { IsVectorWithin MOST_PLAIN MOST_PLAIN a }
    requires b { IsVectorWithin MOST_PLAIN MOST_PLAIN b }
    ensures { result ≡ difference_of a b }
{
    Vec3 {
        x: a.x - b.x,
        y: a.y - b.y,
        z: a.z - b.z,
    }
}

/// `a + b`. The components of both vectors are within `MOST_PLAIN`.
pub fn sum(a: Vec3, b: Vec3) -> Vec3
    requires a { IsVectorWithin MOST_PLAIN MOST_PLAIN a }
    requires b { IsVectorWithin MOST_PLAIN MOST_PLAIN b }
    ensures { result ≡ sum_of a b }
{
    Vec3 {
        x: a.x + b.x,
        y: a.y + b.y,
        z: a.z + b.z,
    }
}

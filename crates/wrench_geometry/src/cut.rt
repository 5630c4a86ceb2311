//! Cuts: how far a direction lets a demand go.

use crate::vector::Vec3;

/// What the two parts of a least cut are below.
pub const CUT_PARTS_BELOW: i64 = 7_500_000_000_000_000;

/// A direction `w` with its product `bottom` with a demand, which is at least 1, and the greatest
/// product `top` that it has with a sum of the lists. No more than `top / bottom` of the demand can
/// be had.
#[derive(Clone, Copy, Debug, PartialEq, Eq)]
pub struct Cut {
    pub w: Vec3,
    pub top: i64,
    pub bottom: i64,
}

//! Exact arithmetic on whole numbers and fractions. Nothing here overflows, and no call has an allocator, so none
//! takes memory.
#![tactic(auto)]

mod fractions;
mod quotient;

pub use fractions::{Fraction, compare, compare_wide, gcd, reduce};
pub use quotient::{clamp, floor_div};

//! Fractions of whole numbers that are at least 0.
ghost use Rattle.std.specs.Prelude.{◌≡◌, pos, ◌≤ℤ◌, ◌<ℤ◌, ◌⊎◌};
ghost use Rattle.dp_num.specs.Fractions.{IsGreatestCommonDivisor, IsInLowestTerms, SameQuotient};
ghost use Rattle.dp_num.specs.Fractions.{order_of_quotients};

use std::cmp::Ordering;

/// A number of at least 0 as a fraction. Two fractions are equal by `==` only where both their parts are: `compare`
/// says whether they are one number.
#[derive(Clone, Copy, Debug, PartialEq, Eq)]
pub struct Fraction {
    /// At least 0.
    pub top: i64,
    /// At least 1.
    pub bottom: i64,
    ghost top_from_0: { pos 0 ≤ℤ top },
    ghost bottom_from_1: { pos 1 ≤ℤ bottom },
}

/// The greatest common divisor of `a` and `b`, which are at least 0 and not both 0, by Euclid's algorithm. That of 0
/// and `b` is `b`.
pub fn gcd(mut a: i64, mut b: i64) -> i64
    requires a_from_0 { pos 0 ≤ℤ a }
    requires b_from_0 { pos 0 ≤ℤ b }
    requires not_both_0 { (pos 0 <ℤ a) ⊎ (pos 0 <ℤ b) }
    ensures greatest { IsGreatestCommonDivisor a b result }
{
    while b != 0 {
        (a, b) = (b, a % b);
    }
    a
}

/// The fraction in lowest terms that is `top / bottom`. The top is at least 0 and the bottom at least 1. The answer's
/// parts are at most as large as those given, and 0 is 0/1.
pub fn reduce(top: i64, bottom: i64) -> Fraction
    requires top_from_0 { pos 0 ≤ℤ top }
    requires bottom_from_1 { pos 1 ≤ℤ bottom }
    ensures same { SameQuotient result.top result.bottom top bottom }
    ensures lowest { IsInLowestTerms result.top result.bottom }
    ensures top_within { result.top ≤ℤ top }
    ensures bottom_within { result.bottom ≤ℤ bottom }
    ensures zero { top ≡ pos 0 → (result.top ≡ pos 0) × (result.bottom ≡ pos 1) }
{
    let common = gcd(top, bottom);
    Fraction {
        top: top / common,
        bottom: bottom / common,
    }
}

/// How the numbers that two fractions stand for are ordered.
pub fn compare(a: Fraction, b: Fraction) -> Ordering
    ensures order { result ≡ order_of_quotients a.top a.bottom b.top b.bottom }
{
    compare_wide(
        i128::from(a.top),
        i128::from(a.bottom),
        i128::from(b.top),
        i128::from(b.bottom),
    )
}

/// How `a / b` and `c / d` are ordered. The tops are at least 0 and the bottoms at least 1, with no other limit: the
/// whole quotients are compared and then, turned upside down, what remains of each, as in Euclid's algorithm.
pub fn compare_wide(mut a: i128, mut b: i128, mut c: i128, mut d: i128) -> Ordering
    requires a_from_0 { pos 0 ≤ℤ a }
    requires b_from_1 { pos 1 ≤ℤ b }
    requires c_from_0 { pos 0 ≤ℤ c }
    requires d_from_1 { pos 1 ≤ℤ d }
    ensures order { result ≡ order_of_quotients a b c d }
{
    loop {
        let whole = (a / b).cmp(&(c / d));
        if whole != Ordering::Equal {
            return whole;
        }
        let (left, right) = (a % b, c % d);
        if left == 0 || right == 0 {
            return left.cmp(&right);
        }
        (a, b, c, d) = (d, right, b, left);
    }
}

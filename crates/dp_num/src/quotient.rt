//! The floor of a quotient, and a number held between two others.
ghost use Rattle.std.specs.Prelude.{◌≡◌, pos, ◌≤ℤ◌};
ghost use Rattle.dp_num.specs.Quotients.{IsFloor, floor_quotient, clamped};

/// The greatest whole number that is at most `a / b`, also where `a` is negative. The divisor is at least 1.
pub fn floor_div(a: i128, b: i128) -> i128
    requires { pos 1 ≤ℤ b }
    ensures value { result ≡ floor_quotient a b }
    ensures floor { IsFloor a b result }
{
    a.div_euclid(b)
}

/// The number from `low` to `high` that is nearest to `value`. `low` is at most `high`.
pub fn clamp(value: i128, low: i128, high: i128) -> i128
    requires { low ≤ℤ high }
    ensures value { result ≡ clamped value low high }
    ensures low { low ≤ℤ result }
    ensures high { result ≤ℤ high }
{
    value.clamp(low, high)
}

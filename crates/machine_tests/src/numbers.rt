//! Whole numbers and fractions.

use dp_num::{Fraction, clamp, compare, compare_wide, floor_div, gcd, reduce};
use std::cmp::Ordering;

#[test]
fn divides_and_reduces(rt: HostRuntime) {
    assert_eq!(rt; gcd(1071, 462), 21);
    assert_eq!(rt; gcd(0, 7), 7);
    assert_eq!(rt; gcd(7, 0), 7);
    assert_eq!(rt;
        reduce(462, 1071),
        Fraction {
            top: 22,
            bottom: 51
        }
    );
    assert_eq!(rt; reduce(0, 15), Fraction { top: 0, bottom: 1 });
}

#[test]
fn orders_fractions(rt: HostRuntime) {
    let third = Fraction { top: 1, bottom: 3 };
    assert_eq!(rt;
        compare(third, Fraction { top: 2, bottom: 6 }),
        Ordering::Equal
    );
    // 355/113 is above 333/106, and both lie near pi.
    assert_eq!(rt; compare_wide(333, 106, 355, 113), Ordering::Less);
    let most = i128::MAX;
    assert_eq!(rt;
        compare_wide(most, most - 1, most - 1, most - 2),
        Ordering::Less
    );
    assert_eq!(rt;
        compare_wide(most - 1, most, most - 2, most - 1),
        Ordering::Greater
    );
}

#[test]
fn divides_and_holds(rt: HostRuntime) {
    assert_eq!(rt; floor_div(7, 2), 3);
    assert_eq!(rt; floor_div(-7, 2), -4);
    assert_eq!(rt; floor_div(-8, 2), -4);
    assert_eq!(rt; clamp(-5, 0, 9), 0);
    assert_eq!(rt; clamp(5, 0, 9), 5);
    assert_eq!(rt; clamp(15, 0, 9), 9);
}

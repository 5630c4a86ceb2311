//! Least cuts of sums that are known.
ghost use Rattle.wrench_geometry.specs.Wrenches.{IsDemandVector};

use crate::sums::{AZIMUTH, TUNNEL, add, at, square, two_tunnels, whole};
use separation::{Cut, least_cut};
use std::test::Fail;
use wrench_geometry::{Sums, Vec3, directions};

/// The least cut of a demand that isn't zero.
fn cut_of(sums: &Sums, d: Vec3) -> Option<Cut>
    requires { IsDemandVector d }
{
    if d.x == 0 && d.y == 0 && d.z == 0 {
        return None;
    }
    Some(least_cut(sums, d))
}

#[test]
fn a_flat_sum_is_cut_across_its_plane(rt: HostRuntime) -> Result<(), Fail> {
    let cut = cut_of(&two_tunnels(), at(5, 0, 0)).ok_or("zero")?;
    assert_eq!(rt; cut.top, 0);
    assert_eq!(rt; Some(cut.bottom), cut.w.x.checked_mul(5));
    Ok(())
}

#[test]
fn the_vessel_without_its_port_half_holds_380_kn_abeam(rt: HostRuntime) -> Result<(), Fail> {
    let mut sums = Sums::new();
    add(&mut sums, (360, 0), &TUNNEL);
    add(&mut sums, (-400, 100), &AZIMUTH);
    let cut = cut_of(&sums, at(0, 381, 0)).ok_or("zero")?;
    assert_eq!(rt; i128::from(cut.top) * 381, i128::from(cut.bottom) * 380);
    Ok(())
}

#[test]
fn twelve_thrusters_hold_at_most_half_of_the_greatest_demand(rt: HostRuntime) -> Result<(), Fail> {
    let cut = cut_of(&square(0), at(24_000, 24_000, 76_800_000)).ok_or("zero")?;
    assert!(rt; cut.top <= cut.bottom / 2);
    Ok(())
}

/// Three points of which the second is inside of what the others reach: no fan, as they stand.
const DENTED: [(i32, i32); 3] = [(400, 0), (100, 100), (0, 400)];

#[test]
fn a_marked_list_has_its_edges_and_another_its_differences(rt: HostRuntime) {
    let mut dented = Sums::new();
    add(&mut dented, (-400, 100), &DENTED);
    let cases = [
        (Sums::new(), 3),
        (two_tunnels(), 9),
        (whole(), 17),
        (dented, 9),
    ];
    for (sums, count) in cases {
        assert_eq!(rt; directions(&sums), count);
    }
}

#[test]
fn twelve_thrusters_have_45_directions_in_each_choice(rt: HostRuntime) {
    for choice in 0..64 {
        assert_eq!(rt; directions(&square(choice)), 45);
    }
}

#[test]
fn a_point_inside_changes_no_cut(rt: HostRuntime) -> Result<(), Fail> {
    let mut dented = Sums::new();
    add(&mut dented, (360, 0), &TUNNEL);
    add(&mut dented, (-400, 100), &DENTED);
    let mut plain = Sums::new();
    add(&mut plain, (360, 0), &TUNNEL);
    add(&mut plain, (-400, 100), &[(400, 0), (0, 400)]);
    for d in [at(100, 381, 0), at(300, 0, 5_000), at(-1, 7, 90_000)] {
        let first = cut_of(&dented, d).ok_or("zero")?;
        let second = cut_of(&plain, d).ok_or("zero")?;
        let across = i128::from(first.top) * i128::from(second.bottom);
        assert_eq!(rt; across, i128::from(second.top) * i128::from(first.bottom));
    }
    Ok(())
}

//! Names, bands, and the built-in plant.

use plant_model::demo::demo;
use plant_model::name::Name;
use plant_model::wrench::{Wrench, separate};
use std::test::Fail;

#[test]
fn takes_names_alone(rt: HostRuntime) {
    let names: [&[u8]; 5] = [b"A", b"z9", b"_", b"port-2_AFT", b"ABCDEFGHIJKL"];
    for bytes in names {
        let spelled = Name::of(bytes).is_some_and(|name| name.bytes() == bytes);
        assert!(rt; spelled, "a name of {} bytes", bytes.len());
    }
    let others: [&[u8]; 7] = [
        b"",
        b"ABCDEFGHIJKLM",
        b"BOW 1",
        b"BOW,1",
        b"BOW.1",
        b"BOW\x80",
        b"B\xC3\x85T",
    ];
    for bytes in others {
        assert!(rt;
            Name::of(bytes).is_none(),
            "no name of {} bytes",
            bytes.len()
        );
    }
}

#[test]
fn writes_names(rt: HostRuntime) -> Result<(), Fail> {
    let name = Name::of(b"STBD-2").ok_or("a name")?;
    assert_eq!(rt; name.as_str(), "STBD-2");
    assert_eq!(rt; format!(in rt.alloc(); "{name}")?.as_str(), "STBD-2");
    assert_eq!(rt; format!(in rt.alloc(); "{name:>8}")?.as_str(), "  STBD-2");
    assert_eq!(rt; format!(in rt.alloc(); "{name:?}")?.as_str(), "\"STBD-2\"");
    assert!(rt; name != Name::default());
    assert_eq!(rt; Name::default().as_str(), "_");
    Ok(())
}

#[test]
fn a_band_holds_its_ends(rt: HostRuntime) {
    let cases = [
        (20, 0, 0, 6, false),
        (15, -15, 10_000, 0, false),
        (-16, 0, 0, 0, true),
        (0, 16, 0, 0, true),
        (0, 0, -10_001, 0, true),
    ];
    for (x, y, n, other_x, want) in cases {
        let other = Wrench {
            x: other_x,
            y: 0,
            n: 0,
        };
        let apart = separate(Wrench { x, y, n }, other, [15, 15, 10_000]);
        assert_eq!(rt; apart, want, "at {x}, {y}, {n}");
    }
}

#[test]
fn feeds_thrusters_from_their_sections(rt: HostRuntime) -> Result<(), Fail> {
    let plant = demo();
    let alloc = rt.alloc();
    let sections = format!(in alloc; "{} {:?}", plant.name(), plant.sections())?;
    assert_eq!(rt; sections.as_str(), "DEMO [\"A\", \"B\"]");
    let ties = format!(in alloc; "{:?}", plant.ties())?;
    assert_eq!(rt;
        ties.as_str(),
        "[Tie { name: \"T1\", first: 0, second: 1 }]"
    );
    for (thruster, place) in plant.thrusters().iter().zip(0u32..) {
        assert_eq!(rt; thruster.section, place % 2);
        assert_eq!(rt; thruster.frozen, None);
    }
    Ok(())
}

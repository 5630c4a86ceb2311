//! Plant files: the demo plant's, and such as differ from it in one place.

use plant_file::{read_document, read_plant};
use plant_model::demo::demo;
use plant_model::limits::MOST_PLANT_BYTES;
use std::alloc::{AllocError, Global};
use std::test::Fail;

/// The plant file of the demo plant.
const DEMO: &str = r#"format = 1
name = "DEMO"
band = [15, 15, 10000]
wind = [
    [-2500, 0, 0],
    [-2462, -876, 0],
    [-2348, -1716, 0],
    [-2162, -2500, 0],
    [-1912, -3209, 0],
    [-1605, -3824, 0],
    [-1250, -4324, 0],
    [-858, -4695, 0],
    [-438, -4923, 0],
    [0, -5000, 0],
    [438, -4923, 0],
    [857, -4695, 0],
    [1250, -4324, 0],
    [1604, -3824, 0],
    [1911, -3209, 0],
    [2162, -2500, 0],
    [2347, -1716, 0],
    [2461, -876, 0],
    [2500, 0, 0],
    [2461, 876, 0],
    [2347, 1715, 0],
    [2162, 2500, 0],
    [1911, 3209, 0],
    [1604, 3823, 0],
    [1250, 4324, 0],
    [857, 4695, 0],
    [438, 4923, 0],
    [0, 5000, 0],
    [-438, 4923, 0],
    [-858, 4695, 0],
    [-1250, 4324, 0],
    [-1605, 3823, 0],
    [-1912, 3209, 0],
    [-2162, 2500, 0],
    [-2348, 1715, 0],
    [-2462, 876, 0],
]

[controller.surge]
kp = 200
ki = 10
kd = 500
limit = 1000000000

[controller.sway]
kp = 200
ki = 10
kd = 500
limit = 1000000000

[controller.yaw]
kp = 200000
ki = 1000
kd = 500000
limit = 1000000000

[[section]]
name = "A"

[[section]]
name = "B"

[[tie]]
name = "T1"
ends = ["A", "B"]
closed = false

[[generator]]
name = "G1"
section = "A"
power = 4000
running = true

[[generator]]
name = "G2"
section = "B"
power = 4000
running = true

[[thruster]]
name = "BOW1"
section = "A"
at = [400, 0]
rated = 2000
thresholds = [25, 50, 75, 100]
ring = [[0, -200], [0, 200]]
selected = true

[[thruster]]
name = "BOW2"
section = "B"
at = [360, 0]
rated = 2000
thresholds = [25, 50, 75, 100]
ring = [[0, -200], [0, 200]]
selected = true

[[thruster]]
name = "PORT"
section = "A"
at = [-400, -100]
rated = 2000
thresholds = [25, 50, 75, 100]
ring = [[400, 0], [0, 400], [-400, 0], [0, -400]]
selected = true

[[thruster]]
name = "STBD"
section = "B"
at = [-400, 100]
rated = 2000
thresholds = [25, 50, 75, 100]
ring = [[400, 0], [0, 400], [-400, 0], [0, -400]]
selected = true

[[group]]
name = "GA"
members = ["A"]

[[group]]
name = "GB"
members = ["B"]
"#;

/// One more thruster with four points, which has two pieces.
const AZIMUTH: &str = r#"
section = "A"
at = [0, 0]
rated = 2000
thresholds = [25, 50, 75, 100]
ring = [[400, 0], [0, 400], [-400, 0], [0, -400]]
selected = true
"#;

/// The demo's text with other words in place of the first `old`.
fn changed(alloc: Global, old: &str, new: &str) -> Result<String, Fail> {
    let (before, after) = DEMO.split_once(old).ok_or("the words stand in the text")?;
    Ok(format!(in alloc; "{before}{new}{after}")?)
}

/// The text of the fault, or `right`.
fn fault(alloc: Global, bytes: &[u8]) -> Result<String, AllocError> {
    match read_plant(alloc, bytes) {
        Ok(_) => String::from_str(alloc, "right"),
        Err(fault) => format!(in alloc; "{fault}"),
    }
}

/// The demo's text with so many more thrusters of two pieces before the groups.
fn with_azimuths(alloc: Global, count: u32) -> Result<String, Fail> {
    let (before, after) = DEMO.split_once("[[group]]").ok_or("there is a group")?;
    let mut text = String::from_str(alloc, before)?;
    for number in 0..count {
        write!(&mut text, "[[thruster]]\nname = \"AZI{number}\"{AZIMUTH}")?;
    }
    text.push_str("[[group]]")?;
    text.push_str(after)?;
    Ok(text)
}

/// The demo's text in this format and with so many more groups.
fn with_groups(alloc: Global, format: &str, count: u32) -> Result<String, Fail> {
    let mut text = changed(alloc, "format = 1", format)?;
    for number in 0..count {
        write!(
            &mut text,
            "[[group]]\nname = \"MORE{number}\"\nmembers = [\"A\"]\n"
        )?;
    }
    Ok(text)
}

#[test]
fn reads_the_demo_plant(rt: HostRuntime) -> Result<(), Fail> {
    let alloc = rt.alloc();
    match read_plant(alloc, DEMO.as_bytes()) {
        Ok(plant) => {
            let found = format!(in alloc; "{plant:?}")?;
            let wanted = format!(in alloc; "{:?}", demo())?;
            assert_eq!(rt; found.as_str(), wanted.as_str());
        }
        Err(_) => assert!(rt; false, "the demo plant is right"),
    }
    Ok(())
}

#[test]
fn tells_what_is_wrong_with_a_plant(rt: HostRuntime) -> Result<(), Fail> {
    let alloc = rt.alloc();
    let cases: [(&str, &str, &str); 25] = [
        ("name = \"B\"", "name = \"A\"", "5 section[1].name"),
        ("name = \"G1\"", "name = \"B\"", "5 generator[0].name"),
        ("name = \"GB\"", "name = \"GA\"", "5 group[1].name"),
        ("[\"A\", \"B\"]", "[\"A\", \"A\"]", "5 tie[0].ends"),
        (
            "members = [\"A\"]",
            "members = [\"A\", \"A\"]",
            "5 group[0].members",
        ),
        ("[\"A\", \"B\"]", "[\"A\", \"C\"]", "6 tie[0].ends"),
        ("[\"A\", \"B\"]", "[\"A\", \"G1\"]", "6 tie[0].ends"),
        (
            "members = [\"A\"]",
            "members = [\"GB\"]",
            "6 group[0].members",
        ),
        (
            "members = [\"A\"]",
            "members = [\"T1\", \"BOW1\", \"G2\", \"A\"]",
            "right",
        ),
        ("name = \"GA\"", "name = \"GA\"\ncolour = 1", "10 group[0]"),
        ("kp = 200000\n", "", "2 controller.yaw.kp"),
        ("rated = 2000", "rated = \"x\"", "3 thruster[0].rated"),
        (
            "rated = 2000",
            "rated = 2000\nfrozen = [2001, 0]",
            "4 thruster[0].frozen",
        ),
        ("rated = 2000", "rated = 2000\nfrozen = [0, 100]", "right"),
        ("rated = 2000", "rated = 2000\nfrozen = [-2000, 0]", "right"),
        (
            "[[400, 0], [0, 400], [-400, 0], [0, -400]]",
            "[[400, 0], [0, -400], [-400, 0], [0, 400]]",
            "7 thruster[2]",
        ),
        (
            "[[0, -200], [0, 200]]",
            "[[0, 100], [0, 200]]",
            "7 thruster[0]",
        ),
        (
            "[[0, -200], [0, 200]]",
            "[[0, -200], [0, 200]]\nforbid = [[0, 1]]",
            "8 thruster[0]",
        ),
        ("[0, -400]]", "[0, -400]]\nforbid = [[0, 1]]", "right"),
        (
            "[0, -400]]",
            "[0, -400]]\nforbid = [[0, 4]]",
            "8 thruster[2]",
        ),
        (
            "[0, -400]]",
            "[0, -400]]\nforbid = [[1, 1]]",
            "8 thruster[2]",
        ),
        (
            "[0, -400]]",
            "[0, -400]]\nforbid = [[0, 2], [1, 3]]",
            "8 thruster[2]",
        ),
        (
            "[0, -400]]",
            "[0, -400]]\nforbid = [[0, 2], [2, 0]]",
            "right",
        ),
        ("[0, -400]]", "[0, -400]]\nbarred = [1]", "10 thruster[2]"),
        ("format = 1", "format = 9", "4 format"),
    ];
    for (old, new, expected) in cases {
        let text = changed(alloc, old, new)?;
        assert_eq!(rt; fault(alloc, text.as_bytes())?.as_str(), expected);
    }
    Ok(())
}

/// Format 2 alone has barred pieces. The third thruster has two.
#[test]
fn tells_which_pieces_are_barred(rt: HostRuntime) -> Result<(), Fail> {
    let alloc = rt.alloc();
    let cases = [
        ("barred = [0, 16]", Err("4 thruster[2].barred")),
        ("barred = [0, 15]", Err("12 thruster[2]")),
        ("barred = [2]", Err("12 thruster[2]")),
        ("barred = [1, 1]", Err("12 thruster[2]")),
        ("barred = [1]", Ok(2)),
        ("barred = [1, 0]", Ok(3)),
    ];
    let text = changed(alloc, "format = 1", "format = 2")?;
    let (front, back) = text.split_once("[0, -400]]").ok_or("there is a ring")?;
    for (barred, expected) in cases {
        let text = format!(in alloc; "{front}[0, -400]]\n{barred}{back}")?;
        match (read_plant(alloc, text.as_bytes()), expected) {
            (Ok(plant), Ok(mask)) => assert_eq!(rt; plant.opening().barred[2], mask),
            (Err(fault), Err(told)) => assert_eq!(rt; format!(in alloc; "{fault}")?.as_str(), told),
            _ => assert!(rt; false, "at {barred}"),
        }
    }
    Ok(())
}

#[test]
fn counts_the_choices(rt: HostRuntime) -> Result<(), Fail> {
    let alloc = rt.alloc();
    for (count, expected) in [(4, "right"), (5, "9")] {
        let text = with_azimuths(alloc, count)?;
        assert_eq!(rt; fault(alloc, text.as_bytes())?.as_str(), expected);
    }
    Ok(())
}

#[test]
fn counts_the_groups(rt: HostRuntime) -> Result<(), Fail> {
    let alloc = rt.alloc();
    let cases = [
        ("format = 1", 6, "right"),
        ("format = 1", 14, "4 group[8]"),
        ("format = 2", 14, "right"),
        ("format = 2", 15, "4 group[16]"),
    ];
    for (format, count, expected) in cases {
        let text = with_groups(alloc, format, count)?;
        assert_eq!(rt; fault(alloc, text.as_bytes())?.as_str(), expected);
    }
    Ok(())
}

#[test]
fn refuses_what_is_no_plant(rt: HostRuntime) -> Result<(), Fail> {
    let alloc = rt.alloc();
    let cases: [(&[u8], &str); 5] = [
        (b"", "2 format"),
        (b"format = 9", "4 format"),
        (b"x = [", "1"),
        (b"\xff", "1"),
        (b"format = 1.0", "3 format"),
    ];
    for (bytes, expected) in cases {
        assert_eq!(rt; fault(alloc, bytes)?.as_str(), expected);
    }
    for (count, expected) in [(MOST_PLANT_BYTES, "2 format"), (MOST_PLANT_BYTES + 1, "11")] {
        let blank = vec![in alloc; b' '; count]?;
        assert_eq!(rt; fault(alloc, &blank)?.as_str(), expected);
    }
    Ok(())
}

#[test]
fn judges_the_keys_of_a_document_alone(rt: HostRuntime) -> Result<(), Fail> {
    let alloc = rt.alloc();
    let text = changed(alloc, "name = \"B\"", "name = \"A\"")?;
    assert!(rt; read_document(alloc, text.as_bytes()).is_ok());
    Ok(())
}

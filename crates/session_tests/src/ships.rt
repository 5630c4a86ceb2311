//! Plant files of ships of one section.

use std::alloc::Global;
use std::test::Fail;

/// PORT's ring of the demo, at the origin.
pub(crate) const AZIMUTH: &str = "at = [0, 0]\nring = [[400, 0], [0, 400], [-400, 0], [0, -400]]\n";

/// The group of the first thruster alone.
pub(crate) const FIRST: &str = "[[group]]\nname = \"GF\"\nmembers = [\"P0\"]\n";

/// Appends a thruster of one section with these keys beside the common ones.
pub(crate) fn push_thruster(text: &mut String, place: usize, keys: &str) -> Result<(), Fail> {
    write!(
        text,
        "[[thruster]]\nname = \"P{place}\"\nsection = \"A\"\nrated = 1\n"
    )?;
    text.push_str("thresholds = [25, 50, 75, 100]\nselected = true\n")?;
    text.push_str(keys)?;
    Ok(())
}

/// A plant file of one section, with these thrusters after their common keys, and these groups.
pub(crate) fn ship(alloc: Global, thrusters: &[&str], groups: &str) -> Result<String, Fail> {
    let mut text = String::from_str(
        alloc,
        "format = 2\nname = \"SHIP\"\nband = [15, 15, 10000]\nwind = [",
    )?;
    for _ in 0..36 {
        text.push_str("[0, 0, 0], ")?;
    }
    text.push_str("]\n")?;
    for axis in ["surge", "sway", "yaw"] {
        write!(
            text,
            "[controller.{axis}]\nkp = 0\nki = 0\nkd = 0\nlimit = 0\n"
        )?;
    }
    text.push_str("[[section]]\nname = \"A\"\n")?;
    text.push_str(
        "[[generator]]\nname = \"G\"\nsection = \"A\"\npower = 100000\nrunning = true\n",
    )?;
    for (place, thruster) in thrusters.iter().enumerate() {
        push_thruster(&mut text, place, thruster)?;
    }
    text.push_str(groups)?;
    Ok(text)
}

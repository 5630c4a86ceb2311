//! Sessions and checks over plant files, and files that describe no plant.

use crate::memory::{bytes, nothing, replays, runs};
use crate::ships::{AZIMUTH, FIRST, ship};
use crate::texts::push_frame;
use dp_io::{MemorySink, MemorySource};
use dp_words::RunStatus;
use plant_file::PlantFault;
use plant_model::limits::MOST_PLANT_BYTES;
use std::alloc::Global;
use std::process::Abort;
use std::sync::Wait;
use std::test::Fail;
use std::thread::Threads;

/// A session over a plant file and telegrams, of which this is written, with nothing that fails.
fn writes(
    rt: &impl Abort,
    alloc: Global,
    file: &str,
    body: &str,
    written: &str,
) -> Result<(), Fail> {
    let mut telegrams = String::new(alloc);
    push_frame(&mut telegrams, body)?;
    let telegrams = MemorySource::new(bytes(alloc, telegrams.as_str())?, 7, Vec::new(alloc));
    let file = MemorySource::new(bytes(alloc, file)?, 100, Vec::new(alloc));
    let out = MemorySink::new(alloc, 4096, Vec::new(alloc))?;
    let ended = replays(alloc, &["replay", "ship.toml", "-"], file, telegrams, out)?;
    assert_eq!(rt; ended.status, RunStatus::Clear);
    assert_eq!(rt; ended.out.taken(), written.as_bytes());
    Ok(())
}

#[test]
fn a_session_of_a_plant_file(rt: HostRuntime) -> Result<(), Fail> {
    let alloc = rt.alloc();
    let file = ship(alloc, &[AZIMUTH], FIRST)?;
    writes(
        &rt,
        alloc,
        file.as_str(),
        "THR,P0,OUT",
        "LOG,1,SHIP\n\
         S PUBLISH,0,GF,HOLDS,0,1,0,0 = SHOWN\n\
         O THR,P0,OUT = VERSION,1\n\
         S PUBLISH,1,GF,HOLDS,0,1,0,0 = SHOWN\n\
         S CLOSE = TAKEN\n\
         REPORT,1,1\nGROUP,GF,HOLDS\nEND\n",
    )
}

/// A ship of one azimuth, of which each of 16 groups has that.
fn ship_of_sixteen_groups(alloc: Global) -> Result<String, Fail> {
    let mut groups = String::new(alloc);
    for number in 0..16 {
        write!(
            groups,
            "[[group]]\nname = \"G{number}\"\nmembers = [\"P0\"]\n"
        )?;
    }
    ship(alloc, &[AZIMUTH], groups.as_str())
}

#[test]
fn a_session_of_sixteen_groups(rt: HostRuntime) -> Result<(), Fail> {
    let alloc = rt.alloc();
    let file = ship_of_sixteen_groups(alloc)?;
    let mut log = String::from_str(alloc, "LOG,1,SHIP\n")?;
    let mut board = String::new(alloc);
    let mut report = String::new(alloc);
    for number in 0..16 {
        write!(log, "S PUBLISH,0,G{number},HOLDS,0,1,0,0 = SHOWN\n")?;
        board.push_str(",0:HOLDS:CURRENT")?;
        write!(report, "GROUP,G{number},HOLDS\n")?;
    }
    let written = format!(in alloc;
        "{log}O BRD = CELLS,0{board}\nS CLOSE = TAKEN\nREPORT,0,1\n{report}END\n"
    )?;
    writes(&rt, alloc, file.as_str(), "BRD", written.as_str())
}

#[test]
fn a_check_of_sixteen_groups(rt: HostRuntime) -> Result<(), Fail> {
    let alloc = rt.alloc();
    let file = ship_of_sixteen_groups(alloc)?;
    let file = MemorySource::new(bytes(alloc, file.as_str())?, 100, Vec::new(alloc));
    let out = MemorySink::new(alloc, 4096, Vec::new(alloc))?;
    let words = ["check", "ship.toml", "--", "0", "-100", "0"].as_slice();
    let ended = runs(&rt, alloc, words, file, out)?;
    let mut text = String::from_str(alloc, "CHECK,0,-100,0\nINTACT,HOLDS,1,1,0,-100\n")?;
    for number in 0..16 {
        write!(text, "GROUP,G{number},LOST,1,0,-1,0\n")?;
    }
    text.push_str("ALLOCATION,1,1,1,1,0,-100\nEND\n")?;
    assert_eq!(rt; ended.status, RunStatus::LossFound);
    assert_eq!(rt; ended.out.taken(), text.as_str().as_bytes());
    Ok(())
}

/// Two tunnels, an azimuth and two propellers that give much ahead and little astern, each of the last three with two
/// pieces.
#[test]
fn a_ship_of_eight_choices(rt: HostRuntime) -> Result<(), Fail> {
    let alloc = rt.alloc();
    let propeller = "at = [0, 0]\nring = [[1000, -300], [1000, 300], [-400, 0]]\n\
        forbid = [[1, 2], [2, 0]]\n";
    let thrusters = [
        "at = [400, 0]\nring = [[0, -200], [0, 200]]\n",
        "at = [360, 0]\nring = [[0, -200], [0, 200]]\n",
        AZIMUTH,
        propeller,
        propeller,
    ];
    let file = ship(alloc, &thrusters, FIRST)?;
    let file = MemorySource::new(bytes(alloc, file.as_str())?, 100, Vec::new(alloc));
    let out = MemorySink::new(alloc, 4096, Vec::new(alloc))?;
    let words = ["check", "ship.toml", "24000", "0", "0"].as_slice();
    let ended = runs(&rt, alloc, words, file, out)?;
    assert_eq!(rt; ended.status, RunStatus::LossFound);
    let head = b"CHECK,24000,0,0\nINTACT,LOST,8,".as_slice();
    assert!(rt; ended.out.taken().starts_with(head));
    Ok(())
}

/// A check over a plant file that describes no plant.
fn refuses(
    rt: &(impl Abort + Threads + Wait + Sync),
    alloc: Global,
    file: Vec<u8>,
    fault: PlantFault,
    line: &str,
) -> Result<(), Fail> {
    let file = MemorySource::new(file, 4096, Vec::new(alloc));
    let out = MemorySink::new(alloc, 64, Vec::new(alloc))?;
    let words = ["check", "ship.toml", "0", "0", "0"].as_slice();
    let ended = runs(rt, alloc, words, file, out)?;
    assert_eq!(rt; ended.status, RunStatus::Plant(fault));
    assert!(rt; ended.out.taken().is_empty());
    assert_eq!(rt; ended.err.taken(), line.as_bytes());
    Ok(())
}

#[test]
fn a_file_that_is_no_toml(rt: HostRuntime) -> Result<(), Fail> {
    let alloc = rt.alloc();
    let file = bytes(alloc, "x = [")?;
    refuses(&rt, alloc, file, PlantFault::NotToml, "dp: plant 1\n")
}

#[test]
fn a_file_of_too_many_choices(rt: HostRuntime) -> Result<(), Fail> {
    let alloc = rt.alloc();
    let file = ship(alloc, &[AZIMUTH; 7], FIRST)?;
    let file = bytes(alloc, file.as_str())?;
    refuses(
        &rt,
        alloc,
        file,
        PlantFault::TooManyChoices,
        "dp: plant 9\n",
    )
}

#[test]
fn a_file_of_too_many_bytes(rt: HostRuntime) -> Result<(), Fail> {
    let alloc = rt.alloc();
    let mut file = Vec::new(alloc);
    for _ in 0..=MOST_PLANT_BYTES {
        file.push(b'\n')?;
    }
    refuses(&rt, alloc, file, PlantFault::TooLong, "dp: plant 11\n")
}

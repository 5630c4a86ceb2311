//! Checks over memory: what is written, and the status.

use crate::memory::{bytes, call_number, nothing, runs};
use crate::ships::{AZIMUTH, FIRST, push_thruster, ship};
use dp_io::{MemorySink, MemorySource};
use dp_words::RunStatus;
use plant_file::{Key, Part, Path, PlantFault};
use std::alloc::Global;
use std::process::Abort;
use std::sync::Wait;
use std::test::Fail;
use std::thread::Threads;

/// The program run on these words over a plant file of these bytes, with nothing that fails.
fn checks(
    rt: &(impl Abort + Threads + Wait + Sync),
    alloc: Global,
    words: &[&str],
    file: &str,
    status: RunStatus,
    written: &str,
) -> Result<(), Fail> {
    let file = MemorySource::new(bytes(alloc, file)?, 7, Vec::new(alloc));
    let out = MemorySink::new(alloc, 4096, Vec::new(alloc))?;
    let ended = runs(rt, alloc, words, file, out)?;
    assert_eq!(rt; ended.status, status);
    assert_eq!(rt; ended.out.taken(), written.as_bytes());
    Ok(())
}

#[test]
fn the_demo_is_checked(rt: HostRuntime) -> Result<(), Fail> {
    let alloc = rt.alloc();
    checks(
        &rt,
        alloc,
        &["check", "demo", "0", "381", "0"],
        "",
        RunStatus::LossFound,
        "CHECK,0,381,0\n\
         INTACT,HOLDS,0,36,0,3175,0,3175,2667,3683,-2667,3683\n\
         GROUP,GA,LOST,2,100,400,1,100,400,1\n\
         GROUP,GB,HOLDS,0,2,0,381,0,0,0,381,0,0\n\
         ALLOCATION,1,1,0,36,0,3175,0,3175,2667,3683,-2667,3683\n\
         END\n",
    )?;
    checks(
        &rt,
        alloc,
        &["check", "demo", "--", "-5", "0", "0"],
        "",
        RunStatus::Clear,
        "CHECK,-5,0,0\n\
         INTACT,HOLDS,0,2,0,0,0,0,-5,0,-5,0\n\
         GROUP,GA,HOLDS,0,38,0,0,0,-25,0,0,-190,25\n\
         GROUP,GB,HOLDS,1,8,0,5,0,0,-40,-5,0,0\n\
         ALLOCATION,1,1,0,2,0,0,0,0,-5,0,-5,0\n\
         END\n",
    )?;
    checks(
        &rt,
        alloc,
        &["check", "demo", "0", "0", "0", "--json"],
        "",
        RunStatus::Clear,
        "{\"allocation\":{\"bottom\":\"1\",\"choice\":0,\"q\":\"1\",\
         \"thrusts\":[[\"0\",\"0\"],[\"0\",\"0\"],[\"0\",\"0\"],[\"0\",\"0\"]],\"top\":\"1\"},\
         \"demand\":[0,0,0],\
         \"groups\":[{\"name\":\"GA\",\"outcome\":{\"choice\":0,\"q\":\"1\",\
         \"thrusts\":[[\"0\",\"0\"],[\"0\",\"0\"],[\"0\",\"0\"],[\"0\",\"0\"]],\"verdict\":\"HOLDS\"}},\
         {\"name\":\"GB\",\"outcome\":{\"choice\":0,\"q\":\"1\",\
         \"thrusts\":[[\"0\",\"0\"],[\"0\",\"0\"],[\"0\",\"0\"],[\"0\",\"0\"]],\"verdict\":\"HOLDS\"}}],\
         \"intact\":{\"choice\":0,\"q\":\"1\",\
         \"thrusts\":[[\"0\",\"0\"],[\"0\",\"0\"],[\"0\",\"0\"],[\"0\",\"0\"]],\"verdict\":\"HOLDS\"}}\n",
    )
}

#[test]
fn a_ship_of_one_azimuth_is_checked(rt: HostRuntime) -> Result<(), Fail> {
    let alloc = rt.alloc();
    let guarded = format!(in alloc; "{AZIMUTH}forbid = [[0, 1]]\n")?;
    let file = ship(alloc, &[guarded.as_str()], FIRST)?;
    checks(
        &rt,
        alloc,
        &["check", "ship.toml", "100", "100", "0"],
        file.as_str(),
        RunStatus::LossFound,
        "CHECK,100,100,0\n\
         INTACT,LOST,2,1,0,0,0,1,0\n\
         GROUP,GF,LOST,1,1,1,0\n\
         ALLOCATION,0,1,0,1,0,0\n\
         END\n",
    )?;
    let words = ["check", "ship.toml", "--", "0", "-100", "0"].as_slice();
    let file = ship(alloc, &[AZIMUTH], FIRST)?;
    checks(
        &rt,
        alloc,
        words,
        file.as_str(),
        RunStatus::LossFound,
        "CHECK,0,-100,0\n\
         INTACT,HOLDS,1,1,0,-100\n\
         GROUP,GF,LOST,1,0,-1,0\n\
         ALLOCATION,1,1,1,1,0,-100\n\
         END\n",
    )?;
    for pieces in ["1", "0, 1"] {
        let barred = format!(in alloc; "{AZIMUTH}barred = [{pieces}]\n")?;
        let file = ship(alloc, &[barred.as_str()], FIRST)?;
        checks(
            &rt,
            alloc,
            words,
            file.as_str(),
            RunStatus::LossFound,
            "CHECK,0,-100,0\n\
             INTACT,LOST,1,0,-1,0\n\
             GROUP,GF,LOST,1,0,-1,0\n\
             ALLOCATION,0,1,0,1,0,0\n\
             END\n",
        )?;
    }
    Ok(())
}

#[test]
fn a_frozen_bow_is_checked(rt: HostRuntime) -> Result<(), Fail> {
    let alloc = rt.alloc();
    let file = ship(
        alloc,
        &["at = [400, 0]\nring = [[0, -200], [0, 200]]\nfrozen = [0, 100]\n"],
        FIRST,
    )?;
    let file = file.as_str();
    checks(
        &rt,
        alloc,
        &["check", "ship.toml", "0", "0", "0"],
        file,
        RunStatus::LossFound,
        "CHECK,0,0,0\n\
         INTACT,HOLDS,0,1,0,0\n\
         GROUP,GF,LOST,1,0,-1,-400\n\
         ALLOCATION,1,1,0,1,0,0\n\
         END\n",
    )?;
    checks(
        &rt,
        alloc,
        &["check", "ship.toml", "0", "100", "40000"],
        file,
        RunStatus::Clear,
        "CHECK,0,100,40000\n\
         INTACT,HOLDS,0,1,0,100\n\
         GROUP,GF,HOLDS,0,1,0,100\n\
         ALLOCATION,1,1,0,1,0,100\n\
         END\n",
    )?;
    checks(
        &rt,
        alloc,
        &["check", "ship.toml", "--", "0", "-24000", "0"],
        file,
        RunStatus::LossFound,
        "CHECK,0,-24000,0\n\
         INTACT,LOST,1,0,-400,1\n\
         GROUP,GF,LOST,1,0,-1,0\n\
         ALLOCATION,0,1,0,1,0,0\n\
         END\n",
    )
}

/// An azimuth and two tunnels, or two azimuths and a tunnel, at a corner of the ship.
fn push_corner(
    file: &mut Vec<String>,
    alloc: Global,
    x: i32,
    y: i32,
    azimuths: u32,
) -> Result<(), Fail> {
    for place in 0..3 {
        let ring = if place < azimuths {
            "[[2000, 0], [0, 2000], [-2000, 0], [0, -2000]]"
        } else {
            "[[0, 2000], [0, -2000]]"
        };
        file.push(format!(in alloc; "at = [{x}, {y}]\nring = {ring}\n")?)?;
    }
    Ok(())
}

#[test]
fn a_ship_of_sixty_four_choices_is_checked(rt: HostRuntime) -> Result<(), Fail> {
    let alloc = rt.alloc();
    let mut thrusters = Vec::new(alloc);
    push_corner(&mut thrusters, alloc, 1600, 1600, 1)?;
    push_corner(&mut thrusters, alloc, 1600, -1600, 2)?;
    push_corner(&mut thrusters, alloc, -1600, 1600, 2)?;
    push_corner(&mut thrusters, alloc, -1600, -1600, 1)?;
    let mut file = ship(alloc, &[], "")?;
    for (place, thruster) in thrusters.iter().enumerate() {
        push_thruster(&mut file, place, thruster.as_str())?;
    }
    file.push_str(FIRST)?;
    let words = ["check", "ship.toml", "24000", "24000", "76800000"].as_slice();
    let source = MemorySource::new(bytes(alloc, file.as_str())?, 4096, Vec::new(alloc));
    let ended = runs(
        &rt,
        alloc,
        words,
        source,
        MemorySink::new(alloc, 16384, Vec::new(alloc))?,
    )?;
    assert_eq!(rt; ended.status, RunStatus::LossFound);
    let head = b"CHECK,24000,24000,76800000\nINTACT,LOST,64,".as_slice();
    assert!(rt; ended.out.taken().starts_with(head));
    let tail = b"\nALLOCATION,7,24,0,3,0,6000,0,6000,0,6000,6000,0,6000,0,0,6000,\
        1500,0,1500,0,0,-1000,6000,0,0,-1000,0,-1000\nEND\n"
        .as_slice();
    assert!(rt; ended.out.taken().ends_with(tail));
    Ok(())
}

#[test]
fn faults_write_nothing_or_a_part(rt: HostRuntime) -> Result<(), Fail> {
    let alloc = rt.alloc();
    let words = ["check", "ship.toml", "0", "381", "0"].as_slice();
    let file = MemorySource::new(bytes(alloc, "format = 9")?, 7, Vec::new(alloc));
    let out = MemorySink::new(alloc, 64, Vec::new(alloc))?;
    let ended = runs(&rt, alloc, words, file, out)?;
    let format = Path {
        part: Part::Top,
        index: 0,
        key: Key::Format,
    };
    assert_eq!(rt;
        ended.status,
        RunStatus::Plant(PlantFault::OutOfLimit(format))
    );
    assert!(rt; ended.out.taken().is_empty());
    assert_eq!(rt; ended.err.taken(), b"dp: plant 4 format\n".as_slice());

    let file = MemorySource::new(bytes(alloc, "format = 9")?, 7, call_number(alloc, 1)?);
    let out = MemorySink::new(alloc, 64, Vec::new(alloc))?;
    let ended = runs(&rt, alloc, words, file, out)?;
    assert_eq!(rt; ended.status, RunStatus::ReadFault);
    assert!(rt; ended.out.taken().is_empty());

    let words = ["check", "demo", "0", "381", "0"].as_slice();
    let file = nothing(alloc);
    let out = MemorySink::new(alloc, 4096, call_number(alloc, 1)?)?;
    let ended = runs(&rt, alloc, words, file, out)?;
    assert_eq!(rt; ended.status, RunStatus::WriteFault);
    assert_eq!(rt; ended.out.taken(), b"CHECK,0,381,0\n".as_slice());
    assert_eq!(rt; ended.err.taken(), b"dp: write fault\n".as_slice());

    let words = ["check", "demo", "-5", "0", "0"].as_slice();
    let file = nothing(alloc);
    let out = MemorySink::new(alloc, 64, Vec::new(alloc))?;
    let ended = runs(&rt, alloc, words, file, out)?;
    assert_eq!(rt; ended.status, RunStatus::Usage(3));
    assert!(rt; ended.out.taken().is_empty());
    assert_eq!(rt; ended.err.taken(), b"dp: usage 3\n".as_slice());
    Ok(())
}

//! The statuses of the program: their numbers and their lines.

use dp_io::MemorySink;
use dp_words::{RunStatus, tell};
use plant_file::{Key, Part, Path, PlantFault};
use std::test::Fail;

#[test]
fn lines_and_numbers(rt: HostRuntime) -> Result<(), Fail> {
    let alloc = rt.alloc();
    let at = |part, index, key| Path { part, index, key };
    let lines = [
        (RunStatus::Clear, 0, ""),
        (RunStatus::LossFound, 1, ""),
        (RunStatus::Usage(2), 2, "dp: usage 2\n"),
        (
            RunStatus::Plant(PlantFault::MissingKey(at(Part::Top, 0, Key::Format))),
            3,
            "dp: plant 2 format\n",
        ),
        (
            RunStatus::Plant(PlantFault::NameTwice(at(Part::Section, 1, Key::Name))),
            3,
            "dp: plant 5 section[1].name\n",
        ),
        (
            RunStatus::Plant(PlantFault::MissingKey(at(Part::Controller, 2, Key::Kp))),
            3,
            "dp: plant 2 controller.yaw.kp\n",
        ),
        (
            RunStatus::Plant(PlantFault::UnknownKey(at(Part::Group, 0, Key::Whole))),
            3,
            "dp: plant 10 group[0]\n",
        ),
        (
            RunStatus::Plant(PlantFault::RingNotConvex(2)),
            3,
            "dp: plant 7 thruster[2]\n",
        ),
        (
            RunStatus::Plant(PlantFault::TooManyChoices),
            3,
            "dp: plant 9\n",
        ),
        (RunStatus::ReadFault, 4, "dp: read fault\n"),
        (RunStatus::WriteFault, 5, "dp: write fault\n"),
        (RunStatus::JournalFull, 6, "dp: journal full\n"),
        (RunStatus::NoMemory, 7, "dp: no memory\n"),
        (RunStatus::StreamTooLong, 8, "dp: stream too long\n"),
    ];
    for (status, code, line) in lines {
        let mut err = MemorySink::new(alloc, 64, Vec::new(alloc))?;
        tell(&status, &mut err);
        assert_eq!(rt; err.taken(), line.as_bytes());
        assert_eq!(rt; status.code(), code);
    }
    Ok(())
}

//! Plants that a word of the command line names.

use dp_io::MemorySource;
use dp_words::{RunStatus, plant_from};
use plant_file::{Key, Part, Path, PlantFault};
use plant_model::limits::MOST_PLANT_BYTES;
use std::alloc::Global;
use std::test::Fail;

/// Why there is no plant where the plant file has these bytes, of which a read gives 7 at the most.
fn error_of(alloc: Global, bytes: &[u8], fails: &[u64]) -> Result<Option<RunStatus>, Fail> {
    let mut all = Vec::new(alloc);
    all.extend_from_slice(bytes)?;
    let mut at = Vec::new(alloc);
    at.extend_from_slice(fails)?;
    let mut source = MemorySource::new(all, 7, at);
    Ok(plant_from(alloc, "file", &mut source).err())
}

#[test]
fn the_built_in_plant_needs_no_source(rt: HostRuntime) -> Result<(), Fail> {
    let alloc = rt.alloc();
    let mut source = MemorySource::new(Vec::new(alloc), 1, Vec::new(alloc));
    let plant = plant_from(alloc, "demo", &mut source).map_err(|_| "no plant")?;
    assert_eq!(rt; plant.name().bytes(), b"DEMO".as_slice());
    Ok(())
}

#[test]
fn faults_of_plant_files(rt: HostRuntime) -> Result<(), Fail> {
    let alloc = rt.alloc();
    let format = Path {
        part: Part::Top,
        index: 0,
        key: Key::Format,
    };
    let missing = RunStatus::Plant(PlantFault::MissingKey(format));
    let out_of_limit = RunStatus::Plant(PlantFault::OutOfLimit(format));
    let not_toml = RunStatus::Plant(PlantFault::NotToml);
    assert_eq!(rt; error_of(alloc, b"", &[])?, Some(missing));
    assert_eq!(rt; error_of(alloc, b"format = 9", &[])?, Some(out_of_limit));
    assert_eq!(rt; error_of(alloc, b"x = [", &[])?, Some(not_toml));
    assert_eq!(rt;
        error_of(alloc, b"format = 9", &[1])?,
        Some(RunStatus::ReadFault)
    );
    Ok(())
}

#[test]
fn a_file_of_too_many_bytes(rt: HostRuntime) -> Result<(), Fail> {
    let alloc = rt.alloc();
    let mut bytes = Vec::new(alloc);
    for _ in 0..=MOST_PLANT_BYTES {
        bytes.push(b'\n')?;
    }
    let mut source = MemorySource::new(bytes, 65_536, Vec::new(alloc));
    let too_long = RunStatus::Plant(PlantFault::TooLong);
    assert_eq!(rt;
        plant_from(alloc, "file", &mut source).err(),
        Some(too_long)
    );
    Ok(())
}

//! The plant that a word of the command line names.
ghost use Rattle.std.specs.Prelude.{◌≡◌, ◌≢◌, ◌≤◌, ◌⊎◌, Err, IfOk, IfErr, codes};
ghost use Rattle.dp_words.specs.PlantSource.{AreFileBytes, FindsPlant};
ghost use Rattle.dp_io.specs.Shown.{HasRisen, NoneFailed, reading};

use crate::status::RunStatus;
use dp_io::Source;
use plant_file::{PlantFault, read_plant};
use plant_model::demo::demo;
use plant_model::limits::MOST_PLANT_BYTES;
use plant_model::plant::Plant;
use std::alloc::Global;

/// The bytes that are read from a source at a time.
const PIECE_BYTES: usize = 4_096;

/// The bytes that the source has, or its first bytes where these are more than a plant file has. The error is
/// `ReadFault` or `NoMemory`.
fn file_bytes<A: Source>(alloc: Global, source: &mut A) -> Result<Vec<u8>, RunStatus>
    ensures file { IfOk result
        (λ bytes. AreFileBytes (reading A.Source source.old source.new) bytes.items) }
    ensures failed { result ≡ Err RunStatus.ReadFault
        → HasRisen (reading A.Source source.old source.new) }
    ensures errors { IfErr result
        (λ status. (status ≡ RunStatus.ReadFault) ⊎ (status ≡ RunStatus.NoMemory)) }
    ensures none_failed { (result ≡ Err RunStatus.ReadFault)
        ⊎ (A.faults source.new ≡ A.faults source.old) }
    ensures counted { A.faults source.old ≤ A.faults source.new }
{
    let mut bytes = Vec::new(alloc);
    let mut piece = [0; PIECE_BYTES];
    while bytes.len() <= MOST_PLANT_BYTES {
        let Ok(count) = source.read(&mut piece) else {
            return Err(RunStatus::ReadFault);
        };
        if count == 0 {
            break;
        }
        if bytes.extend_from_slice(&piece[..count]).is_err() {
            return Err(RunStatus::NoMemory);
        }
    }
    Ok(bytes)
}

/// The plant that the word names: `demo` is the built-in one, and the source isn't read. Any other word stands for
/// the source's bytes as a plant file. The error is `ReadFault`, the fault of the file, or `NoMemory`.
pub fn plant_from<A: Source>(alloc: Global, word: &str, source: &mut A) -> Result<Plant, RunStatus>
    ensures finds { FindsPlant word.now (reading A.Source source.old source.new) result }
    ensures unread { word.now ≡ codes "demo" → source.new ≡ source.old }
    ensures no_fault { result ≢ Err RunStatus.ReadFault → result ≢ Err RunStatus.NoMemory
        → NoneFailed (reading A.Source source.old source.new) }
    ensures counted { A.faults source.old ≤ A.faults source.new }
{
    if word == "demo" {
        return Ok(demo());
    }
    let bytes = file_bytes(alloc, source)?;
    match read_plant(alloc, bytes.as_slice()) {
        Ok(plant) => Ok(plant),
        Err(PlantFault::NoMemory) => Err(RunStatus::NoMemory),
        Err(fault) => Err(RunStatus::Plant(fault)),
    }
}

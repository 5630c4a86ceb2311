//! Lines of a log that are read, and texts that are none.
ghost use Rattle.std.specs.Prelude.{◌≡◌};

use log_reading::{lines_tell_entries, read_entry};
use log_text::entry_text;
use no_memory::NoMemory;
use plant_core::{Call, Entry, Note, Reply};
use plant_model::demo::demo;
use std::alloc::Global;
use std::test::Fail;

/// The line of the entry that is read of this text.
fn told_again(alloc: Global, text: &str) -> Result<Option<String>, NoMemory> {
    let plant = demo();
    match read_entry(&plant, text.as_bytes()) {
        Some(entry) => Ok(Some(entry_text(alloc, &plant, &entry)?)),
        None => Ok(None),
    }
}

/// Whether the text is a line, which is told again as it was.
fn is_line(alloc: Global, text: &str) -> Result<bool, NoMemory> {
    match told_again(alloc, text)? {
        Some(line) => Ok(line.as_str().strip_suffix('\n') == Some(text)),
        None => Ok(false),
    }
}

#[test]
fn reads_the_lines_of_all_replies(rt: HostRuntime) -> Result<(), Fail> {
    for line in [
        "O THR,BOW1,OUT = VERSION,1",
        "O THR,BOW1,OUT = SAME",
        "S CLOSE = TAKEN",
        "O GEN,G9,RUN = UNKNOWN-NAME",
        "O BAR,BOW1,7,BAR = NO-PIECE",
        "C POS,1000,-100,0,0 = COMMANDED,1,20,0,0,1,1,0,1,10,0,10,0,0,0,0,0",
        "C POS,1000,-100,0,0 = LATE,4294967295",
        "O SET,0,0,35999 = WRONG-MODE",
        "C REJECTED,5 = NOTED",
        "O ACK,1 = NO-SUCH-ALARM",
        "O BRD = CELLS,2,PENDING,2:HOLDS:CURRENT,1:LOST:SUPERSEDED",
        "W1 PUBLISH,0,GA,HOLDS,0,1,0,0,0,0,0,0,0,0 = SHOWN",
        "W4294967293 PUBLISH,0,GB,LOST,2,1,0,0,-1,0,0 = SUPERSEDED,3",
        "S PUBLISH,9,GB,LOST,0 = UNKNOWN,3",
        "S PUBLISH,0,GA,LOST,0 = ALREADY",
        "S PUBLISH,0,GA,HOLDS,0,-9223372036854775808 = REFUSED,DENOMINATOR",
        "S PUBLISH,0,GA,LOST,0 = REFUSED,CUT,3",
    ] {
        assert!(rt; is_line(rt.alloc(), line)?, "{line}");
    }
    Ok(())
}

#[test]
fn reads_no_other_text(rt: HostRuntime) -> Result<(), Fail> {
    let plant = demo();
    for text in [
        "",
        "S CLOSE",
        "S CLOSE = ",
        "S  CLOSE = TAKEN",
        "S CLOSE == TAKEN",
        "S CLOSE = TAKEN\n",
        "S CLOSE = TAKEN\r",
        "S CLOSE, = TAKEN",
        "s CLOSE = TAKEN",
        "W0 CLOSE = TAKEN",
        "W01 CLOSE = TAKEN",
        "W4294967294 CLOSE = TAKEN",
        "C DAMAGED,0 = NOTED",
        "C DAMAGED,5 = NOTED",
        "C REJECTED,6 = NOTED",
        "O ACK,1 = VERSION,007",
        "O ACK,1 = VERSION,+1",
        "O ACK,1 = VERSION,-0",
        "O ACK,1 = VERSION,4294967296",
        "O ACK,0 = TAKEN",
        "O ACK,1 = JOURNAL-FULL",
        "S PUBLISH,0,GC,LOST,0 = SHOWN",
        "S PUBLISH,0,GA,LOST,1 = SHOWN",
        "S PUBLISH,0,GA,HOLDS,0,1,2 = SHOWN",
        "O BRD = CELLS,0,0:HOLDS",
        "C POS,1,0,0,0 = COMMANDED,1,0,0,0,1,0,0,1",
        "C POS,1,0,0,0 = COMMANDED,1,0,0,0,-1,1,0,1",
    ] {
        assert!(rt; read_entry(&plant, text.as_bytes()).is_none(), "{text}");
    }
    assert!(rt; read_entry(&plant, &[0xFF]).is_none());
    Ok(())
}

#[test]
fn reads_no_more_thrusts_than_a_plant_has_at_most(rt: HostRuntime) -> Result<(), Fail> {
    let plant = demo();
    let mut text = String::new(rt.alloc());
    text.push_str("S PUBLISH,0,GA,HOLDS,0,1")?;
    for _ in 0..12 {
        text.push_str(",0,0")?;
    }
    text.push_str(" = SHOWN")?;
    assert!(rt; read_entry(&plant, text.as_str().as_bytes()).is_some());
    let longer = text.as_str().replacen(rt.alloc(), ",0,0", ",0,0,0,0", 1)?;
    assert!(rt; read_entry(&plant, longer.as_str().as_bytes()).is_none());
    Ok(())
}

#[test]
fn reads_an_entry(rt: HostRuntime) -> Result<(), Fail> {
    let plant = demo();
    lines_tell_entries(&plant);
    let entry = Entry {
        caller: 3,
        call: Call::Note(Note::Stray),
        reply: Reply::Noted,
    };
    assert!(rt; read_entry(&plant, b"W1 STRAY = NOTED") == Some(entry));
    Ok(())
}

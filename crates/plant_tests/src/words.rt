//! The words of the command line.

use dp_words::{Form, file_words, form_of};
use plant_model::wrench::Wrench;
use std::alloc::{AllocError, Global};
use std::test::Fail;

fn words_of(alloc: Global, line: &str) -> Result<Vec<String>, AllocError> {
    let mut words = Vec::new(alloc);
    for word in line.split_whitespace() {
        words.push(String::from_str(alloc, word)?)?;
    }
    Ok(words)
}

#[test]
fn words_without_a_form(rt: HostRuntime) -> Result<(), Fail> {
    let alloc = rt.alloc();
    for (line, want) in [
        ("", 1),
        ("fly", 2),
        ("fly --json demo 0 0 0", 2),
        ("-- check demo 0 0 0", 2),
        ("run", 3),
        ("run demo", 3),
        ("run demo -", 3),
        ("run demo - -", 3),
        ("run - - x", 3),
        ("run - x -", 3),
        ("run - - -", 3),
        ("run demo a b c", 3),
        ("run demo a b --json", 3),
        ("run demo a b --workers", 3),
        ("run demo a b --workers -- 2", 3),
        ("run demo a b --workers 0", 3),
        ("run demo a b --workers 9", 3),
        ("run demo a b --workers 12", 3),
        ("run demo a b --workers -", 3),
        ("run demo a b --workers -2", 3),
        ("run demo a --workers b", 3),
        ("run demo a b --workers=", 3),
        ("run demo a b --workers=0", 3),
        ("run demo a b --workers=9", 3),
        ("run demo a b --workers=02", 3),
        ("run demo a b --workersx", 3),
        ("run demo a b --workers 2 --workers 2", 3),
        ("run demo a b --workers=2 --workers=2", 3),
        ("run demo a b --workers 2 --workers=2", 3),
        ("run demo a b --workers --workers=2", 3),
        ("run demo a b -- --workers=2", 3),
        ("replay", 3),
        ("replay demo", 3),
        ("replay demo - x", 3),
        ("replay -x demo -", 3),
        ("replay - -", 3),
        ("replay --json demo -", 3),
        ("replay --workers demo -", 3),
        ("check", 3),
        ("check demo", 3),
        ("check demo 0 0", 3),
        ("check demo 0 0 0 0", 3),
        ("check demo 0 0 0 0 0", 3),
        ("check demo -5 0 0", 3),
        ("check demo 0 0 -", 3),
        ("check demo 0 0 x", 3),
        ("check demo 01 0 0", 3),
        ("check demo +1 0 0", 3),
        ("check demo -- -0 0 0", 3),
        ("check demo 24001 0 0", 3),
        ("check demo -- 0 -24001 0", 3),
        ("check demo 0 0 76800001", 3),
        ("check demo -- 0 0 -76800001", 3),
        ("check demo 0 0 0 --json --json", 3),
        ("check --json demo --json 0 0 0", 3),
        ("check demo 0 0 0 --JSON", 3),
        ("check demo 0 0 0 -- --json", 3),
        ("check demo 0 0 -- --json", 3),
        ("check demo 0 0 0 -- --", 3),
        ("vote", 3),
        ("vote - --report --report", 3),
        ("vote - --json", 3),
        ("vote - -- --report", 3),
        ("vote demo -", 3),
        ("drill", 3),
        ("drill 0", 3),
        ("drill 0 1 2", 3),
        ("drill 0 1 --json", 3),
        ("drill -- -1 1", 3),
        ("drill 4294967296 1", 3),
        ("drill 00 1", 3),
        ("drill 0 0", 3),
        ("drill 0 01", 3),
        ("drill 0 25001", 3),
        ("drill demo 1", 3),
    ] {
        assert_eq!(rt;
            form_of(words_of(alloc, line)?.as_slice()),
            Err(want),
            "at {line}"
        );
    }
    Ok(())
}

#[test]
fn words_of_run(rt: HostRuntime) -> Result<(), Fail> {
    let alloc = rt.alloc();
    for (line, (plant, sensors, operators), workers) in [
        ("run demo a b", (1, 2, 3), 2),
        ("run demo - b", (1, 2, 3), 2),
        ("run - a b", (1, 2, 3), 2),
        ("run demo a b --workers 1", (1, 2, 3), 1),
        ("run demo a --workers 3 b", (1, 2, 5), 3),
        ("run demo --workers 3 a b", (1, 4, 5), 3),
        ("run --workers 8 demo a -", (3, 4, 5), 8),
        ("run --workers=8 demo a -", (2, 3, 4), 8),
        ("run demo --workers=1 a b", (1, 3, 4), 1),
        ("run demo a b --workers=5", (1, 2, 3), 5),
        ("run --workers 4 -- demo -x --", (4, 5, 6), 4),
        ("run demo -- a b", (1, 3, 4), 2),
        ("run demo a b --", (1, 2, 3), 2),
        ("run demo -- --workers 2", (1, 3, 4), 2),
        ("run --workers 4 4 4 4", (3, 4, 5), 4),
    ] {
        let words = words_of(alloc, line)?;
        assert_eq!(rt;
            form_of(words.as_slice()),
            Ok(Form::Run {
                plant,
                sensors,
                operators,
                workers
            }),
            "at {line}"
        );
        assert_eq!(rt;
            file_words(words.as_slice()),
            [Some(plant), Some(sensors), Some(operators)],
            "at {line}"
        );
    }
    Ok(())
}

#[test]
fn words_of_replay(rt: HostRuntime) -> Result<(), Fail> {
    let alloc = rt.alloc();
    for (line, plant, telegrams) in [
        ("replay demo -", 1, 2),
        ("replay demo file", 1, 2),
        ("replay - file", 1, 2),
        ("replay -- demo -x", 2, 3),
        ("replay demo -- -x", 1, 3),
        ("replay demo - --", 1, 2),
        ("replay -- demo --", 2, 3),
    ] {
        let words = words_of(alloc, line)?;
        assert_eq!(rt;
            form_of(words.as_slice()),
            Ok(Form::Replay { plant, telegrams }),
            "at {line}"
        );
        assert_eq!(rt;
            file_words(words.as_slice()),
            [Some(plant), Some(telegrams), None],
            "at {line}"
        );
    }
    Ok(())
}

#[test]
fn words_of_check(rt: HostRuntime) -> Result<(), Fail> {
    let alloc = rt.alloc();
    for (line, plant, (x, y, n), json) in [
        ("check demo 0 0 0", 1, (0, 0, 0), false),
        ("check demo 1 2 3 --json", 1, (1, 2, 3), true),
        ("check --json demo 1 2 3", 2, (1, 2, 3), true),
        ("check demo --json 1 2 3", 1, (1, 2, 3), true),
        ("check --json -- demo -1 2 -3", 3, (-1, 2, -3), true),
        ("check -- demo 0 0 0", 2, (0, 0, 0), false),
        ("check demo -- -5 0 0", 1, (-5, 0, 0), false),
        ("check demo 0 0 0 --", 1, (0, 0, 0), false),
        ("check -- --json 0 0 0", 2, (0, 0, 0), false),
        (
            "check - 24000 24000 76800000",
            1,
            (24_000, 24_000, 76_800_000),
            false,
        ),
        (
            "check - -- -24000 -24000 -76800000",
            1,
            (-24_000, -24_000, -76_800_000),
            false,
        ),
    ] {
        let words = words_of(alloc, line)?;
        let demand = Wrench { x, y, n };
        let form = Form::Check {
            plant,
            demand,
            json,
        };
        assert_eq!(rt; form_of(words.as_slice()), Ok(form), "at {line}");
        assert_eq!(rt;
            file_words(words.as_slice()),
            [Some(plant), None, None],
            "at {line}"
        );
        assert_eq!(rt; form.plant(), Some(plant));
    }
    Ok(())
}

#[test]
fn words_of_vote(rt: HostRuntime) -> Result<(), Fail> {
    let alloc = rt.alloc();
    for (line, telegrams, report) in [
        ("vote -", 1, false),
        ("vote file --report", 1, true),
        ("vote --report -- -x", 3, true),
        ("vote -- --report", 2, false),
    ] {
        let words = words_of(alloc, line)?;
        let form = Form::Vote { telegrams, report };
        assert_eq!(rt; form_of(words.as_slice()), Ok(form), "at {line}");
        assert_eq!(rt;
            file_words(words.as_slice()),
            [Some(telegrams), None, None],
            "at {line}"
        );
        assert_eq!(rt; form.plant(), None);
    }
    Ok(())
}

#[test]
fn words_of_drill(rt: HostRuntime) -> Result<(), Fail> {
    let alloc = rt.alloc();
    for (line, seed, size) in [
        ("drill 0 1", 0, 1),
        ("drill -- 7 20000", 7, 20_000),
        ("drill 4294967295 25000", u32::MAX, 25_000),
    ] {
        let words = words_of(alloc, line)?;
        let form = Form::Drill { seed, size };
        assert_eq!(rt; form_of(words.as_slice()), Ok(form), "at {line}");
        assert_eq!(rt;
            file_words(words.as_slice()),
            [None, None, None],
            "at {line}"
        );
        assert_eq!(rt; form.plant(), None);
    }
    Ok(())
}

//! Entries, an empty history, and checks of the demo as plain text and as JSON.
ghost use Rattle.std.specs.Prelude.{◌≡◌, ◌≤◌, length, pos};
ghost use Rattle.std.specs.Prelude.{◌≤ℤ◌};
ghost use Rattle.plant_model.specs.declared.limits.TheConstants.{MOST_THRUSTERS};

use arrayvec::ArrayVec;
use certificate::{Cuts, Outcome, Place};
use dp_num::Fraction;
use log_text::{Findings, check_json, check_text, command_text, entry_text, log_head, report_text};
use plant_core::{Allocation, Call, Core, Entry, Note, Reply};
use plant_model::demo::demo;
use plant_model::limits::MOST_ENTRIES;
use plant_model::thrust::{Thrust, Thrusts};
use plant_model::wrench::Wrench;
use std::test::Fail;
use telegram::Telegram;
use wrench_geometry::Vec3;

const NOTHING: Wrench = Wrench { x: 0, y: 0, n: 0 };

const NO_THRUST: Thrust = Thrust { x: 0, y: 0 };

fn thrusts(list: &[Thrust]) -> Thrusts
    requires { length list.now ≤ MOST_THRUSTERS }
{
    let mut thrusts = Thrusts::default();
    thrusts.list.try_extend_from_slice(list).unwrap();
    thrusts
}

fn holds() -> Outcome {
    Outcome::Holds {
        choice: 0,
        q: 1,
        thrusts: thrusts(&[NO_THRUST; 4]),
    }
}

fn lost(cut: Vec3) -> Outcome {
    let mut cuts = Cuts {
        list: ArrayVec::new(),
    };
    cuts.list.push(cut);
    Outcome::Lost { cuts }
}

fn allocation(top: i64, bottom: i64) -> Allocation
    requires top { pos 0 ≤ℤ top }
    requires bottom { pos 1 ≤ℤ bottom }
{
    Allocation {
        fraction: Fraction { top, bottom },
        choice: 0,
        q: 1,
        thrusts: thrusts(&[NO_THRUST; 4]),
    }
}

/// What is found of a plant of two groups.
fn findings(first: Outcome, second: Outcome, allocation: Allocation) -> Findings
    ensures { length result.groups.items ≡ 2 }
{
    let mut groups = ArrayVec::new();
    groups.push(first);
    groups.push(second);
    Findings {
        intact: holds(),
        groups,
        allocation,
    }
}

#[test]
fn tells_an_entry_and_an_empty_history(rt: HostRuntime) -> Result<(), Fail> {
    let alloc = rt.alloc();
    let entry = Entry {
        caller: 3,
        call: Call::Note(Note::Stray),
        reply: Reply::Noted,
    };
    assert_eq!(rt;
        entry_text(alloc, &demo(), &entry)?.as_str(),
        "W1 STRAY = NOTED\n"
    );
    assert_eq!(rt; command_text(alloc, &demo(), &entry)?.as_str(), "");
    let core = Core::start(alloc, demo(), MOST_ENTRIES)?;
    assert_eq!(rt; log_head(alloc, core.plant())?.as_str(), "LOG,1,DEMO\n");
    let entry = Entry {
        caller: 2,
        call: Call::Telegram(Telegram::Board),
        reply: Reply::Cells(core.cells()),
    };
    assert_eq!(rt;
        entry_text(alloc, &demo(), &entry)?.as_str(),
        "O BRD = CELLS,0,PENDING,PENDING\n"
    );
    assert_eq!(rt;
        report_text(alloc, &core)?.as_str(),
        "REPORT,0,0\nGROUP,GA,PENDING\nGROUP,GB,PENDING\nEND\n"
    );
    Ok(())
}

#[test]
fn tells_a_verdict_by_the_name_of_its_group(rt: HostRuntime) -> Result<(), Fail> {
    let ahead = Vec3 { x: 1, y: 0, z: 0 };
    let entry = Entry {
        caller: 4,
        call: Call::Publish {
            version: 7,
            group: 1,
            outcome: lost(ahead),
        },
        reply: Reply::Refused {
            place: Place::Cut(3),
        },
    };
    assert_eq!(rt;
        entry_text(rt.alloc(), &demo(), &entry)?.as_str(),
        "W2 PUBLISH,7,GB,LOST,1,1,0,0 = REFUSED,CUT,3\n"
    );
    Ok(())
}

#[test]
fn tells_a_command(rt: HostRuntime) -> Result<(), Fail> {
    let alloc = rt.alloc();
    let entry = Entry {
        caller: 1,
        call: Call::Telegram(Telegram::Position {
            moment: 1000,
            x: -100,
            y: 0,
            heading: 0,
        }),
        reply: Reply::Commanded {
            version: 1,
            demand: Wrench { x: 20, y: 0, n: 0 },
            allocation: allocation(1, 1),
        },
    };
    assert_eq!(rt;
        entry_text(alloc, &demo(), &entry)?.as_str(),
        "C POS,1000,-100,0,0 = COMMANDED,1,20,0,0,1,1,0,1,0,0,0,0,0,0,0,0\n"
    );
    assert_eq!(rt;
        command_text(alloc, &demo(), &entry)?.as_str(),
        "$CMD,1000,1,20,0,0,1,1*54\n\
         $THC,BOW1,0,0,1*05\n\
         $THC,BOW2,0,0,1*06\n\
         $THC,PORT,0,0,1*77\n\
         $THC,STBD,0,0,1*6F\n"
    );
    Ok(())
}

#[test]
fn nothing_is_asked(rt: HostRuntime) -> Result<(), Fail> {
    let alloc = rt.alloc();
    let findings = findings(holds(), holds(), allocation(1, 1));
    let text = check_text(alloc, &demo(), NOTHING, &findings)?;
    assert_eq!(rt;
        text.as_str(),
        "CHECK,0,0,0\n\
         INTACT,HOLDS,0,1,0,0,0,0,0,0,0,0\n\
         GROUP,GA,HOLDS,0,1,0,0,0,0,0,0,0,0\n\
         GROUP,GB,HOLDS,0,1,0,0,0,0,0,0,0,0\n\
         ALLOCATION,1,1,0,1,0,0,0,0,0,0,0,0\n\
         END\n"
    );
    let text = check_json(alloc, &demo(), NOTHING, &findings)?;
    assert_eq!(rt;
        text.as_str(),
        "{\"allocation\":{\"bottom\":\"1\",\"choice\":0,\"q\":\"1\",\
         \"thrusts\":[[\"0\",\"0\"],[\"0\",\"0\"],[\"0\",\"0\"],[\"0\",\"0\"]],\"top\":\"1\"},\
         \"demand\":[0,0,0],\
         \"groups\":[{\"name\":\"GA\",\"outcome\":{\"choice\":0,\"q\":\"1\",\
         \"thrusts\":[[\"0\",\"0\"],[\"0\",\"0\"],[\"0\",\"0\"],[\"0\",\"0\"]],\"verdict\":\"HOLDS\"}},\
         {\"name\":\"GB\",\"outcome\":{\"choice\":0,\"q\":\"1\",\
         \"thrusts\":[[\"0\",\"0\"],[\"0\",\"0\"],[\"0\",\"0\"],[\"0\",\"0\"]],\"verdict\":\"HOLDS\"}}],\
         \"intact\":{\"choice\":0,\"q\":\"1\",\
         \"thrusts\":[[\"0\",\"0\"],[\"0\",\"0\"],[\"0\",\"0\"],[\"0\",\"0\"]],\"verdict\":\"HOLDS\"}}\n"
    );
    Ok(())
}

#[test]
fn a_loss_is_found(rt: HostRuntime) -> Result<(), Fail> {
    let alloc = rt.alloc();
    let ahead = Vec3 { x: 1, y: 0, z: 0 };
    let findings = findings(holds(), lost(ahead), allocation(380, 381));
    let demand = Wrench {
        x: -20,
        y: 381,
        n: -76_800_000,
    };
    let text = check_text(alloc, &demo(), demand, &findings)?;
    assert_eq!(rt;
        text.as_str(),
        "CHECK,-20,381,-76800000\n\
         INTACT,HOLDS,0,1,0,0,0,0,0,0,0,0\n\
         GROUP,GA,HOLDS,0,1,0,0,0,0,0,0,0,0\n\
         GROUP,GB,LOST,1,1,0,0\n\
         ALLOCATION,380,381,0,1,0,0,0,0,0,0,0,0\n\
         END\n"
    );
    let text = check_json(alloc, &demo(), demand, &findings)?;
    assert_eq!(rt;
        text.as_str(),
        "{\"allocation\":{\"bottom\":\"381\",\"choice\":0,\"q\":\"1\",\
         \"thrusts\":[[\"0\",\"0\"],[\"0\",\"0\"],[\"0\",\"0\"],[\"0\",\"0\"]],\"top\":\"380\"},\
         \"demand\":[-20,381,-76800000],\
         \"groups\":[{\"name\":\"GA\",\"outcome\":{\"choice\":0,\"q\":\"1\",\
         \"thrusts\":[[\"0\",\"0\"],[\"0\",\"0\"],[\"0\",\"0\"],[\"0\",\"0\"]],\"verdict\":\"HOLDS\"}},\
         {\"name\":\"GB\",\"outcome\":{\"cuts\":[[\"1\",\"0\",\"0\"]],\"verdict\":\"LOST\"}}],\
         \"intact\":{\"choice\":0,\"q\":\"1\",\
         \"thrusts\":[[\"0\",\"0\"],[\"0\",\"0\"],[\"0\",\"0\"],[\"0\",\"0\"]],\"verdict\":\"HOLDS\"}}\n"
    );
    Ok(())
}

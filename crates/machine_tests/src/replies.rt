//! Replies of each kind.
ghost use Rattle.std.specs.Prelude.{IsTrue};
ghost use Rattle.plant_core.specs.Machine.{is_answer};

use certificate::Place;
use log_text::entry_text;
use plant_core::{Call, Entry, Reply};
use plant_model::demo::demo;
use std::alloc::Global;
use std::process::Abort;
use std::test::Fail;

fn shows(rt: &impl Abort, alloc: Global, reply: Reply, wanted: &str) -> Result<(), Fail>
    requires { IsTrue (is_answer reply) }
{
    let entry = Entry {
        caller: 0,
        call: Call::Close,
        reply,
    };
    let text = entry_text(alloc, &demo(), &entry)?;
    assert_eq!(rt; text.as_str().strip_prefix("S CLOSE = "), Some(wanted));
    Ok(())
}

#[test]
fn tells_what_becomes_of_a_verdict(rt: HostRuntime) -> Result<(), Fail> {
    let alloc = rt.alloc();
    shows(&rt, alloc, Reply::Shown, "SHOWN\n")?;
    shows(&rt, alloc, Reply::Already, "ALREADY\n")?;
    shows(
        &rt,
        alloc,
        Reply::Superseded { latest: 2 },
        "SUPERSEDED,2\n",
    )?;
    shows(&rt, alloc, Reply::Unknown { latest: 0 }, "UNKNOWN,0\n")
}

#[test]
fn tells_where_a_verdict_fails(rt: HostRuntime) -> Result<(), Fail> {
    let cases = [
        (Place::Denominator, "REFUSED,DENOMINATOR\n"),
        (Place::Choice, "REFUSED,CHOICE\n"),
        (Place::ThrustCount, "REFUSED,THRUST-COUNT\n"),
        (Place::Thruster(11), "REFUSED,THRUSTER,11\n"),
        (Place::Sum, "REFUSED,SUM\n"),
        (Place::CutCount, "REFUSED,CUT-COUNT\n"),
        (Place::Cut(63), "REFUSED,CUT,63\n"),
    ];
    for (place, wanted) in cases {
        shows(&rt, rt.alloc(), Reply::Refused { place }, wanted)?;
    }
    Ok(())
}

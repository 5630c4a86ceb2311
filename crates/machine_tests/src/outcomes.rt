//! Outcomes of both kinds.
ghost use Rattle.std.specs.Prelude.{◌≤◌, length};
ghost use Rattle.plant_model.specs.declared.limits.TheConstants.{MOST_CHOICES, MOST_THRUSTERS};

use arrayvec::ArrayVec;
use certificate::{Cuts, Outcome};
use log_text::outcome_text;
use plant_model::demo::demo;
use plant_model::thrust::{Thrust, Thrusts};
use std::alloc::Global;
use std::process::Abort;
use std::test::Fail;
use wrench_geometry::Vec3;

fn holds(choice: u32, q: i64, list: &[Thrust]) -> Outcome
    requires { length list.now ≤ MOST_THRUSTERS }
{
    let mut thrusts = Thrusts::default();
    thrusts.list.try_extend_from_slice(list).unwrap();
    Outcome::Holds { choice, q, thrusts }
}

fn lost(list: &[Vec3]) -> Outcome
    requires { length list.now ≤ MOST_CHOICES }
{
    let mut cuts = Cuts {
        list: ArrayVec::new(),
    };
    cuts.list.try_extend_from_slice(list).unwrap();
    Outcome::Lost { cuts }
}

fn shows(rt: &impl Abort, alloc: Global, outcome: &Outcome, wanted: &str) -> Result<(), Fail> {
    let text = outcome_text(alloc, &demo(), outcome)?;
    assert_eq!(rt; text.as_str(), wanted);
    Ok(())
}

#[test]
fn tells_the_verdict_and_what_shows_it(rt: HostRuntime) -> Result<(), Fail> {
    let alloc = rt.alloc();
    let thrusts = [Thrust { x: 0, y: -200 }, Thrust { x: -1, y: 7 }];
    shows(&rt, alloc, &holds(3, 5, &thrusts), "HOLDS,3,5,0,-200,-1,7")?;
    let cuts = [
        Vec3 {
            x: 100,
            y: 400,
            z: 1,
        },
        Vec3 { x: -1, y: 0, z: 0 },
    ];
    shows(&rt, alloc, &lost(&cuts), "LOST,2,100,400,1,-1,0,0")?;
    shows(&rt, alloc, &lost(&[]), "LOST,0")
}

//! Verdicts of workers, and the board.

use super::*;
use certificate::Place;
use plant_core::{Cell, Cells};

/// The thrusts of BOW2 and STBD to starboard alone.
fn to_starboard(bow2: i128, stbd: i128) -> Outcome {
    holds([
        REST,
        Thrust { x: 0, y: bow2 },
        REST,
        Thrust { x: 0, y: stbd },
    ])
}

/// The board, as an operator asks for it.
fn board(core: &mut Core) -> Option<Cells> {
    match told(core, b"BRD")? {
        Reply::Cells(cells) => Some(cells),
        _ => None,
    }
}

fn is_board(core: &mut Core, latest: u32, list: [Cell; 2]) -> bool {
    match board(core) {
        Some(cells) => cells.latest == latest && cells.list.as_slice() == list.as_slice(),
        None => false,
    }
}

#[test]
fn the_board_is_pending_at_first(rt: HostRuntime) -> Result<(), Fail> {
    let mut core = demo_core(rt.alloc(), 10)?;
    assert!(rt; is_board(&mut core, 0, [Cell::Pending; 2]));
    assert_eq!(rt; core.cells().latest, 0);
    Ok(())
}

const THREE_VERSIONS: [Answer; 3] = [
    (b"TIE,T1,CLOSE", Reply::Version(1)),
    (b"TIE,T1,OPEN", Reply::Version(2)),
    (b"TIE,T1,CLOSE", Reply::Version(3)),
];

const FOURTH_VERSION: [Answer; 1] = [(b"TIE,T1,OPEN", Reply::Version(4))];

/// A verdict of version 3 on the loss of the group, under no demand.
fn of_version_3(core: &mut Core, group: u32) -> Option<Reply> {
    published(core, 3, group, holds([REST; 4]))
}

#[test]
fn the_board_keeps_a_verdict_past_its_version(rt: HostRuntime) -> Result<(), Fail> {
    let mut core = demo_core(rt.alloc(), 10)?;
    assert_eq!(rt; first_other(&mut core, &THREE_VERSIONS), None);
    assert!(rt; matches!(of_version_3(&mut core, 0), Some(Reply::Shown)));
    assert_eq!(rt; first_other(&mut core, &FOURTH_VERSION), None);
    assert!(rt;
        matches!(
            of_version_3(&mut core, 1),
            Some(Reply::Superseded { latest: 4 })
        )
    );
    let seen = Cell::Seen {
        version: 3,
        holds: true,
        current: false,
    };
    assert!(rt; is_board(&mut core, 4, [seen, Cell::Pending]));
    Ok(())
}

const BEYOND_BOW2: Reply = Reply::Refused {
    place: Place::Thruster(1),
};

const OTHER_SUM: Reply = Reply::Refused { place: Place::Sum };

#[test]
fn a_verdict_that_is_not_valid_is_refused(rt: HostRuntime) -> Result<(), Fail> {
    let mut core = to_be_judged(rt.alloc())?;
    assert!(rt; is_judged(&mut core, 1, to_starboard(201, 180), &BEYOND_BOW2));
    assert!(rt; is_judged(&mut core, 1, to_starboard(200, 181), &OTHER_SUM));
    Ok(())
}

#[test]
fn a_verdict_is_shown_once(rt: HostRuntime) -> Result<(), Fail> {
    let mut core = to_be_judged(rt.alloc())?;
    assert!(rt; is_judged(&mut core, 1, to_starboard(200, 180), &Reply::Shown));
    assert!(rt; is_judged(&mut core, 1, to_starboard(200, 180), &Reply::Already));
    let unknown = Reply::Unknown { latest: 1 };
    assert!(rt; is_judged(&mut core, 9, to_starboard(200, 180), &unknown));
    Ok(())
}

//! Parts that are switched, and pieces that are barred.

use super::*;
use frame::Damage;

/// Whether the entry at the place has this reply.
fn is_entry(core: &Core, place: usize, wanted: &Reply) -> bool {
    match core.history().get(place) {
        Some(entry) => entry.reply == *wanted,
        None => false,
    }
}

const SWITCHED: [Answer; 6] = [
    (b"TIE,T1,CLOSE", Reply::Version(1)),
    (b"TIE,T1,CLOSE", Reply::Same),
    (b"THR,BOW1,OUT", Reply::Version(2)),
    (b"GEN,G2,STOP", Reply::Version(3)),
    (b"TIE,BOW1,CLOSE", Reply::UnknownName),
    (b"GEN,G3,RUN", Reply::UnknownName),
];

#[test]
fn parts_are_switched_by_what_stands(rt: HostRuntime) -> Result<(), Fail> {
    let mut core = demo_core(rt.alloc(), 10)?;
    assert_eq!(rt; first_other(&mut core, &SWITCHED), None);
    let status = &core.latest().status;
    assert!(rt; status.closed[0]);
    assert!(rt; !status.selected[0] && status.selected[1]);
    assert!(rt; status.running[0] && !status.running[1]);
    Ok(())
}

#[test]
fn each_answer_has_an_entry(rt: HostRuntime) -> Result<(), Fail> {
    let mut core = demo_core(rt.alloc(), 10)?;
    assert_eq!(rt; first_other(&mut core, &SWITCHED), None);
    assert!(rt; is_noted(&mut core, Note::Damaged(Damage::Cut), &Reply::Noted));
    assert!(rt; is_ended(&mut core, &Reply::Taken));
    assert_eq!(rt; core.events(), 7);
    assert_eq!(rt; core.history().len(), 8);
    assert!(rt; is_entry(&core, 1, &Reply::Same));
    assert_eq!(rt; core.plant().name().bytes(), b"DEMO".as_slice());
    Ok(())
}

const BARRING: [Answer; 4] = [
    (b"BAR,PORT,2,BAR", Reply::NoPiece),
    (b"BAR,NONE,0,BAR", Reply::UnknownName),
    (b"BAR,PORT,1,FREE", Reply::Same),
    (b"BAR,PORT,1,BAR", Reply::Version(1)),
];

const FREEING: [Answer; 2] = [
    (b"BAR,PORT,0,BAR", Reply::Version(2)),
    (b"BAR,PORT,1,FREE", Reply::Version(3)),
];

#[test]
fn pieces_are_barred_and_freed(rt: HostRuntime) -> Result<(), Fail> {
    let mut core = demo_core(rt.alloc(), 10)?;
    assert_eq!(rt; first_other(&mut core, &BARRING), None);
    assert_eq!(rt; core.latest().status.barred[2], 2);
    assert_eq!(rt; first_other(&mut core, &FREEING), None);
    assert_eq!(rt; core.latest().status.barred[2], 1);
    Ok(())
}

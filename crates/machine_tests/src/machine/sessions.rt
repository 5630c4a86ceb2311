//! A full journal, and an ended session.

use super::*;

const FULL: [Answer; 1] = [(b"TIE,T1,CLOSE", Reply::JournalFull)];

#[test]
fn a_full_journal_answers_no_telegram_and_no_note(rt: HostRuntime) -> Result<(), Fail> {
    let mut core = demo_core(rt.alloc(), 2)?;
    assert!(rt; is_noted(&mut core, Note::Stray, &Reply::Noted));
    assert!(rt; is_noted(&mut core, Note::Stray, &Reply::Noted));
    assert!(rt; is_noted(&mut core, Note::Stray, &Reply::JournalFull));
    assert_eq!(rt; first_other(&mut core, &FULL), None);
    assert_eq!(rt; core.history().len(), 2);
    assert_eq!(rt; core.latest().number, 0);
    Ok(())
}

const ENDED: [Answer; 1] = [(b"TIE,T1,CLOSE", Reply::Closed)];

#[test]
fn an_ended_session_answers_nothing(rt: HostRuntime) -> Result<(), Fail> {
    let mut core = demo_core(rt.alloc(), 0)?;
    assert!(rt; is_ended(&mut core, &Reply::Taken));
    assert!(rt; is_ended(&mut core, &Reply::Closed));
    assert_eq!(rt; first_other(&mut core, &ENDED), None);
    assert!(rt; is_judged(&mut core, 0, holds([REST; 4]), &Reply::Closed));
    assert_eq!(rt; core.history().len(), 1);
    assert_eq!(rt; core.latest().number, 0);
    Ok(())
}

//! Displays on one thread, and beside a writer on another.
ghost use Rattle.std.specs.Prelude.{◌≡◌, [], IfOk};

use crate::count::{Count, board_of, look, publish};
use glance::{DISPLAYS, Glance, GlancePass, GlanceWriter};
use no_memory::NoMemory;
use std::alloc::Global;
use std::sync::Wait;
use std::test::Fail;
use std::thread;
use std::thread::{Threads, join};

/// How many numbers a writer publishes beside a display.
const LAST: u32 = 1000;

/// How often a display looks before it gives up.
const LOOKS: u32 = 5_000_000;

fn started(alloc: Global) -> Result<(Glance<Count>, GlanceWriter<Count>), NoMemory>
    ensures glance { IfOk result (λ r. r.1.glance ≡ r.0.glance) }
    ensures list { IfOk result (λ r. r.1.list ≡ []) }
{
    let count = Count { number: 0 };
    Glance::start(alloc, &count, board_of(count))
}

/// What a display shows: at first, after a board that it wasn't told of, once it was told, and
/// after one more board.
fn looked_at<R: Wait>(
    rt: &R,
    glance: &Glance<Count>,
    writer: &mut GlanceWriter<Count>,
) -> Result<([u32; 4], GlancePass<Count>), NoMemory>
    requires glance { writer.old.glance ≡ glance.now.glance }
    requires list { writer.old.list ≡ [] }
    ensures { IfOk result (λ r. r.1.glance ≡ glance.now.glance) }
{
    let mut display = glance.display()?;
    let first = look(glance, &mut display);
    publish(rt, writer, 1)?;
    let untold = look(glance, &mut display);
    writer.tell(rt, &mut display);
    let told = look(glance, &mut display);
    publish(rt, writer, 2)?;
    let later = look(glance, &mut display);
    Ok(([first, untold, told, later], display))
}

#[test]
fn a_display_sees_more_once_it_was_told(rt: HostRuntime) -> Result<(), Fail> {
    let (glance, mut writer) = started(rt.alloc())?;
    let looks = looked_at(&rt, &glance, &mut writer);
    writer.end(&rt);
    let (numbers, mut display) = looks?;
    assert_eq!(rt; numbers, [0, 0, 1, 2]);
    assert_eq!(rt; look(&glance, &mut display), 2);
    Ok(())
}

/// What a display shows that was told when every place was taken, and then after one more board.
fn looked_at_with_no_place<R: Wait>(
    rt: &R,
    alloc: Global,
    glance: &Glance<Count>,
    writer: &mut GlanceWriter<Count>,
) -> Result<(u32, u32), NoMemory>
    requires glance { writer.old.glance ≡ glance.now.glance }
    requires list { writer.old.list ≡ [] }
{
    let mut displays = Vec::new(alloc);
    for _ in 0..DISPLAYS {
        let mut display = glance.display()?;
        writer.tell(rt, &mut display);
        displays.push(display)?;
    }
    let mut extra = glance.display()?;
    writer.tell(rt, &mut extra);
    let told = look(glance, &mut extra);
    publish(rt, writer, 1)?;
    Ok((told, look(glance, &mut extra)))
}

#[test]
fn a_display_with_no_place_keeps_its_board(rt: HostRuntime) -> Result<(), Fail> {
    let (glance, mut writer) = started(rt.alloc())?;
    let looks = looked_at_with_no_place(&rt, rt.alloc(), &glance, &mut writer);
    writer.end(&rt);
    assert_eq!(rt; looks?, (0, 0));
    Ok(())
}

/// Publishes the numbers up to this one, and says whether each was published.
fn publish_all<R: Wait>(rt: &R, writer: &mut GlanceWriter<Count>, last: u32) -> bool
    requires { writer.old.list ≡ [] }
{
    let mut published = true;
    for number in 0..last {
        published = publish(rt, writer, number + 1).is_ok() && published;
    }
    published
}

/// Looks again and again until this number is shown, and says whether it was.
fn watch(glance: &Glance<Count>, mut display: GlancePass<Count>, number: u32) -> bool
    requires { display.glance ≡ glance.now.glance }
{
    for _ in 0..LOOKS {
        if look(glance, &mut display) == number {
            return true;
        }
        thread::yield_now();
    }
    false
}

/// A writer publishes while a display on another thread looks. Says whether each number was
/// published, and whether the last was seen.
fn beside<R: Threads + Wait + Sync>(
    rt: &R,
    glance: &Glance<Count>,
    display: GlancePass<Count>,
    writer: &mut GlanceWriter<Count>,
) -> (bool, bool)
    requires glance { display.glance ≡ glance.now.glance }
    requires list { writer.old.list ≡ [] }
{
    join(
        rt,
        move || -> bool
            requires { writer.now.list ≡ [] }
        { publish_all(rt, writer, LAST) },
        move || -> bool
            requires { display.glance ≡ glance.now.glance }
        { watch(glance, display, LAST) },
    )
}

#[test]
fn a_display_looks_beside_its_writer(rt: HostRuntime) -> Result<(), Fail> {
    let (glance, mut writer) = started(rt.alloc())?;
    let Ok(mut display) = glance.display() else {
        unreachable!()
    };
    writer.tell(&rt, &mut display);
    let ends = beside(&rt, &glance, display, &mut writer);
    writer.end(&rt);
    assert_eq!(rt; ends, (true, true));
    Ok(())
}

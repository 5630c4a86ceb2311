//! One line of a log after those before it.
ghost use Rattle.std.specs.Prelude.{◌≡◌, Ok, true, false, IsTrue, OnErr};
ghost use Rattle.plant_core.specs.Machine.{IsCall, is_answer};
ghost use Rattle.log_audit.specs.Lines.{HasNames};
ghost use Rattle.log_audit.specs.Steps.{HasTaken, HasTold, MayStand, NoneMayFollow, StaysBehind};

use crate::beside::is_also_right;
use log_reading::read_entry;
use plant_core::{Allocate, Core, Entry, NoMemory};

/// Takes the call of an entry into the machine. False where the entry may not stand next: the machine's own reply is
/// another, and not by its thrusts alone. `NoMemory` changes nothing.
pub(crate) fn take<A: Allocate>(
    core: &mut Core,
    entry: Entry,
    allocator: &A,
) -> Result<bool, NoMemory>
    requires call { IsCall core.old.plant entry.call }
    requires answered { IsTrue (is_answer entry.reply) }
    ensures taken { result ≡ Ok true → HasTaken core.old core.new entry }
    ensures none { result ≡ Ok false → ¬ MayStand core.old entry }
    ensures behind { StaysBehind core.old core.new }
    ensures kept { OnErr result (core.new ≡ core.old) }
{
    let status = core.latest().status;
    let own = core.apply(entry.caller, entry.call, allocator)?;
    Ok(is_also_right(core.plant(), &status, &own, &entry.reply))
}

/// Takes the call of a line's entry into the machine. False where no entry of the line may stand next. `NoMemory`
/// changes nothing.
pub(crate) fn step<A: Allocate>(
    core: &mut Core,
    line: &[u8],
    allocator: &A,
) -> Result<bool, NoMemory>
    requires { HasNames core.old.plant }
    ensures taken { result ≡ Ok true → HasTold core.old core.new line.now }
    ensures none { result ≡ Ok false → NoneMayFollow core.old line.now }
    ensures behind { StaysBehind core.old core.new }
    ensures kept { OnErr result (core.new ≡ core.old) }
{
    match read_entry(core.plant(), line) {
        Some(entry) => take(core, entry, allocator),
        None => Ok(false),
    }
}

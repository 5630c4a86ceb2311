//! The machine with its history.
ghost use Rattle.std.specs.Prelude.{◌≡◌, ◌≤◌, [], IfOk, OnErr};
ghost use Rattle.plant_core.specs.Board.{cells_of};
ghost use Rattle.plant_core.specs.Laws.{CellsAreLastShown, EmptyIsLegal, EveryInterleavingIsLegal};
ghost use Rattle.plant_core.specs.Laws.{LegalBySteps, ShownVerdictsAreValid, StandBySteps};
ghost use Rattle.plant_core.specs.Machine.{IsAllowed, IsCall, IsLegal, after_reply, is_full};
ghost use Rattle.plant_core.specs.Machine.{opening, stand_of, state_of};

use crate::alarming::{alarm, notice_of};
use crate::answer::answer;
use crate::board::cells;
use crate::call::{Call, Entry, Reply};
use crate::state::State;
use alarm_log::Alarms;
pub use no_memory::NoMemory;
use pid::{Controller, Fix};
use plant_model::board::Cells;
use plant_model::limits::{MOST_ENTRIES, MOST_GROUPS};
use plant_model::plant::Plant;
use plant_model::status::Version;
use plant_model::wrench::{Load, Wrench};
use std::alloc::Global;
use std::marker::Model;
use thrust_allocation::Allocate;

/// A plant with the history of the calls that it answered, which is legal for the plant and the limit of telegrams
/// and notes. Contracts see these three.
#[derive(Debug, Drop)]
pub struct Core {
    plant: Plant,
    limit: u32,
    state: State,
    alarms: Alarms,
    history: Vec<Entry>,
}

impl Model for Core {
    ghost use Rattle.plant_core.specs.Machine.{CoreView};

    ghost Value = { CoreView };

    ghost use Rattle.plant_core.specs.Kept.{IsKept};

    ghost view = { λ core. record {
      plant = core.plant;
      limit = core.limit;
      history = core.history.items;
    } };

    ghost invariant = { λ core.
        IsKept core.plant core.limit core.state core.alarms core.history.items };
}

/// What the plant is at its opening.
fn opening(plant: &Plant) -> State
    ensures { result ≡ opening plant.now }
{
    let latest = Version {
        number: 0,
        status: *plant.opening(),
        demand: Wrench::default(),
    };
    State {
        latest,
        demand: Wrench::default(),
        is_manual: false,
        manual: Wrench::default(),
        set_point: Fix::default(),
        controller: Controller::new(*plant.gains()),
        last_position: None,
        last_wind: None,
        wind: Load::default(),
        shown: [None; MOST_GROUPS],
        events: 0,
        is_closed: false,
    }
}

/// Whether the call is a telegram or a note, and as many of these as the limit were answered.
fn is_full(limit: u32, state: &State, call: &Call) -> bool
    ensures { result ≡ is_full limit state.now call.now }
{
    matches!(call, Call::Telegram(_) | Call::Note(_)) && limit <= state.events
}

impl Core {
    /// The plant at its opening, in automatic mode, with nothing asked of the thrusters, nothing shown of any group, no
    /// alarm raised and no call answered. The limit of telegrams and notes is at most [`MOST_ENTRIES`].
    pub fn start(alloc: Global, plant: Plant, limit: u32) -> Result<Core, NoMemory>
        requires { limit ≤ MOST_ENTRIES }
        ensures { IfOk result
            (λ core. core ≡ record { plant = plant; limit = limit; history = [] }) }
    {
        let state = opening(&plant);
        Ok(Core {
            plant,
            limit,
            state,
            alarms: Alarms::new(alloc)?,
            history: Vec::new(alloc),
        })
    }

    /// Answers a call, whose telegram is within its ranges, or whose group is below the plant's count. A position is
    /// answered with what the allocator gives. The call becomes the last entry of the history, but where the reply is
    /// `Closed`, since a session was ended, or `JournalFull`, since as many telegrams and notes as the limit were
    /// answered. These two, and `NoMemory`, change nothing.
    pub fn apply<A: Allocate>(
        &mut self,
        caller: u32,
        call: Call,
        allocator: &A,
    ) -> Result<Reply, NoMemory>
        requires { IsCall self.old.plant call }
        ensures allowed { IfOk result
            (λ reply. IsAllowed self.old.plant self.old.limit (stand_of self.old) call reply) }
        ensures history { IfOk result (λ reply. self.new
            ≡ after_reply self.old (record { caller = caller; call = call; reply = reply })) }
        ensures kept { OnErr result (self.new ≡ self.old) }
    {
        if self.state.is_closed {
            return Ok(Reply::Closed);
        }
        if is_full(self.limit, &self.state, &call) {
            return Ok(Reply::JournalFull);
        }
        let (reply, next) = answer(&self.plant, &self.state, &self.alarms, &call, allocator);
        let notice = notice_of(&call, &reply);
        let entry = Entry {
            caller,
            call,
            reply: reply.clone()?,
        };
        self.history.push(entry)?;
        alarm(&mut self.alarms, &self.state, &next, notice);
        self.state = next;
        Ok(reply)
    }

    pub fn plant(&self) -> &Plant
        ensures { result.now ≡ self.now.plant }
    {
        &self.plant
    }

    /// The latest version.
    pub fn latest(&self) -> &Version
        ensures { result.now ≡ (state_of self.now).latest }
    {
        &self.state.latest
    }

    /// How many telegrams and notes were answered.
    pub fn events(&self) -> u32
        ensures { result ≡ (state_of self.now).events }
    {
        self.state.events
    }

    /// The board.
    pub fn cells(&self) -> Cells
        ensures { result ≡ cells_of self.now.plant (state_of self.now) }
    {
        cells(&self.plant, &self.state)
    }

    /// The alarms.
    pub fn alarms(&self) -> &Alarms
        ensures { result.now ≡ (stand_of self.now).alarms }
    {
        &self.alarms
    }

    /// The answered calls, in order.
    pub fn history(&self) -> &[Entry]
        ensures entries { result.now ≡ self.now.history }
        ensures legal { IsLegal self.now.plant self.now.limit self.now.history }
    {
        self.history.as_slice()
    }
}

/// A history with no entry is legal. One with a last entry is legal exactly where the entries before it are legal,
/// its call is within its ranges, and its reply is allowed as the machine stands after them and has an entry. How the
/// machine stands after it follows from how it stood before.
pub fn legal_by_steps()
    ensures empty { EmptyIsLegal }
    ensures steps { LegalBySteps }
    ensures stands { StandBySteps }
{}

/// Whatever calls of whatever callers are applied to a core, one after another, the history has those that were
/// answered, in that order, and is legal.
pub fn every_interleaving_is_legal()
    ensures { EveryInterleavingIsLegal }
{}

/// In every legal history each verdict that was shown is about the version that was the latest then, and valid for it
/// and for the loss of its group. The board shows of each group the last one that was shown.
pub fn shown_verdicts_are_valid()
    ensures valid { ShownVerdictsAreValid }
    ensures cells { CellsAreLastShown }
{}

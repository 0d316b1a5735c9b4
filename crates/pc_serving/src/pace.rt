//! Points that are taken between the lines of a store that is served.
ghost use Rattle.std.specs.Prelude.{◌≡◌, ◌+◌, ◌-◌, ◌^◌, min, true};
ghost use Rattle.pc_model.specs.History.{History};
ghost use Rattle.pc_engine.specs.Stands.{Stands};
ghost use Rattle.pc_engine.specs.Store.{setting_of};
ghost use Rattle.pc_serving.specs.Points.{due_in, pace_after_reply, IsShelvedAs, IsTurn};

use pc_engine::World;
use pc_types::{Event, FileNo, Phase, Refusal, Reply};

/// The checkpointer's act at its turn.
#[derive(Clone, Copy, Debug, PartialEq, Eq)]
pub enum Turned {
    /// Nothing was due, or what was asked isn't to be had yet.
    Nothing,
    /// It has gone on.
    On,
    /// The point's file is on the shelf, under this number.
    Shelved(FileNo),
}

/// When the points of a store that is served are taken: after a number of commits one begins, and goes on by an event at each turn.
#[derive(Drop)]
pub struct Pace {
    every: u64,
    commits: u64,
    // In capture, keys of the point are left.
    has_left: bool,
}

impl Pace {
    /// The number of commits after which a point begins; with 0 none does.
    pub fn new(every: u64) -> Pace
        ensures { result ≡ record { every = every; commits = 0; has_left = true } }
    {
        Pace {
            every,
            commits: 0,
            has_left: true,
        }
    }

    /// A transaction was committed; the count stays at the greatest of 64 bits.
    pub fn note_commit(&mut self)
        ensures { self.new ≡ record self.old { commits = min (self.old.commits + 1) (2 ^ 64 - 1) } }
    {
        self.commits = self.commits.saturating_add(1);
    }

    // The event that ends the phase, or takes a key in capture; nothing if no point is due.
    fn due(&self, phase: Phase) -> Option<Event>
        ensures { result ≡ due_in self.now phase }
    {
        match phase {
            Phase::Rest if self.every == 0 || self.commits < self.every => None,
            Phase::Rest => Some(Event::StartPoint),
            Phase::Prepare => Some(Event::Seal),
            Phase::Resolve => Some(Event::OpenCapture),
            Phase::Capture if self.has_left => Some(Event::Take),
            Phase::Capture => Some(Event::Done),
            Phase::Complete => Some(Event::Rest),
        }
    }

    // Notes how the event was answered.
    fn note(&mut self, reply: &Reply) -> Result<Turned, Refusal>
        ensures told { IsShelvedAs reply.now result }
        ensures noted { self.new ≡ pace_after_reply self.old reply.now }
    {
        match reply {
            Reply::Refused(why) => Err(*why),
            Reply::NotYet(_) => Ok(Turned::Nothing),
            Reply::PartDone(_, file, _) => Ok(Turned::Shelved(*file)),
            Reply::NoneLeft => {
                self.has_left = false;
                Ok(Turned::On)
            }
            Reply::Phase(Phase::Prepare, _) => {
                self.commits = 0;
                self.has_left = true;
                Ok(Turned::On)
            }
            _ => Ok(Turned::On),
        }
    }

    /// Asks the next event of the point's cycle, if one is due: whatever history the store represents, it then represents that
    /// history, or that followed by the event that is due with its legal reply. It reports a file if and only if the reply put one
    /// on the shelf, and refuses if and only if the event was refused, as it was.
    pub fn go_on(&mut self, world: &mut World) -> Result<Turned, Refusal>
        ensures setting { setting_of world.new ≡ setting_of world.old }
        ensures turn { (history : History) → Stands world.old history → (next : History) × Stands world.new next × IsTurn (setting_of world.old) self.old history self.new next result }
    {
        let Some(event) = self.due(world.phase()) else {
            return Ok(Turned::Nothing);
        };
        let reply = world.step(&event);
        self.note(&reply)
    }
}

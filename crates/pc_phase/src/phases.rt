//! The phase and the point, with how many transactions of each class are active.
ghost use Rattle.std.specs.Prelude.{◌≡◌, ◌<◌, ◌↔◌, ◌+◌, ◌-◌, ◌^◌, Some, None, IsOk, OnOk, IfErr, OnErr};
ghost use Rattle.pc_types.specs.declared.Phase.TheVariants.{Rest};
ghost use Rattle.pc_model.specs.History.{class_in};
ghost use Rattle.pc_types.specs.Phases.{same_phase};
ghost use Rattle.pc_phase.specs.Phases.{active_count, entered, left, obstacle_count, held_back, advanced, some_left, ArePhasesSound};

use crate::change::{Change, Held};
use pc_types::{Class, Phase, Point};
use std::marker::Model;

/// The phase of a checkpoint's cycle, the last point that was begun, and how many transactions of each class are active.
/// The phase in which a transaction begins gives it its class. In each phase only certain classes may be active: in
/// rest Before, in prepare Before and During, in resolve During and After, in capture After, and in complete Before and
/// After. A point is a number from 1 to 65,535; in rest there may be none yet, which is 0.
#[derive(Drop)]
pub struct Phases {
    phase: Phase,
    point: Point,
    before: u32,
    during: u32,
    after: u32,
}

impl Model for Phases {
    ghost use Rattle.pc_phase.specs.Phases.{Phases, ArePhasesSound};

    ghost Value = { Phases };

    ghost view = { λ a. record { phase = a.phase; point = a.point; before = a.before; during = a.during; after = a.after } };

    ghost invariant = { λ a. ArePhasesSound (record { phase = a.phase; point = a.point; before = a.before; during = a.during; after = a.after }) };
}

impl Phases {
    /// Rest before the first cycle: no point was begun, and no transaction is active.
    pub fn new() -> Phases
        ensures { result ≡ record { phase = Rest; point = 0; before = 0; during = 0; after = 0 } }
    {
        Phases {
            phase: Phase::Rest,
            point: Point(0),
            before: 0,
            during: 0,
            after: 0,
        }
    }

    /// The phase.
    pub fn phase(&self) -> Phase
        ensures { result ≡ self.now.phase }
    {
        let Phases { phase, .. } = self;
        *phase
    }

    /// The last point that was begun, from 1 to 65,535; 0 if none was.
    pub fn point(&self) -> Point
        ensures { result ≡ self.now.point }
    {
        let Phases { point, .. } = self;
        *point
    }

    /// The number of active transactions of the class.
    pub fn active(&self, class: Class) -> u32
        ensures { result ≡ active_count self.now class }
    {
        match class {
            Class::Before => self.before,
            Class::During => self.during,
            Class::After => self.after,
        }
    }

    /// A transaction begins, and is active in the class of the phase. It is given its class, by which it leaves. Fewer than
    /// 4,294,967,295 of that class may be active before.
    pub fn enter(&mut self) -> Class
        requires { active_count self.old (class_in self.old.phase) < 2 ^ 32 - 1 }
        ensures class { result ≡ class_in self.old.phase }
        ensures entered { self.new ≡ entered self.old (class_in self.old.phase) }
        ensures sound { ArePhasesSound self.new }
    {
        let class = class_in(self.phase);
        match class {
            Class::Before => self.before += 1,
            Class::During => self.during += 1,
            Class::After => self.after += 1,
        }
        class
    }

    /// A transaction of the class, of which one is active, ends.
    pub fn leave(&mut self, class: Class)
        requires { 0 < active_count self.old class }
        ensures left { self.new ≡ left self.old class }
        ensures sound { ArePhasesSound self.new }
    {
        match class {
            Class::Before => self.before -= 1,
            Class::During => self.during -= 1,
            Class::After => self.after -= 1,
        }
    }

    // The number of obstacles to the change, if that many keys of the point are left to take.
    fn count(&self, change: Change, left: u32) -> u32
        ensures { result ≡ obstacle_count change self.now left }
    {
        match change {
            Change::StartPoint => 0,
            Change::Seal => self.before,
            Change::OpenCapture => self.during,
            Change::Done => left,
            Change::Rest => self.after,
        }
    }

    /// The obstacle to the change, if that many keys of the point are left to take; `None` if it is allowed. `left` counts
    /// at Done alone. `WrongPhase` if the phase is another, else `PointsFull` if a cycle would begin after the point
    /// 65,535, else `NotYet` with the number of transactions, or keys, that hold it back.
    pub fn held_back(&self, change: Change, left: u32) -> Option<Held>
        ensures { result ≡ held_back self.now change left }
    {
        if !self.phase.is(change.from_phase()) {
            return Some(Held::WrongPhase);
        }
        if change.lacks_point(self.point) {
            return Some(Held::PointsFull);
        }
        not_yet(self.count(change, left))
    }

    /// Changes the phase, and at StartPoint the point to the next one, if nothing holds it back. Otherwise it gives what
    /// does, and nothing changed. The active transactions stay as they are.
    pub fn advance(&mut self, change: Change, left: u32) -> Result<(), Held>
        ensures allowed { IsOk result ↔ (held_back self.old change left ≡ None) }
        ensures ok { OnOk result (self.new ≡ advanced self.old change) }
        ensures held { IfErr result (λ held. held_back self.old change left ≡ Some held) }
        ensures err { OnErr result (self.new ≡ self.old) }
        ensures sound { ArePhasesSound self.new }
    {
        if let Some(held) = self.held_back(change, left) {
            return Err(held);
        }
        self.point = change.point_after(self.point);
        self.phase = change.to_phase();
        Ok(())
    }
}

// The class of a transaction that begins in the phase.
fn class_in(phase: Phase) -> Class
    ensures { result ≡ class_in phase }
{
    match phase {
        Phase::Rest | Phase::Complete => Class::Before,
        Phase::Prepare => Class::During,
        Phase::Resolve | Phase::Capture => Class::After,
    }
}

// A change is held back as long as some are left.
fn not_yet(count: u32) -> Option<Held>
    ensures { result ≡ some_left count }
{
    if count == 0 {
        return None;
    }
    Some(Held::NotYet(count))
}

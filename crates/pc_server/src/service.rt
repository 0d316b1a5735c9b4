//! The store that is served, with the devices to which its log and its answers go.
ghost use Rattle.std.specs.Prelude.{◌≡◌, ◌⊎◌, ◌≤◌, ◌+◌, ◌++◌, ◌∷◌, [], not, ℕ, List, length, Option, option_copied, Ok, OnOk, OnErr, IfOk, IfErr, MatchResult};
ghost use Rattle.pc_io.specs.Tallies.{inner_of};
ghost use Rattle.pc_types.specs.declared.Step.{Step};
ghost use Rattle.pc_model.specs.History.{History};
ghost use Rattle.pc_model.specs.Replies.{Setting};
ghost use Rattle.pc_engine.specs.Stands.{Stands};
ghost use Rattle.pc_engine.specs.Store.{setting_of};
ghost use Rattle.pc_model.specs.Files.{file_at};
ghost use Rattle.pc_serving.specs.Points.{IsShelvedAs};
ghost use Rattle.pc_serving.specs.Requests.{request_of};
ghost use Rattle.pc_serving.specs.declared.pace.Turned.TheVariants as turned;
ghost use Rattle.pc_turn.specs.Devices.{Grows};
ghost use Rattle.pc_turn.specs.Turns.{AreMarks};
ghost use Rattle.pc_server.specs.Acts.{Act, AnswersRequest, is_quit};
ghost use Rattle.pc_server.specs.Acts.Act.{Answered, WentOn};
ghost use Rattle.pc_server.specs.Generations.{is_filled};
ghost use Rattle.pc_server.specs.Inputs.{ServesOn};
ghost use Rattle.pc_server.specs.Services.{Holds, IsCutOff};

use crate::server::Server;
use pc_engine::World;
use pc_io::Tally;
use pc_part::Part;
use pc_serving::Turned;
use pc_turn::{LogDevice, TurnEnd};
use pc_types::{FileNo, Refusal};
use std::alloc::Global;
use std::io::Write;

/// Which device failed at the end of a turn.
#[derive(Clone, Copy, Debug, PartialEq, Eq)]
pub enum CutOff {
    /// The log's: no answer of the turn was sent.
    Log,
    /// The answers', once the log was written.
    Answers,
}

/// A store that is served in turns, with the log's device and the output for answers.
#[derive(Drop)]
pub struct Service<L: Drop, W: Drop> {
    server: Server,
    log: L,
    out: Tally<W>,
}

impl<L: LogDevice + Drop, W: Write + Drop> Service<L, W> {
    /// The store is served from now on, as `Server::new` says. What the log's device has, a header say, has to be kept.
    pub fn new(
        alloc: Global,
        world: World,
        every: u64,
        lag: usize,
        log: L,
        out: Tally<W>,
    ) -> Service<L, W>
        ensures holds { Stands world [] → Grows (L.written log) (L.kept log) → Holds L.written L.kept W.contents (L.written log) (W.contents (inner_of out)) (setting_of world) [] [] [] [] result }
        ensures serves { Stands world [] → Grows (L.written log) (L.kept log) → (input : Option (List ℕ)) → ServesOn L.written L.kept W.contents (L.written log) (W.contents (inner_of out)) input (setting_of world) lag input [] result }
    {
        let server = Server::new(alloc, world, every, lag);
        Service { server, log, out }
    }

    /// The log's device and the output.
    pub fn into_devices(self) -> (L, Tally<W>)
        ensures { result ≡ (self.log, self.out) }
    {
        let Service {
            server: _,
            log,
            out,
        } = self;
        (log, out)
    }

    /// The store, which is served no more, and the output.
    pub fn into_world(self) -> (World, Tally<W>)
        ensures { result ≡ (self.server.served.world, self.out) }
    {
        let Service {
            server,
            log: _,
            out,
        } = self;
        (server.into_world(), out)
    }

    /// Answers a line, as `Server::answer` does; nothing goes out.
    pub fn answer(&mut self, alloc: Global, line: &[u8]) -> Result<bool, Refusal>
        ensures answered { (st : Setting) (log out : Option (List ℕ)) (gone turn : List Act) (at history : History) → Holds L.written L.kept W.contents log out st gone at turn history self.old
            → OnOk result ((text : List ℕ) × (next : History) × AnswersRequest st history (request_of line.now) text next × Holds L.written L.kept W.contents log out st gone at (Answered line.now text ∷ turn) next self.new) }
        ensures goes_on { IfOk result (λ goes_on. goes_on ≡ not (is_quit (request_of line.now))) }
        ensures refusals { IfErr result (λ e. e ≡ Refusal.OutOfMemory) }
        ensures devices { (self.new.log ≡ self.old.log) × (self.new.out ≡ self.old.out) }
        ensures lag { self.new.server.lag ≡ self.old.server.lag }
    {
        self.server.answer(alloc, line)
    }

    /// Asks the next event of the point's cycle, if one is due, as `Server::go_on` does; nothing goes out.
    pub fn go_on(&mut self) -> Result<Turned, Refusal>
        ensures went { (st : Setting) (log out : Option (List ℕ)) (gone turn : List Act) (at history : History) → Holds L.written L.kept W.contents log out st gone at turn history self.old
            → (Holds L.written L.kept W.contents log out st gone at turn history self.new × (result ≡ Ok turned.Nothing))
            ⊎ ((step : Step) × Holds L.written L.kept W.contents log out st gone at (WentOn step ∷ turn) (step ∷ history) self.new × IsShelvedAs step.reply result) }
        ensures devices { (self.new.log ≡ self.old.log) × (self.new.out ≡ self.old.out) }
        ensures lag { self.new.server.lag ≡ self.old.server.lag }
    {
        self.server.go_on()
    }

    /// The shelf's file of this number.
    pub fn file(&self, number: FileNo) -> Option<&Part>
        ensures { option_copied result ≡ file_at self.now.server.served.world.shelf number }
    {
        self.server.file(number)
    }

    /// Whether the generation is full, as `Server::is_filled` says.
    pub fn is_filled(&self, entries: usize) -> bool
        ensures { result ≡ is_filled entries self.now.server.served.world }
    {
        self.server.is_filled(entries)
    }

    /// Ends the turn: the new log entries are written, all are kept if more than the lag aren't, and then the answers of the turn are
    /// sent. If a device fails, only the answers sent before were sent, or a prefix of them with those of this turn, and of the log as
    /// it was then all is written, and at most as many entries as the lag are not kept.
    pub fn end_turn(&mut self, alloc: Global) -> Result<(), CutOff>
        requires within { AreMarks self.old.server.served.world.log self.old.server.marks }
        ensures ended { (st : Setting) (log out : Option (List ℕ)) (gone turn : List Act) (at history : History) → Holds L.written L.kept W.contents log out st gone at turn history self.old
            → MatchResult result
            (λ _. Holds L.written L.kept W.contents log out st (turn ++ gone) history [] history self.new)
            (λ _. IsCutOff L.written L.kept W.contents log out st self.old.server.lag gone at turn history self.new.log (inner_of self.new.out)
            ⊎ IsCutOff L.written L.kept W.contents log out st self.old.server.lag (turn ++ gone) history [] history self.new.log (inner_of self.new.out)) }
        ensures lag { self.new.server.lag ≡ self.old.server.lag }
    {
        let lag = self.server.lag();
        self.end_with(alloc, lag)
    }

    /// The last turn ends, as `end_turn` does, but all of the log is kept, whatever the lag. The store is as it was.
    pub fn close(&mut self, alloc: Global) -> Result<(), CutOff>
        requires within { AreMarks self.old.server.served.world.log self.old.server.marks }
        ensures ended { (st : Setting) (log out : Option (List ℕ)) (gone turn : List Act) (at history : History) → Holds L.written L.kept W.contents log out st gone at turn history self.old
            → MatchResult result
            (λ _. Holds L.written L.kept W.contents log out st (turn ++ gone) history [] history self.new)
            (λ _. IsCutOff L.written L.kept W.contents log out st self.old.server.lag gone at turn history self.new.log (inner_of self.new.out)
            ⊎ IsCutOff L.written L.kept W.contents log out st self.old.server.lag (turn ++ gone) history [] history self.new.log (inner_of self.new.out)) }
        ensures all { OnOk result (length self.new.server.served.world.log ≤ self.new.server.marks.kept) }
        ensures same { (self.new.server.lag ≡ self.old.server.lag) × (self.new.server.served ≡ self.old.server.served) }
    {
        self.end_with(alloc, 0)
    }

    // The turn ends with this lag, which is at most the server's own.
    fn end_with(&mut self, alloc: Global, lag: usize) -> Result<(), CutOff>
        requires within { AreMarks self.old.server.served.world.log self.old.server.marks }
        requires lag { lag ≤ self.old.server.lag }
        ensures ended { (st : Setting) (log out : Option (List ℕ)) (gone turn : List Act) (at history : History) → Holds L.written L.kept W.contents log out st gone at turn history self.old
            → MatchResult result
            (λ _. Holds L.written L.kept W.contents log out st (turn ++ gone) history [] history self.new)
            (λ _. IsCutOff L.written L.kept W.contents log out st self.old.server.lag gone at turn history self.new.log (inner_of self.new.out)
            ⊎ IsCutOff L.written L.kept W.contents log out st self.old.server.lag (turn ++ gone) history [] history self.new.log (inner_of self.new.out)) }
        ensures all { OnOk result (length self.new.server.served.world.log ≤ self.new.server.marks.kept + lag) }
        ensures same { (self.new.server.lag ≡ self.old.server.lag) × (self.new.server.served ≡ self.old.server.served) }
    {
        match self
            .server
            .end_turn(alloc, lag, &mut self.log, &mut self.out)
        {
            TurnEnd::Whole => Ok(()),
            TurnEnd::LogCut => Err(CutOff::Log),
            TurnEnd::AnswersCut => Err(CutOff::Answers),
        }
    }
}

//! The store that is served, in turns.
ghost use Rattle.std.specs.Prelude.{◌≡◌, ◌⊎◌, ◌≤◌, ◌+◌, ◌++◌, ◌∷◌, [], not, true, ℕ, List, length, option_copied, Some, Ok, OnOk, IfOk, IfErr};
ghost use Rattle.pc_io.specs.Tallies.{Puts, inner_of};
ghost use Rattle.pc_types.specs.declared.Step.{Step};
ghost use Rattle.pc_model.specs.History.{History, log_of};
ghost use Rattle.pc_model.specs.Replies.{Setting};
ghost use Rattle.pc_engine.specs.Stands.{Stands};
ghost use Rattle.pc_engine.specs.Store.{setting_of};
ghost use Rattle.pc_model.specs.Files.{file_at};
ghost use Rattle.pc_turn.specs.Turns.{AreMarks, TurnEnds};
ghost use Rattle.pc_serving.specs.Points.{IsShelvedAs};
ghost use Rattle.pc_serving.specs.Requests.{request_of};
ghost use Rattle.pc_serving.specs.declared.pace.Turned.TheVariants as turned;
ghost use Rattle.pc_serving.specs.OpenSessions.{open_now};
ghost use Rattle.pc_server.specs.Acts.{Act, AnswersRequest, answers_of, committed_in, is_quit, run_line, stats_line};
ghost use Rattle.pc_server.specs.Acts.Act.{Answered, WentOn};
ghost use Rattle.pc_serving.specs.declared.request.Request.TheVariants as request;
ghost use Rattle.pc_server.specs.Generations.{has_many, is_filled};
ghost use Rattle.pc_server.specs.Turns.{IsNoted, Stays, paced};

use crate::counts::Counts;
use itoa::Buffer;
use pc_engine::World;
use pc_io::Tally;
use pc_lines::Line;
use pc_part::Part;
use pc_serving::{Pace, Request, Served, Turned, read_request};
use pc_turn::{LogDevice, Marks, TurnEnd, end_turn};
use pc_types::{FileNo, Refusal};
use std::alloc::Global;
use std::io::Write;
use std::mem;

/// Once this many points were taken a generation is full, whatever its log has: no more than 65,535 can be.
const MOST_POINTS: usize = 60_000;

/// A store that is served in turns: the answers of a turn wait until the new log entries are written, and kept if they must be.
#[derive(Drop)]
pub struct Server {
    served: Served,
    pace: Pace,
    answers: Tally<Vec<u8>>,
    counts: Counts,
    // How many entries of the log are written, and how many of them kept.
    marks: Marks,
    lag: usize,
}

impl Server {
    /// The store is served from now on; nothing was asked of it. At the end of a turn at most as many entries of the log may not be kept
    /// as the lag says. A point begins after each `every` commits, and none does with 0.
    #[tactic(auto, using(crate::proofs::CountLaws::none_counted))]
    pub fn new(alloc: Global, world: World, every: u64, lag: usize) -> Server
        ensures stays { Stands world [] → Stays (setting_of world) [] [] [] [] result }
        ensures lag { result.lag ≡ lag }
        ensures marks { result.marks ≡ record { written = 0; kept = 0 } }
    {
        let served = Served::new(world);
        let answers = Tally::new(Vec::new(alloc));
        let counts = Counts::new();
        Server {
            served,
            pace: Pace::new(every),
            answers,
            counts,
            marks: Marks {
                written: 0,
                kept: 0,
            },
            lag,
        }
    }

    /// Answers a line, which is given without its end, and keeps the answer until the turn ends; a commit counts towards the next
    /// point. False if and only if the line asks for the end: nothing is answered then. Refuses only with `OutOfMemory`; the line
    /// may then have been asked of the store, and what was kept is no more what was answered.
    pub fn answer(&mut self, alloc: Global, line: &[u8]) -> Result<bool, Refusal>
        ensures answered { (st : Setting) (gone turn : List Act) (at history : History) → Stays st gone at turn history self.old
            → OnOk result ((text : List ℕ) × (next : History) × AnswersRequest st history (request_of line.now) text next × Stays st gone at (Answered line.now text ∷ turn) next self.new) }
        ensures goes_on { IfOk result (λ goes_on. goes_on ≡ not (is_quit (request_of line.now))) }
        ensures refusals { IfErr result (λ e. e ≡ Refusal.OutOfMemory) }
        ensures paced { OnOk result (self.new.pace ≡ paced self.old.pace (length self.old.served.world.log) (length self.new.served.world.log)) }
        ensures same { (self.new.lag ≡ self.old.lag) × (self.new.marks ≡ self.old.marks) }
    {
        let request = read_request(alloc, line)?;
        let goes_on = !matches!(&request, Request::Quit);
        match self.tell(alloc, request) {
            Ok(()) => Ok(goes_on),
            Err(_) => Err(Refusal::OutOfMemory),
        }
    }

    // Answers what a line asks.
    fn tell(&mut self, alloc: Global, request: Request) -> Result<(), Refusal>
        ensures told { (st : Setting) (gone turn : List Act) (at history : History) → Stays st gone at turn history self.old
            → OnOk result ((text : List ℕ) × (next : History) × AnswersRequest st history request text next
            × ((line : List ℕ) → request_of line ≡ request → Stays st gone at (Answered line text ∷ turn) next self.new)) }
        ensures same { (self.new.lag ≡ self.old.lag) × (self.new.marks ≡ self.old.marks) }
        ensures paced { OnOk result (self.new.pace ≡ paced self.old.pace (length self.old.served.world.log) (length self.new.served.world.log)) }
    {
        match request {
            Request::Quit => Ok(()),
            Request::Run => put_run(self.served.world.base().run(), &mut self.answers),
            Request::Stats => self.tell_stats(),
            Request::Line(line) => self.ask(alloc, line),
        }
    }

    // Answers the line of a script.
    fn ask(&mut self, alloc: Global, line: Line) -> Result<(), Refusal>
        ensures told { (st : Setting) (gone turn : List Act) (at history : History) → Stays st gone at turn history self.old
            → OnOk result ((text : List ℕ) × (next : History) × AnswersRequest st history (request.Line line) text next
            × ((bytes : List ℕ) → request_of bytes ≡ request.Line line → Stays st gone at (Answered bytes text ∷ turn) next self.new)) }
        ensures same { (self.new.lag ≡ self.old.lag) × (self.new.marks ≡ self.old.marks) }
        ensures paced { OnOk result (self.new.pace ≡ paced self.old.pace (length self.old.served.world.log) (length self.new.served.world.log)) }
    {
        let before = self.served.world.log().len();
        match self.served.answer(alloc, line, &mut self.answers) {
            Ok(()) => {
                self.note_since(before);
                Ok(())
            }
            Err(why) => Err(why),
        }
    }

    // Counts the log entry that a line has added, if any: a commit, since no other line adds one.
    fn note_since(&mut self, before: usize)
        ensures changed { self.new ≡ record self.old { pace = paced self.old.pace before (length self.old.served.world.log); counts = self.new.counts } }
        ensures noted { IsNoted true self.old.served.world.log before self.old.counts self.new.counts }
    {
        self.counts.note(self.served.world.log(), before, true);
        self.note_pace(before);
    }

    // Counts a commit towards the next point if the log has more entries than before a line.
    fn note_pace(&mut self, before: usize)
        ensures { self.new ≡ record self.old { pace = paced self.old.pace before (length self.old.served.world.log) } }
    {
        if self.served.world.log().len() > before {
            self.pace.note_commit();
        }
    }

    // Prints the counts so far, and how many pairs are committed.
    fn tell_stats(&mut self) -> Result<(), Refusal>
        ensures told { (history : History) → Stands self.old.served.world history
            → OnOk result (Puts (λ bytes. Some bytes.items) self.old.answers self.new.answers (Ok tt) (stats_line (length self.old.served.world.log) self.old.counts.commits (length self.old.served.world.shelf) (open_now self.old.served.world) self.old.counts.bytes (committed_in self.old.served.world))) }
        ensures others { self.new ≡ record self.old { answers = self.new.answers } }
    {
        let pairs = self.count_pairs()?;
        self.put_stats(pairs)
    }

    // The number of committed pairs. It takes time, and memory, in proportion to them.
    fn count_pairs(&self) -> Result<usize, Refusal>
        ensures { (history : History) → Stands self.now.served.world history → IfOk result (λ count. count ≡ committed_in self.now.served.world) }
    {
        let pairs = self.served.world.committed()?;
        Ok(pairs.len())
    }

    // Prints the counts so far, and this number of pairs.
    fn put_stats(&mut self, pairs: usize) -> Result<(), Refusal>
        ensures told { Puts (λ bytes. Some bytes.items) self.old.answers self.new.answers result (stats_line (length self.old.served.world.log) self.old.counts.commits (length self.old.served.world.shelf) (open_now self.old.served.world) self.old.counts.bytes pairs) }
        ensures others { self.new ≡ record self.old { answers = self.new.answers } }
    {
        let entries = self.served.world.log().len();
        let points = self.served.world.files().len();
        let opened = self.served.open_sessions();
        let numbers = Numbers {
            entries,
            points,
            opened,
            pairs,
        };
        put_stats(numbers, &self.counts, &mut self.answers)
    }

    /// Asks the next event of the point's cycle, if one is due, as `Pace::go_on` does, and reports a file if and only if its reply put
    /// one on the shelf. No client is answered by it.
    pub fn go_on(&mut self) -> Result<Turned, Refusal>
        ensures went { (st : Setting) (gone turn : List Act) (at history : History) → Stays st gone at turn history self.old
            → (Stays st gone at turn history self.new × (result ≡ Ok turned.Nothing)) ⊎ ((step : Step) × Stays st gone at (WentOn step ∷ turn) (step ∷ history) self.new × IsShelvedAs step.reply result) }
        ensures same { (self.new.lag ≡ self.old.lag) × (self.new.marks ≡ self.old.marks) }
    {
        let before = self.served.world.log().len();
        let turned = self.pace.go_on(&mut self.served.world);
        self.counts.note(self.served.world.log(), before, false);
        turned
    }

    /// The shelf's file of this number.
    pub fn file(&self, number: FileNo) -> Option<&Part>
        ensures { option_copied result ≡ file_at self.now.served.world.shelf number }
    {
        self.served.world.file(number)
    }

    /// Whether the generation is full: its log has at least this many entries, or 60,000 points were taken; and no session has a
    /// transaction open, so that the next one can begin.
    pub fn is_filled(&self, entries: usize) -> bool
        ensures { result ≡ is_filled entries self.now.served.world }
    {
        self.has_many(entries) && self.served.open_sessions() == 0
    }

    // Whether the log has at least this many entries, or 60,000 points were taken.
    fn has_many(&self, entries: usize) -> bool
        ensures { result ≡ has_many entries self.now.served.world }
    {
        self.served.world.log().len() >= entries || self.served.world.files().len() >= MOST_POINTS
    }

    /// How many entries of the log may not be kept at the end of a turn.
    pub fn lag(&self) -> usize
        ensures { result ≡ self.now.lag }
    {
        self.lag
    }

    /// The store, which is served no more.
    pub fn into_world(self) -> World
        ensures { result ≡ self.served.world }
    {
        let Server { served, .. } = self;
        let Served { world, .. } = served;
        world
    }

    /// Ends the turn, as `pc_turn` `end_turn`: the log entries that aren't written yet are; all are kept if more than this lag aren't,
    /// which is at most the server's own; and then the answers of the turn are sent.
    pub fn end_turn<L: LogDevice, W: Write>(
        &mut self,
        alloc: Global,
        lag: usize,
        log: &mut L,
        out: &mut Tally<W>,
    ) -> TurnEnd
        requires within { AreMarks self.old.served.world.log self.old.marks }
        requires lag { lag ≤ self.old.lag }
        ensures ends { (st : Setting) (gone turn : List Act) (at history : History) → Stays st gone at turn history self.old
            → TurnEnds L.written L.kept W.contents (log_of history) lag (answers_of turn) self.old.marks self.new.marks log.old log.new out.old out.new result
            × (result ≡ TurnEnd.Whole → Stays st (turn ++ gone) history [] history self.new) }
        ensures all { result ≡ TurnEnd.Whole → length self.new.served.world.log ≤ self.new.marks.kept + lag }
        ensures same { (self.new.lag ≡ self.old.lag) × (self.new.served ≡ self.old.served) }
    {
        let answers = take_all(alloc, &mut self.answers);
        let kept = self.served.world.log();
        end_turn(kept, &mut self.marks, lag, log, &answers, out)
    }
}

// Takes what waits in the writer out of it.
fn take_all(alloc: Global, answers: &mut Tally<Vec<u8>>) -> Vec<u8>
    ensures all { result.items ≡ (inner_of answers.old).items }
    ensures none { (inner_of answers.new).items ≡ [] }
{
    mem::replace(answers, Tally::new(Vec::new(alloc))).into_inner()
}

fn put_run<W: Write>(run: u64, out: &mut Tally<W>) -> Result<(), Refusal>
    ensures { Puts W.contents out.old out.new result (run_line run) }
{
    let mut buffer = Buffer::new();
    out.put_all(&[b"run ", buffer.format(run).as_bytes(), b"\n"])
}

// The numbers of `stats` besides the counts of the log.
#[derive(Clone, Copy)]
struct Numbers {
    entries: usize,
    points: usize,
    opened: u8,
    pairs: usize,
}

fn put_stats<W: Write>(numbers: Numbers, counts: &Counts, out: &mut Tally<W>) -> Result<(), Refusal>
    ensures { Puts W.contents out.old out.new result (stats_line numbers.entries counts.now.commits numbers.points numbers.opened counts.now.bytes numbers.pairs) }
{
    let (mut first, mut second) = (Buffer::new(), Buffer::new());
    let (mut third, mut fourth) = (Buffer::new(), Buffer::new());
    let (mut fifth, mut last) = (Buffer::new(), Buffer::new());
    out.put_all(&[
        b"entries=",
        first.format(numbers.entries).as_bytes(),
        b" commits=",
        second.format(counts.commits).as_bytes(),
        b" points=",
        third.format(numbers.points).as_bytes(),
        b" open=",
        fourth.format(numbers.opened).as_bytes(),
        b" bytes=",
        fifth.format(counts.bytes).as_bytes(),
        b" pairs=",
        last.format(numbers.pairs).as_bytes(),
        b"\n",
    ])
}

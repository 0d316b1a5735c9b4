//! A script's lines are answered in order.
ghost use Rattle.std.specs.Prelude.{◌≡◌, ◌≤◌, ◌⊎◌, ℕ, List, [], IfOk, IfErr, IfSome, OnErr, MatchResult, if◌then◌else◌};
ghost use Rattle.std.specs.Io.KnownBytes.{Appends};
ghost use Rattle.pc_io.specs.Counted.{HasRisen, AppendsBeginning};
ghost use Rattle.pc_io.specs.Tallies.{inner_of, failures_of, Puts};
ghost use Rattle.pc_model.specs.Maps.{len};
ghost use Rattle.pc_model.specs.History.{History};
ghost use Rattle.pc_engine.specs.Stands.{Stands};
ghost use Rattle.pc_engine.specs.Store.{setting_of};
ghost use Rattle.pc_script.specs.Scripts.{ScriptStage, setting, refusal_answer, is_base_full, AnswersPair, AnswersLine, AnswersFirst, AnswersAtStage, answer_text, is_malformed, IsScriptAnswered, IsAnsweredInPart};
ghost use Rattle.pc_script.specs.Scripts.ScriptStage.{Reading};
ghost use Rattle.pc_script.specs.Holding.{StageHolds, HasRoomForPairs, IsSaid, IsSaidInPart, is_ended};
ghost use Rattle.pc_script.specs.declared.script.Status.TheVariants.{BadLines};

use crate::setup::Setup;
use crate::views::answer_view;
use bstr::ByteSlice;
use pc_bases::Base;
use pc_engine::World;
use pc_io::Tally;
use pc_lines::{Line, read_line};
use pc_replay::Pairs;
use pc_texts::{put_check, put_reply, put_state, put_text};
use pc_types::{Items, Key, Refusal, Reply, Value};
use std::alloc::Global;
use std::hash::RandomState;
use std::io::Write;

/// The outcome of a script that was read to its end.
#[derive(Clone, Copy, Debug, PartialEq, Eq)]
pub enum Status {
    /// Each line was answered.
    Done,
    /// Each line was answered, some of them as a bad line.
    BadLines,
    /// An allocation failed when the store was to be made.
    NoStore,
}

/// The output of a line.
#[derive(Drop)]
pub enum LineAnswer {
    Nothing,
    BadLine,
    Says(Reply),
    /// The base with a file applied to it.
    State(Base),
    /// The bytes of a file.
    Text(Items<u8>),
    /// Whether the store is what its log says.
    Check(bool),
}

/// The state that the lines so far have made.
#[derive(Drop)]
pub enum Made {
    /// The pairs of the base.
    Base(Pairs),
    /// The store.
    Store(World),
    /// Nothing: an allocation failed when the store was to be made.
    Ended,
}

/// Answers the lines of a script. A bad line doesn't end it. Refuses with `OutOfMemory` if a line can't be read for an
/// allocation failure, and with `Device` if and only if the writer failed in this call; then a prefix of what some first
/// lines print was written. The seed is that of the hashes of the store's keys; what may be printed doesn't depend on it.
pub fn answer_script<W: Write>(
    alloc: Global,
    setup: Setup,
    seed: RandomState,
    script: &[u8],
    out: &mut Tally<W>,
) -> Result<Status, Refusal>
    ensures answered { IfOk result (λ status. (text : List ℕ)
        × Appends (W.contents (inner_of out.old)) (W.contents (inner_of out.new)) text × IsScriptAnswered setup script.now status text) }
    ensures in_part { IfErr result (λ e. (text : List ℕ)
        × AppendsBeginning (W.contents (inner_of out.old)) (W.contents (inner_of out.new)) text × IsAnsweredInPart setup script.now text) }
    ensures refusals { IfErr result (λ e. (e ≡ Refusal.OutOfMemory) ⊎ (e ≡ Refusal.Device)) }
    ensures device { result ≡ Err Refusal.Device → HasRisen (failures_of out.old) (failures_of out.new) }
    ensures sound { ¬ (result ≡ Err Refusal.Device) → failures_of out.new ≡ failures_of out.old }
{
    let mut made = Made::Base(Pairs::new(alloc));
    let mut status = Status::Done;
    for text in script.lines() {
        let line = read_line(alloc, text)?;
        status = status_after(status, &line);
        made = answer_one(alloc, setup, seed, made, line, out)?;
        if is_ended(&made) {
            return Ok(Status::NoStore);
        }
    }
    Ok(status)
}

fn status_after(status: Status, line: &Line) -> Status
    ensures { result ≡ (if is_malformed line.now then BadLines else status) }
{
    if is_malformed(line) {
        Status::BadLines
    } else {
        status
    }
}

fn is_malformed(line: &Line) -> bool
    ensures { result ≡ is_malformed line.now }
{
    matches!(line, Line::Malformed)
}

// Answers a line, and writes the answer.
fn answer_one<W: Write>(
    alloc: Global,
    setup: Setup,
    seed: RandomState,
    made: Made,
    line: Line,
    out: &mut Tally<W>,
) -> Result<Made, Refusal>
    requires room { HasRoomForPairs setup made }
    ensures room { IfOk result (λ next. HasRoomForPairs setup next) }
    ensures answered { IfOk result (λ next. IsSaid setup made line next
        (λ text. Appends (W.contents (inner_of out.old)) (W.contents (inner_of out.new)) text)) }
    ensures in_part { OnErr result (IsSaidInPart setup made line
        (λ text. AppendsBeginning (W.contents (inner_of out.old)) (W.contents (inner_of out.new)) text)) }
    ensures counts { MatchResult result (λ next. failures_of out.new ≡ failures_of out.old)
        (λ e. (e ≡ Refusal.Device) × HasRisen (failures_of out.old) (failures_of out.new)) }
{
    let (answer, next) = answer_line(alloc, setup, seed, made, line);
    say(out, answer)?;
    Ok(next)
}

fn is_ended(made: &Made) -> bool
    ensures { result ≡ is_ended made.now }
{
    match made {
        Made::Ended => true,
        _ => false,
    }
}

// Answers a line with what was made so far, and gives what is made then.
fn answer_line(
    alloc: Global,
    setup: Setup,
    seed: RandomState,
    made: Made,
    line: Line,
) -> (LineAnswer, Made)
    requires room { HasRoomForPairs setup made }
    ensures room { HasRoomForPairs setup result.1 }
    ensures answer { (stage : ScriptStage) → StageHolds setup made stage → (next : ScriptStage) × StageHolds setup result.1 next × AnswersAtStage setup stage line result.0 next }
{
    match made {
        Made::Base(pairs) => answer_base(alloc, setup, seed, pairs, line),
        Made::Store(mut world) => {
            let answer = answer_stored(alloc, &mut world, line);
            (answer, Made::Store(world))
        }
        Made::Ended => (LineAnswer::Nothing, Made::Ended),
    }
}

// Answers a line of the base, or the first one after it.
fn answer_base(
    alloc: Global,
    setup: Setup,
    seed: RandomState,
    mut pairs: Pairs,
    line: Line,
) -> (LineAnswer, Made)
    requires room { len pairs ≤ setup.capacity }
    ensures room { HasRoomForPairs setup result.1 }
    ensures answer { (next : ScriptStage) × StageHolds setup result.1 next × AnswersAtStage setup (Reading pairs) line result.0 next }
{
    match line {
        Line::Silent => (LineAnswer::Nothing, Made::Base(pairs)),
        Line::Sets(key, value) => {
            let answer = add_pair(setup.capacity, &mut pairs, key, value);
            (answer, Made::Base(pairs))
        }
        Line::SetsRefused(why) => (refusal_answer(why), Made::Base(pairs)),
        Line::Malformed => answer_first(alloc, setup, seed, pairs, Line::Malformed),
        Line::Asks(event) => answer_first(alloc, setup, seed, pairs, Line::Asks(event)),
        Line::AsksRefused(why) => answer_first(alloc, setup, seed, pairs, Line::AsksRefused(why)),
        Line::Shows(view) => answer_first(alloc, setup, seed, pairs, Line::Shows(view)),
    }
}

// Makes the store, which answers the first line after the base.
fn answer_first(
    alloc: Global,
    setup: Setup,
    seed: RandomState,
    pairs: Pairs,
    line: Line,
) -> (LineAnswer, Made)
    requires room { len pairs ≤ setup.capacity }
    ensures room { HasRoomForPairs setup result.1 }
    ensures answer { (next : ScriptStage) × StageHolds setup result.1 next × AnswersFirst setup pairs line result.0 next }
{
    match start(alloc, setup, seed, pairs) {
        Some(mut world) => {
            let answer = answer_stored(alloc, &mut world, line);
            (answer, Made::Store(world))
        }
        None => (refusal_answer(Refusal::OutOfMemory), Made::Ended),
    }
}

pub(crate) fn refusal_answer(why: Refusal) -> LineAnswer
    ensures { result ≡ refusal_answer why }
{
    LineAnswer::Says(Reply::Refused(why))
}

// Whether the key is new and the base has as many pairs as the capacity.
fn is_full(capacity: u32, pairs: &Pairs, key: &Key) -> bool
    ensures { result ≡ is_base_full capacity pairs.now key.now }
{
    pairs.get(key).is_none() && pairs.len() >= capacity as usize
}

// Sets a pair of the base.
fn add_pair(capacity: u32, pairs: &mut Pairs, key: Key, value: Value) -> LineAnswer
    requires { len pairs.old ≤ capacity }
    ensures answer { AnswersPair capacity pairs.old key value result pairs.new }
    ensures room { len pairs.new ≤ capacity }
{
    if is_full(capacity, pairs, &key) {
        return refusal_answer(Refusal::Full);
    }
    match pairs.insert(key, value) {
        Ok(()) => LineAnswer::Says(Reply::Ok),
        Err(_) => refusal_answer(Refusal::OutOfMemory),
    }
}

// The store on the base; `None` if an allocation fails.
fn start(alloc: Global, setup: Setup, seed: RandomState, pairs: Pairs) -> Option<World>
    requires { len pairs ≤ setup.capacity }
    ensures { IfSome result (λ world. (setting_of world ≡ setting setup pairs) × Stands world []) }
{
    let base = Base::start(u64::from(setup.run), pairs.into_vec());
    match World::new(alloc, base, setup.sessions, setup.capacity, seed) {
        Ok(world) => Some(world),
        Err(_) => None,
    }
}

/// Answers a line once there is a store. A line of the base is refused with `WrongPhase`.
pub fn answer_stored(alloc: Global, world: &mut World, line: Line) -> LineAnswer
    ensures setting { setting_of world.new ≡ setting_of world.old }
    ensures answer { (history : History) → Stands world.old history
        → (next : History) × Stands world.new next × AnswersLine (setting_of world.old) history line result next }
{
    match line {
        Line::Silent => LineAnswer::Nothing,
        Line::Malformed => LineAnswer::BadLine,
        Line::Sets(_, _) => refusal_answer(Refusal::WrongPhase),
        Line::SetsRefused(why) => refusal_answer(why),
        Line::AsksRefused(why) => refusal_answer(why),
        Line::Asks(event) => LineAnswer::Says(world.step(&event)),
        Line::Shows(view) => answer_view(alloc, world, view),
    }
}

// Writes the answer, which is used up.
fn say<W: Write>(out: &mut Tally<W>, answer: LineAnswer) -> Result<(), Refusal>
    ensures { Puts W.contents out.old out.new result (answer_text answer) }
{
    put_answer(out, &answer)
}

/// Writes an answer, with the end of its line. Returns `Device` if and only if the device failed in this call.
pub fn put_answer<W: Write>(out: &mut Tally<W>, answer: &LineAnswer) -> Result<(), Refusal>
    ensures { Puts W.contents out.old out.new result (answer_text answer.now) }
{
    match answer {
        LineAnswer::Nothing => Ok(()),
        LineAnswer::BadLine => out.put(b"bad line\n"),
        LineAnswer::Says(reply) => {
            put_reply(out, reply)?;
            out.put(b"\n")
        }
        LineAnswer::State(base) => put_state(out, base),
        LineAnswer::Text(text) => put_text(out, text.as_slice()),
        LineAnswer::Check(sound) => put_check(out, *sound),
    }
}

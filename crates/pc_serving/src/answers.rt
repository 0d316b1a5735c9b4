//! The lines of a store that is served, each with its answer.
ghost use Rattle.std.specs.Prelude.{◌≡◌, ◌==◌, ◌&&◌, ◌||◌, ◌++◌, not, ℕ, List, codes, [], Ok, OnOk, MatchResult};
ghost use Rattle.pc_io.specs.Counted.{HasRisen};
ghost use Rattle.pc_io.specs.Tallies.{Puts, failures_of};
ghost use Rattle.pc_types.specs.declared.limits.TheConstants.{MOST_SESSIONS};
ghost use Rattle.pc_sessions.specs.SessionSets.{has_session, is_number};
ghost use Rattle.pc_model.specs.Calls.{session_of};
ghost use Rattle.pc_model.specs.History.{History};
ghost use Rattle.pc_model.specs.Replies.{Setting};
ghost use Rattle.pc_engine.specs.Stands.{Stands};
ghost use Rattle.pc_engine.specs.Store.{setting_of};
ghost use Rattle.pc_script.specs.Scripts.{AnswersLine, answer_text};
ghost use Rattle.pc_script.specs.declared.script.LineAnswer.{LineAnswer};
ghost use Rattle.pc_texts.specs.Texts.{reply_text};
ghost use Rattle.pc_serving.specs.OpenSessions.{open_after, open_now};
ghost use Rattle.pc_serving.specs.Serving.{AnswersEvent, AnswersServed, Serves, granted_line, is_of_client, is_wait};
ghost use Rattle.pc_serving.specs.Sweeps.{IsTextSent, swept_line, swept_to, waits_now};

use itoa::Buffer;
use pc_engine::World;
use pc_io::Tally;
use pc_lines::Line;
use pc_script::{LineAnswer, answer_stored, put_answer};
use pc_sessions::SessionSet;
use pc_texts::put_reply;
use pc_types::{Event, MOST_SESSIONS, Refusal, Reply, SessionNo};
use std::alloc::Global;
use std::io::Write;

/// A store that is served: it answers the lines of its sessions, and knows which of them were answered that they wait.
#[derive(Drop)]
pub struct Served {
    pub world: World,
    waiting: SessionSet,
}

impl Served {
    /// The store is served from now on; nothing was asked of it.
    pub fn new(world: World) -> Served
        ensures { Stands world [] → Serves (setting_of world) result.world result.waiting [] }
    {
        Served {
            world,
            waiting: SessionSet::new(),
        }
    }

    /// The number of sessions that have a transaction open: as many as the history says.
    pub fn open_sessions(&self) -> u8
        ensures now { result ≡ open_now self.now.world }
        ensures told { (st : Setting) (history : History) → Serves st self.now.world self.now.waiting history → result ≡ open_after st history }
    {
        let mut count = 0;
        for place in 0..MOST_SESSIONS {
            if self.world.has_open(SessionNo(u32::from(place) + 1)) {
                count += 1;
            }
        }
        count
    }

    /// Answers a line. An event of a session is asked, its reply is printed, and after it a line for each request of another session
    /// that it has granted; one of the checkpointer, or a join, is refused with `WrongPhase`, and so is a pair of the base. Returns
    /// `Device` if and only if the device failed in this call.
    pub fn answer<W: Write>(
        &mut self,
        alloc: Global,
        line: Line,
        out: &mut Tally<W>,
    ) -> Result<(), Refusal>
        ensures answered { (st : Setting) (history : History) → Serves st self.old.world self.old.waiting history
            → OnOk result ((next : History) × (text : List ℕ) × Serves st self.new.world self.new.waiting next × AnswersServed st history line text next × Puts W.contents out.old out.new (Ok tt) text) }
        ensures counts { MatchResult result (λ _. failures_of out.new ≡ failures_of out.old) (λ e. (e ≡ Refusal.Device) × HasRisen (failures_of out.old) (failures_of out.new)) }
    {
        match line {
            Line::Asks(event) => self.ask(&event, out),
            line => self.show(alloc, line, out),
        }
    }

    // Answers a line as one of a script.
    fn show<W: Write>(
        &mut self,
        alloc: Global,
        line: Line,
        out: &mut Tally<W>,
    ) -> Result<(), Refusal>
        ensures waiting { self.new.waiting ≡ self.old.waiting }
        ensures counts { MatchResult result (λ _. failures_of out.new ≡ failures_of out.old) (λ e. (e ≡ Refusal.Device) × HasRisen (failures_of out.old) (failures_of out.new)) }
        ensures setting { setting_of self.new.world ≡ setting_of self.old.world }
        ensures answered { (history : History) → Stands self.old.world history
            → (next : History) × (said : LineAnswer) × Stands self.new.world next × AnswersLine (setting_of self.old.world) history line said next × Puts W.contents out.old out.new result (answer_text said) }
    {
        let answer = answer_stored(alloc, &mut self.world, line);
        put_answer(out, &answer)
    }

    // Asks an event, if it is a client's.
    fn ask<W: Write>(&mut self, event: &Event, out: &mut Tally<W>) -> Result<(), Refusal>
        ensures answered { (st : Setting) (history : History) → Serves st self.old.world self.old.waiting history
            → OnOk result ((next : History) × (text : List ℕ) × Serves st self.new.world self.new.waiting next × AnswersEvent st history event.now text next × Puts W.contents out.old out.new (Ok tt) text) }
        ensures counts { MatchResult result (λ _. failures_of out.new ≡ failures_of out.old) (λ e. (e ≡ Refusal.Device) × HasRisen (failures_of out.old) (failures_of out.new)) }
    {
        if !is_of_client(event) {
            return put_answer(out, &LineAnswer::Says(Reply::Refused(Refusal::WrongPhase)));
        }
        let reply = self.world.step(event);
        self.tell(session_of(event), &reply, out)
    }

    // Prints the reply to the session's event, and the sessions whose requests it granted.
    fn tell<W: Write>(
        &mut self,
        own: SessionNo,
        reply: &Reply,
        out: &mut Tally<W>,
    ) -> Result<(), Refusal>
        ensures world { self.new.world ≡ self.old.world }
        ensures left { OnOk result ((s : ℕ) → has_session self.new.waiting s ≡ ((has_session self.old.waiting s || (is_wait reply.now && (is_number own && (s == own)))) && waits_now self.old.world s)) }
        ensures told { IsTextSent W.contents out.old out.new result ((reply_text reply.now ++ codes "\n") ++ swept_to (waits_now self.old.world) (λ s. has_session self.old.waiting s || (is_wait reply.now && (is_number own && (s == own)))) own MOST_SESSIONS) }
    {
        self.note(own, reply);
        put_reply(out, reply)?;
        out.put(b"\n")?;
        self.sweep(own, out)
    }

    // Notes whether the session was answered that it waits.
    fn note(&mut self, own: SessionNo, reply: &Reply)
        ensures world { self.new.world ≡ self.old.world }
        ensures noted { (s : ℕ) → has_session self.new.waiting s ≡ (has_session self.old.waiting s || (is_wait reply.now && (is_number own && (s == own)))) }
    {
        if let Reply::Wait = reply {
            self.waiting.add(own);
        }
    }

    // Prints, after an event of the session, which other sessions' requests were granted.
    fn sweep<W: Write>(&mut self, own: SessionNo, out: &mut Tally<W>) -> Result<(), Refusal>
        ensures world { self.new.world ≡ self.old.world }
        ensures left { OnOk result ((s : ℕ) → has_session self.new.waiting s ≡ (has_session self.old.waiting s && waits_now self.old.world s)) }
        ensures told { IsTextSent W.contents out.old out.new result (swept_to (waits_now self.old.world) (has_session self.old.waiting) own MOST_SESSIONS) }
    {
        for place in 0..MOST_SESSIONS {
            self.grant(SessionNo(u32::from(place) + 1), own, out)?;
        }
        Ok(())
    }

    // Prints the line of a session whose request was granted, unless it is the one that asks; then it waits no more.
    fn grant<W: Write>(
        &mut self,
        session: SessionNo,
        own: SessionNo,
        out: &mut Tally<W>,
    ) -> Result<(), Refusal>
        ensures world { self.new.world ≡ self.old.world }
        ensures left { (s : ℕ) → has_session self.new.waiting s ≡ (has_session self.old.waiting s && (waits_now self.old.world s || not (s == session))) }
        ensures told { Puts W.contents out.old out.new result (swept_line (waits_now self.old.world) (has_session self.old.waiting) own session) }
    {
        if !self.waiting.has(session) || self.world.is_waiting(session) {
            return Ok(());
        }
        self.waiting.remove(session);
        if session == own {
            return Ok(());
        }
        put_granted(session, out)
    }
}

fn put_granted<W: Write>(session: SessionNo, out: &mut Tally<W>) -> Result<(), Refusal>
    ensures { Puts W.contents out.old out.new result (granted_line session) }
{
    let mut buffer = Buffer::new();
    out.put_all(&[b"granted ", buffer.format(session.0).as_bytes(), b"\n"])
}

// Whether a session asks the event.
fn is_of_client(event: &Event) -> bool
    ensures { result ≡ is_of_client event.now }
{
    !matches!(
        event,
        Event::StartPoint
            | Event::Seal
            | Event::OpenCapture
            | Event::Take
            | Event::Done
            | Event::Rest
            | Event::Join(_, _)
    )
}

// The session that asks the event; 0 if none does.
fn session_of(event: &Event) -> SessionNo
    ensures { result ≡ session_of event.now }
{
    match event {
        Event::Begin(session) | Event::Commit(session) | Event::Abort(session) => *session,
        Event::Get(session, _) | Event::Del(session, _) => *session,
        Event::Put(session, _, _) | Event::Add(session, _, _) => *session,
        _ => SessionNo(0),
    }
}

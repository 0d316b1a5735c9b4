//! A step as reported to the keeper, for the proof alone.
ghost use Rattle.std.specs.Prelude.{◌≡◌};
ghost use Rattle.pc_types.specs.declared.Event.TheVariants.{Begin, Get, Put, Del, Add, Commit, Abort, Take};
ghost use Rattle.pc_model.specs.Calls.{step_of};
ghost use Rattle.pc_types.specs.declared.Step.{Step};
ghost use Rattle.pc_tie.specs.Noted.{step_in};
ghost use Rattle.pc_answers.specs.Replies.{begin_reply, get_reply, write_reply, add_reply, commit_reply, abort_reply, take_reply};

use pc_answers::{AddAnswer, GetAnswer, TakeAnswer};
use pc_types::{Event, Key, Lsn, Outcome, Refusal, Reply, SessionNo, TxnNo, Value};
use std::marker::{Model, PhantomData};
use std::snapshot::Snapshot;

// The parts of a call and its answer, as contracts see them: none of them is held.
#[derive(Drop)]
enum NotedCall {
    Begin(Snapshot<SessionNo>, Snapshot<Result<TxnNo, Refusal>>),
    Get(Snapshot<SessionNo>, Snapshot<Key>, Snapshot<Result<GetAnswer, Refusal>>),
    Put(Snapshot<SessionNo>, Snapshot<Key>, Snapshot<Value>, Snapshot<Result<Outcome, Refusal>>),
    Del(Snapshot<SessionNo>, Snapshot<Key>, Snapshot<Result<Outcome, Refusal>>),
    Add(Snapshot<SessionNo>, Snapshot<Key>, Snapshot<i64>, Snapshot<Result<AddAnswer, Refusal>>),
    Commit(Snapshot<SessionNo>, Snapshot<Result<Lsn, Refusal>>),
    Abort(Snapshot<SessionNo>, Snapshot<Result<(), Refusal>>),
    Take(Snapshot<Result<TakeAnswer, Refusal>>),
    Any(Snapshot<Event>, Snapshot<Reply>),
}

/// A step as reported to the keeper: it has no bytes, and holds nothing of the event and the reply. Contracts see the step.
#[derive(Drop)]
pub struct NotedStep {
    marker: PhantomData<NotedCall>,
    ghost step: { Step },
}

impl Model for NotedStep {
    ghost use base.Fml.{ftrue};
    ghost use Rattle.pc_types.specs.declared.Step.{Step};

    ghost Value = { Step };

    ghost view = { λ n. n.step };

    ghost also_owns = { λ _. ftrue };
}

// Declared here, once, that it may cross threads: the search for it would go through all that a call is made of.
unsafe impl Send for NotedStep {}

// The step of the call.
fn noted(call: &NotedCall) -> NotedStep
    ensures { result ≡ step_in call.now }
{
    let _ = call;
    NotedStep {
        marker: PhantomData,
    }
}

impl NotedStep {
    /// The event with its reply.
    pub fn of(event: &Event, reply: &Reply) -> NotedStep
        ensures { result ≡ step_of event.now reply.now }
    {
        noted(&NotedCall::Any(Snapshot::of(event), Snapshot::of(reply)))
    }

    /// A begin that is answered so.
    pub fn begin(session: SessionNo, answer: &Result<TxnNo, Refusal>) -> NotedStep
        ensures { result ≡ step_of (Begin session) (begin_reply answer.now) }
    {
        noted(&NotedCall::Begin(Snapshot::of(&session), Snapshot::of(answer)))
    }

    /// A read that is answered so.
    pub fn get(session: SessionNo, key: &Key, answer: &Result<GetAnswer, Refusal>) -> NotedStep
        ensures { result ≡ step_of (Get session key.now) (get_reply answer.now) }
    {
        let read = Snapshot::of(key);
        noted(&NotedCall::Get(Snapshot::of(&session), read, Snapshot::of(answer)))
    }

    /// A put whose request is answered so.
    pub fn put(
        session: SessionNo,
        key: &Key,
        value: &Value,
        answer: &Result<Outcome, Refusal>,
    ) -> NotedStep
        ensures { result ≡ step_of (Put session key.now value.now) (write_reply answer.now) }
    {
        noted(&NotedCall::Put(
            Snapshot::of(&session),
            Snapshot::of(key),
            Snapshot::of(value),
            Snapshot::of(answer),
        ))
    }

    /// A removal whose request is answered so.
    pub fn del(session: SessionNo, key: &Key, answer: &Result<Outcome, Refusal>) -> NotedStep
        ensures { result ≡ step_of (Del session key.now) (write_reply answer.now) }
    {
        let removed = Snapshot::of(key);
        noted(&NotedCall::Del(Snapshot::of(&session), removed, Snapshot::of(answer)))
    }

    /// An add that is answered so.
    pub fn add(
        session: SessionNo,
        key: &Key,
        delta: i64,
        answer: &Result<AddAnswer, Refusal>,
    ) -> NotedStep
        ensures { result ≡ step_of (Add session key.now delta) (add_reply answer.now) }
    {
        noted(&NotedCall::Add(
            Snapshot::of(&session),
            Snapshot::of(key),
            Snapshot::of(&delta),
            Snapshot::of(answer),
        ))
    }

    /// A commit that is answered so.
    pub fn commit(session: SessionNo, answer: &Result<Lsn, Refusal>) -> NotedStep
        ensures { result ≡ step_of (Commit session) (commit_reply answer.now) }
    {
        noted(&NotedCall::Commit(Snapshot::of(&session), Snapshot::of(answer)))
    }

    /// An abort that is answered so.
    pub fn abort(session: SessionNo, answer: &Result<(), Refusal>) -> NotedStep
        ensures { result ≡ step_of (Abort session) (abort_reply answer.now) }
    {
        noted(&NotedCall::Abort(Snapshot::of(&session), Snapshot::of(answer)))
    }

    /// A take that is answered so.
    pub fn take(answer: &Result<TakeAnswer, Refusal>) -> NotedStep
        ensures { result ≡ step_of Take (take_reply answer.now) }
    {
        noted(&NotedCall::Take(Snapshot::of(answer)))
    }
}

//! What is asked of a session, as plain data, and how it is answered.

use pc_shared::{CallAnswer, Session, Shared};
use pc_tie::StoreName;
use pc_types::{Key, Refusal, Value};
use std::alloc::Global;
use std::sync::Wait;

/// What is asked of a session.
#[derive(Clone, Copy)]
pub(crate) enum Ask {
    Begin,
    Get(&'static [u8]),
    Put(&'static [u8], &'static [u8]),
    Del(&'static [u8]),
    Add(&'static [u8], i64),
    Commit,
    Abort,
}

/// How it is answered.
#[derive(Clone, Copy, Debug, PartialEq)]
pub(crate) enum Told {
    Begun(u64),
    Answer(CallAnswer),
    Sum(i64),
    Committed(u32),
    Aborted,
    Refused(Refusal),
    /// It was refused, and what the session shows is another thing than before.
    Changed,
}

/// By what sessions ask.
#[derive(Clone, Copy)]
pub(crate) struct Asker<'a, N: StoreName, R: Wait> {
    pub(crate) rt: &'a R,
    pub(crate) alloc: Global,
    pub(crate) shared: &'a Shared<N>,
}

impl<'a, N: StoreName, R: Wait> Asker<'a, N, R> {
    // What the session is answered, if it isn't refused.
    fn answer(&self, session: &mut Session<N>, ask: Ask) -> Result<Told, Refusal> {
        let (rt, shared) = (self.rt, self.shared);
        Ok(match ask {
            Ask::Begin => Told::Begun(shared.begin(rt, session)?.0),
            Ask::Get(key) => Told::Answer(shared.get(rt, session, self.key(key)?)?),
            Ask::Put(key, value) => {
                let (key, value) = (self.key(key)?, Value::new(self.alloc, value)?);
                Told::Answer(shared.put(rt, session, key, value)?)
            }
            Ask::Del(key) => Told::Answer(shared.del(rt, session, self.key(key)?)?),
            Ask::Add(key, delta) => told_of(shared.add(rt, session, self.key(key)?, delta)?),
            Ask::Commit => Told::Committed(shared.commit(rt, session)?.0),
            Ask::Abort => {
                shared.abort(rt, session)?;
                Told::Aborted
            }
        })
    }

    fn key(&self, key: &[u8]) -> Result<Key, Refusal> {
        Key::new(self.alloc, key)
    }

    /// What the session is answered. If an allocation failed it shows what it did, and is asked again; an abort needs none.
    pub(crate) fn answer_again(&self, session: &mut Session<N>, ask: Ask) -> Told {
        let before = shown(session);
        let told = match self.answer(session, ask) {
            Ok(told) => return told,
            Err(_) if shown(session) != before => return Told::Changed,
            Err(Refusal::OutOfMemory) if !matches!(ask, Ask::Abort) => self.answer(session, ask),
            Err(why) => Err(why),
        };
        match told {
            Ok(told) => told,
            Err(why) => Told::Refused(why),
        }
    }
}

// The answer of an add.
fn told_of(answer: CallAnswer) -> Told {
    match answer {
        CallAnswer::Sum(sum) => Told::Sum(sum),
        answer => Told::Answer(answer),
    }
}

// What a session shows: how many commits, and how long the value is that it has found.
fn shown<N: StoreName>(session: &Session<N>) -> (usize, Option<usize>) {
    let found = session.found().map(|value| value.as_bytes().len());
    (session.commits().len(), found)
}

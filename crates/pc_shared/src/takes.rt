//! The checkpointer takes keys of the point, many in one turn of the latch.
ghost use Rattle.std.specs.Prelude.{◌≡◌};
ghost use Rattle.pc_answers.specs.Replies.{take_reply};
ghost use Rattle.pc_latch.specs.Cycles.{IsTakeCalled};
ghost use Rattle.pc_shared.specs.Takes.{IsTurnOfTakes, told_of_takes};

use crate::store::{Shared, UnderLatch};
use pc_answers::{TakeAnswer, take_reply};
use pc_tie::{CheckpointerSeat, StoreName, Tie};
use pc_types::{Refusal, Reply};
use std::sync::{MutexGuard, Wait};

/// How a turn of takes ended.
#[derive(Clone, Copy, Debug, PartialEq, Eq)]
pub enum TakesEnd {
    /// As many keys were taken as were asked for: more may be left.
    Enough,
    /// No key was left.
    NoneLeft,
    /// A take was refused.
    Refused(Refusal),
}

/// The result of a turn of takes: the number of keys that were taken, and how it ended.
#[derive(Clone, Copy, Debug, PartialEq, Eq)]
pub struct Takes {
    pub keys: u32,
    pub end: TakesEnd,
}

// The reply that is noted for a turn of takes, without a key: `NoneLeft` if none was taken, otherwise `Absent`.
fn told_takes(keys: u32) -> Reply
    ensures { result ≡ told_of_takes keys }
{
    if keys == 0 {
        Reply::NoneLeft
    } else {
        Reply::Absent
    }
}

impl<N: StoreName> UnderLatch<N> {
    // Takes keys of the point, in order, until they are this many, none is left, or a take is refused.
    fn take_keys(
        &mut self,
        tie: &Tie<N>,
        checkpointer: &mut CheckpointerSeat<N>,
        most: u32,
    ) -> Takes
        ensures { IsTurnOfTakes N.name.setting most checkpointer.old result checkpointer.new }
    {
        for keys in 0..most {
            match self.latched.take(tie, checkpointer) {
                Ok(TakeAnswer::Took(_, _)) => {}
                Ok(TakeAnswer::NoneLeft) => return Takes {
                    keys,
                    end: TakesEnd::NoneLeft,
                },
                Err(why) => return Takes {
                    keys,
                    end: TakesEnd::Refused(why),
                },
            }
        }
        Takes {
            keys: most,
            end: TakesEnd::Enough,
        }
    }
}

impl<N: StoreName> Shared<N> {
    /// The checkpointer takes one key of the point: the key with its value there, that none is left, or a refusal. Each answer but
    /// a refusal extends the history that it has seen.
    pub fn take<R: Wait>(&self, rt: &R, checkpointer: &mut CheckpointerSeat<N>) -> Reply
        ensures { IsTakeCalled N.name.setting checkpointer.old result checkpointer.new }
    {
        let mut held = self.get_latch_soon(rt);
        let reply = take_reply(held.latched.take(&self.tie, checkpointer));
        self.let_go(held, &reply);
        reply
    }

    /// The checkpointer takes keys of the point in one turn of the latch, in order, until they are this many, none is left, or a
    /// take is refused. Each take is a call of its own, and each answer but a refusal extends the history that the checkpointer has
    /// seen.
    pub fn take_keys<R: Wait>(
        &self,
        rt: &R,
        checkpointer: &mut CheckpointerSeat<N>,
        most: u32,
    ) -> Takes
        ensures { IsTurnOfTakes N.name.setting most checkpointer.old result checkpointer.new }
    {
        let mut held = self.get_latch_soon(rt);
        let takes = held.take_keys(&self.tie, checkpointer, most);
        let told = told_takes(takes.keys);
        self.let_go(held, &told);
        takes
    }
}

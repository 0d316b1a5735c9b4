//! The jobs of each meeting.
use crate::gate::{Stop, Visit};
use crate::signs::Sign::*;
use test_sessions::Ask::*;
use test_sessions::{Asks, Work};

/// The jobs in a store, and which thread waits where for which.
#[derive(Clone, Copy)]
pub struct Plan {
    /// Under which its line is printed.
    pub name: &'static str,
    pub points: u32,
    /// The last point whose files a collapser joins concurrently with all other threads, 0 if there is none; if it is to join more
    /// points than are taken, it waits for the end.
    pub joins: u32,
    pub work: Work,
    /// How many sessions do nothing: the work is that of those after them, and signs count from there.
    pub idle: u8,
    /// The number of entries that a client may leave unwritten after its commit; if none is given it never waits for the log.
    pub lag: Option<u32>,
    pub stops: &'static [Stop],
    /// The visits that are made while no thread waits.
    pub alone: &'static [Visit],
}

const IDLE: Plan = Plan {
    name: "",
    points: 0,
    joins: 0,
    work: Work::Listed(&[]),
    idle: 0,
    lag: None,
    stops: &[],
    alone: &[],
};

impl Plan {
    /// The number of sessions.
    pub fn sessions(&self) -> u8 {
        self.work.sessions().saturating_add(self.idle)
    }
}

// What is put while another one waits, each in a transaction of its own.
const SIXTY: [Asks; 60] = [&[Put(b"c", 3)]; 60];

// The same, and one more.
const SIXTY_ONE: [Asks; 61] = [&[Put(b"c", 3)]; 61];

// What is added to one key then, each in a transaction of its own.
const SIXTY_ADDS: [Asks; 60] = [&[Add(b"c", 3)]; 60];

/// All of them.
pub const PLANS: [Plan; 17] = [
    // Session 2 commits c before the point is begun. Session 1 begins once the phase is resolve, and waits with a locked until session
    // 2, which begins again only then, has committed b, and a key of the point was taken.
    Plan {
        name: "beside a point",
        points: 1,
        work: Work::Listed(&[&[&[Put(b"a", 1)]], &[&[Put(b"c", 1)], &[Put(b"b", 1)]]]),
        stops: &[
            ((PrepareIsDue, 1), (SecondCommits, 1)),
            ((FirstStarts, 1), (EntersResolve, 1)),
            ((SecondStarts, 2), (FirstSteps, 1)),
            ((FirstSteps, 1), (SecondCommits, 2)),
            ((FirstSteps, 1), (Takes, 1)),
        ],
        ..IDLE
    },
    // Session 2 commits a hundred keys before the point is begun. Session 1 begins once the phase is resolve, and waits with its first
    // transaction open until all of them were taken and the point's part was done; the keys may be taken only once it is open.
    Plan {
        name: "a capture goes on",
        points: 1,
        work: Work::Apart(2, 100),
        stops: &[
            ((PrepareIsDue, 1), (SecondCommits, 100)),
            ((FirstStarts, 1), (EntersResolve, 1)),
            ((CaptureIsDue, 1), (FirstSteps, 1)),
            ((FirstSteps, 1), (Takes, 100)),
            ((FirstSteps, 1), (EntersComplete, 1)),
        ],
        ..IDLE
    },
    // Session 1 begins in the third point's phase resolve, and waits with a locked until the collapser holds two of the files. The end
    // is marked only after session 1, so a collapser that joins nothing before then lets it wait in vain.
    Plan {
        name: "collapse beside",
        points: 3,
        joins: 3,
        work: Work::Listed(&[&[&[Put(b"a", 1)]]]),
        stops: &[
            ((FirstStarts, 1), (EntersResolve, 3)),
            ((FirstSteps, 1), (Pairs, 1)),
        ],
        ..IDLE
    },
    // The collapser is to join a point more than is taken. Session 1 begins once that one is over, and commits sixty times meanwhile.
    // Once it has, the end is marked, by which the collapser is to be woken.
    Plan {
        name: "the end wakes a collapser",
        points: 1,
        joins: 2,
        work: Work::Listed(&[&SIXTY]),
        stops: &[
            ((FirstStarts, 1), (EntersRest, 1)),
            ((EndIsMarked, 1), (CollapserEnds, 1)),
        ],
        ..IDLE
    },
    // Session 1 begins once session 2 has committed, and reads what that has written.
    Plan {
        name: "read back",
        work: Work::Listed(&[&[&[Get(b"k")]], &[&[Put(b"k", 1)]]]),
        stops: &[((FirstStarts, 1), (SecondCommits, 1))],
        ..IDLE
    },
    // Each session waits with a key of its own locked until the other one does.
    Plan {
        name: "sessions meet",
        work: Work::Listed(&[&[&[Put(b"a", 1)]], &[&[Put(b"b", 1)]]]),
        stops: &[
            ((FirstSteps, 1), (SecondSteps, 1)),
            ((SecondSteps, 1), (FirstSteps, 1)),
        ],
        ..IDLE
    },
    // Session 2 is the younger one. It asks for what session 1 has locked, dies, and begins again; session 1 commits only then, and
    // session 2 goes on once it has.
    Plan {
        name: "the younger one dies",
        work: Work::Listed(&[&[&[Put(b"a", 1)]], &[&[Put(b"b", 2), Put(b"a", 2)]]]),
        stops: &[
            ((SecondStarts, 1), (FirstSteps, 1)),
            ((FirstSteps, 1), (SecondStarts, 2)),
            ((SecondStarts, 2), (FirstCommits, 1)),
        ],
        ..IDLE
    },
    // Session 1 is the older one. It asks for what session 2 has locked and waits, while session 3 commits sixty times; session 2
    // commits only then, and session 1 goes on once it has.
    Plan {
        name: "the older one waits",
        work: Work::Listed(&[&[&[Put(b"a", 1), Put(b"k", 1)]], &[&[Put(b"k", 2)]], &SIXTY]),
        stops: &[
            ((SecondStarts, 1), (FirstSteps, 1)),
            ((FirstSteps, 1), (SecondSteps, 1)),
            ((ThirdStarts, 1), (SecondSteps, 1)),
            ((SecondSteps, 1), (ThirdCommits, 60)),
        ],
        ..IDLE
    },
    // Session 2 is the younger one. It adds to what session 1 has added to, dies, and begins again; session 1 commits only then, and
    // session 2 goes on once it has.
    Plan {
        name: "the younger one dies of an add",
        work: Work::Listed(&[&[&[Add(b"a", 5)]], &[&[Add(b"b", 2), Add(b"a", -7)]]]),
        stops: &[
            ((SecondStarts, 1), (FirstSteps, 1)),
            ((FirstSteps, 1), (SecondStarts, 2)),
            ((SecondStarts, 2), (FirstCommits, 1)),
        ],
        ..IDLE
    },
    // Session 1 is the older one. It adds to what session 2 has added to and waits, while session 3 adds sixty times; session 2 commits
    // only then, and session 1 goes on once it has.
    Plan {
        name: "the older one waits to add",
        work: Work::Listed(&[
            &[&[Add(b"a", 1), Add(b"k", 5)]],
            &[&[Add(b"k", -7)]],
            &SIXTY_ADDS,
        ]),
        stops: &[
            ((SecondStarts, 1), (FirstSteps, 1)),
            ((FirstSteps, 1), (SecondSteps, 1)),
            ((ThirdStarts, 1), (SecondSteps, 1)),
            ((SecondSteps, 1), (ThirdCommits, 60)),
        ],
        ..IDLE
    },
    // Session 1 is the older one. It asks for what session 2 has locked and waits, while session 3 commits sixty times. Only then
    // session 2 asks for what session 1 has locked, dies and is aborted, by which session 1 is to be woken: session 3, whose last
    // commit would wake it too, and session 2, which begins again, go on once session 1 has committed.
    Plan {
        name: "an abort wakes the older one",
        work: Work::Listed(&[
            &[&[Put(b"a", 1), Put(b"k", 1)]],
            &[&[Put(b"k", 2), Put(b"a", 2)]],
            &SIXTY_ONE,
        ]),
        stops: &[
            ((SecondStarts, 1), (FirstSteps, 1)),
            ((FirstSteps, 1), (SecondSteps, 1)),
            ((ThirdStarts, 1), (SecondSteps, 1)),
            ((SecondSteps, 1), (ThirdCommits, 60)),
            ((SecondStarts, 2), (FirstCommits, 1)),
            ((ThirdStarts, 61), (FirstCommits, 1)),
        ],
        ..IDLE
    },
    // The same of the last three sessions that there may be: the last one is the one that waits.
    Plan {
        name: "an abort wakes the last one",
        work: Work::Listed(&[
            &SIXTY_ONE,
            &[&[Put(b"k", 2), Put(b"a", 2)]],
            &[&[Put(b"a", 1), Put(b"k", 1)]],
        ]),
        idle: 61,
        stops: &[
            ((SecondStarts, 1), (ThirdSteps, 1)),
            ((ThirdSteps, 1), (SecondSteps, 1)),
            ((FirstStarts, 1), (SecondSteps, 1)),
            ((SecondSteps, 1), (FirstCommits, 60)),
            ((SecondStarts, 2), (ThirdCommits, 1)),
            ((FirstStarts, 61), (ThirdCommits, 1)),
        ],
        ..IDLE
    },
    // Session 1 commits twice and may leave no entry unwritten. The logger waits before it writes until session 1 waits for it; session
    // 1 goes on from its first commit only once the logger has gone on.
    Plan {
        name: "the log holds each commit",
        work: Work::Listed(&[&[&[Put(b"a", 1)], &[Put(b"a", 2)]]]),
        lag: Some(0),
        stops: &[((LoggerIsToWrite, 1), (FirstIsBehind, 1))],
        alone: &[(FirstCommits, 1)],
        ..IDLE
    },
    // Session 1 commits three times and may leave one entry unwritten. The logger waits before it writes until session 1 waits for it;
    // session 1 commits for the second time only once the logger has gone on.
    Plan {
        name: "the log holds a client",
        work: Work::Listed(&[&[&[Put(b"a", 1)], &[Put(b"a", 2)], &[Put(b"a", 3)]]]),
        lag: Some(1),
        stops: &[((LoggerIsToWrite, 1), (FirstIsBehind, 1))],
        alone: &[(FirstCommits, 2)],
        ..IDLE
    },
    // Four sessions put keys of their own, a thousand each.
    Plan {
        name: "four apart",
        work: Work::Apart(4, 1000),
        ..IDLE
    },
    // As many sessions as there may be, over ten keys, while points are taken.
    Plan {
        name: "a crowd over ten keys",
        points: 8,
        work: Work::Crowded(64, 2),
        ..IDLE
    },
    // The same, which adds.
    Plan {
        name: "a crowd that adds",
        points: 8,
        work: Work::Adding(64, 2),
        ..IDLE
    },
];

//! A store that is served until it is killed, over a log of which all is known: what the laws of serving say of it.
ghost use Rattle.std.specs.Prelude.{◌≡◌, [], Some, length, take, IfOk, IfSome};
ghost use Rattle.pc_io.specs.Tallies.{inner_of};
ghost use Rattle.pc_engine.specs.Stands.{Stands};
ghost use Rattle.pc_engine.specs.Store.{setting_of};
ghost use Rattle.pc_log.specs.Texts.{header_text};
ghost use Rattle.pc_server.specs.Answered.{LosesNoAnswer};

use crate::serving::commits_in;
use pc_bases::Base;
use pc_engine::World;
use pc_io::Tally;
use pc_log::encode_header;
use pc_part::Part;
use pc_recover::recover;
use pc_server::{PointFiles, Service, kills_lose_no_answer, serve_input, serving_loses_no_answer};
use pc_turn::LogDevice;
use pc_types::Refusal;
use std::alloc::Global;
use std::hash::RandomState;
use std::io;
use std::io::{BufReader, Error, ErrorKind};
use std::test::Fail;

// How many bytes are read ahead, which is how long a turn may be.
const ROOM: usize = 16;

/// A log in memory, of which is known what was written and what is kept. The call after `calls` more of them fails, and so do all after
/// it, which do nothing.
#[derive(Drop)]
pub struct KnownLog {
    /// What was written.
    pub bytes: Vec<u8>,
    /// How many of these bytes are kept.
    pub kept: usize,
    /// How many calls succeed.
    pub calls: usize,
}

impl KnownLog {
    // A log of this run without an entry.
    fn new(alloc: Global, run: u64, calls: usize) -> Result<KnownLog, Refusal>
        ensures header { IfOk result (λ log. log.bytes.items ≡ header_text run) }
        ensures kept { IfOk result (λ log. log.kept ≡ length log.bytes.items) }
    {
        let mut header = Tally::new(Vec::new(alloc));
        match encode_header(&mut header, run) {
            Ok(()) => {
                let bytes = header.into_inner();
                let kept = bytes.len();
                Ok(KnownLog { bytes, kept, calls })
            }
            Err(why) => Err(why),
        }
    }
}

impl LogDevice for KnownLog {
    ghost use Rattle.std.specs.Prelude.{Some, take};

    ghost written = { λ log. Some log.bytes.items };

    ghost kept = { λ log. Some (take log.kept log.bytes.items) };

    fn append(&mut self, bytes: &[u8]) -> io::Result<()> {
        if self.calls == 0 {
            return Err(Error::from(ErrorKind::Other));
        }
        self.calls -= 1;
        match self.bytes.extend_from_slice(bytes) {
            Ok(()) => Ok(()),
            Err(_) => Err(Error::from(ErrorKind::OutOfMemory)),
        }
    }

    fn sync(&mut self) -> io::Result<()> {
        if self.calls == 0 {
            return Err(Error::from(ErrorKind::Other));
        }
        self.calls -= 1;
        self.kept = self.bytes.len();
        Ok(())
    }
}

/// Has no file of a point, and keeps none.
#[derive(Drop)]
pub struct NoFiles {
    /// How many were refused.
    pub refused: usize,
}

impl PointFiles for NoFiles {
    ghost holds = { λ files point text. ⊥ };

    fn keep(&mut self, _file: &Part) -> Result<(), Refusal> {
        self.refused = self.refused.saturating_add(1);
        Err(Refusal::Device)
    }
}

/// Answers the lines until the log fails at the call after `calls`, and returns what a process has left that was killed then: whatever of
/// the log came back, recovery loses no commit that was answered, if all did that was written, and only as many as the lag if only what was
/// kept did. `None` if an allocation failed.
pub fn killed(
    alloc: Global,
    world: World,
    lines: &[u8],
    lag: usize,
    calls: usize,
) -> Option<Service<KnownLog, Vec<u8>>>
    requires { Stands world [] }
    ensures killed { IfSome result (λ service. LosesNoAnswer (λ point text. ⊥) (Some service.log.bytes.items) (Some service.log.bytes.items) (inner_of service.out).items (Some lines.now) (setting_of world) 0) }
    ensures cut { IfSome result (λ service. LosesNoAnswer (λ point text. ⊥) (Some service.log.bytes.items) (Some (take service.log.kept service.log.bytes.items)) (inner_of service.out).items (Some lines.now) (setting_of world) lag) }
{
    let run = world.base().run();
    let Ok(log) = KnownLog::new(alloc, run, calls) else {
        return None;
    };
    let Ok(mut input) = BufReader::with_capacity(alloc, ROOM, lines) else {
        return None;
    };
    let mut service = Service::new(alloc, world, 0, lag, log, Tally::new(Vec::new(alloc)));
    let mut files = NoFiles { refused: 0 };
    let _ = serve_input(alloc, &mut service, &mut input, &mut files, usize::MAX);
    serving_loses_no_answer(&service, &files);
    kills_lose_no_answer(&service, &files);
    Some(service)
}

// Each commit has a pair of its own.
const LINES: &[u8] =
    b"begin 1\nput 1 a 1\ncommit 1\nbegin 1\nput 1 b 2\ncommit 1\nbegin 2\nput 2 c 3\ncommit 2\n";

// How many pairs are recovered of a base without pairs and this log.
fn recovered(alloc: Global, log: &[u8]) -> Result<usize, Fail> {
    let mut base = Tally::new(Vec::new(alloc));
    Base::start(9, Vec::new(alloc)).encode(&mut base)?;
    let parts: Vec<&[u8]> = Vec::new(alloc);
    let found = recover(alloc, &base.into_inner(), &parts, log)?;
    Ok(found.pairs.len())
}

// The log fails at each of its calls in turn, and the process is killed: of what was written each commit that was answered is recovered, and
// of what was kept all but as many as the lag.
#[test]
fn a_kill_loses_no_answer(rt: HostRuntime) -> Result<(), Fail> {
    let alloc = rt.alloc();
    for lag in [0, 1, 2] {
        for calls in 0..8 {
            let world = World::new(
                alloc,
                Base::start(9, Vec::new(alloc)),
                2,
                100,
                RandomState::new(&rt)?,
            )?;
            let Some(service) = killed(alloc, world, LINES, lag, calls) else {
                return Err(Fail::from(Refusal::OutOfMemory));
            };
            let (log, out) = service.into_devices();
            let answered = commits_in(&out.into_inner());
            assert!(rt; answered <= recovered(alloc, &log.bytes)?);
            let kept = log.bytes.get(..log.kept).unwrap_or(&[]);
            assert!(rt; answered.saturating_sub(lag) <= recovered(alloc, kept)?);
        }
    }
    Ok(())
}

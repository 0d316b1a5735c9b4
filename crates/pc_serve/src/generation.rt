//! One generation of a store that is served, and those that follow it.
ghost use Rattle.std.specs.Prelude.{[], IfOk};
ghost use Rattle.pc_engine.specs.Stands.{Stands};

use crate::log_file::LogFile;
use crate::points::DiskPoints;
use crate::serving::{Store, open};
use pc_disk::{LOG, generation_path, path_in};
use pc_engine::World;
use pc_io::Tally;
use pc_opening::{OpenedStore, next_base};
use pc_server::{CutOff, ServeFault, Service, Stopped, serve_input};
use pc_types::Refusal;
use std::alloc::AllocError;
use std::io::{BufReader, Read, Write};

/// Why a process that serves has failed.
#[derive(Clone, Copy, Debug, PartialEq, Eq)]
pub enum Failure {
    /// A read of the input failed.
    Input,
    /// An allocation failed, the checkpointer was refused an event, the file of a point can't be kept, or the next generation can't
    /// begin.
    Refused(Refusal),
    /// The log of the generation of this number can't be opened or written.
    Log(u32, Refusal),
    /// The output failed.
    Answers,
}

impl From<AllocError> for Failure {
    fn from(_: AllocError) -> Failure {
        Failure::Refused(Refusal::OutOfMemory)
    }
}

/// A store of which nothing was asked, the number of its generation, and where its answers go.
#[derive(Drop)]
pub struct Generation<W: Drop> {
    pub world: World,
    pub number: u32,
    pub out: Tally<W>,
    ghost stands: { Stands world [] },
}

/// Answers the lines of the input, each generation as many as it takes, until the input ends.
pub fn serve_generations<R: Read + Drop, W: Write + Drop>(
    store: &Store<'_>,
    first: Generation<W>,
    input: &mut BufReader<R>,
) -> Result<(), Failure> {
    let mut generation = first;
    for _ in 0..u64::MAX {
        match serve_generation(store, generation, input)? {
            Some(next) => generation = next,
            None => return Ok(()),
        }
    }
    Err(Failure::Refused(Refusal::Full))
}

// Answers the lines of the input until it ends; or else until the generation is full, and returns the next one.
fn serve_generation<R: Read + Drop, W: Write + Drop>(
    store: &Store<'_>,
    generation: Generation<W>,
    input: &mut BufReader<R>,
) -> Result<Option<Generation<W>>, Failure> {
    let folder = generation_path(store.dir, generation.number)?;
    let log = log_of(store, folder.as_str(), generation.number)?;
    let points = DiskPoints {
        dir: store.dir,
        lock: store.lock(),
        folder: folder.as_str(),
        is_synced: store.options.is_synced,
    };
    answer_lines(store, generation, log, points, input)
}

// The log of the generation of this number and folder.
fn log_of<'a>(store: &Store<'a>, folder: &str, number: u32) -> Result<LogFile<'a>, Failure> {
    let path = path_in(store.dir.rt.alloc(), folder, LOG)?;
    match LogFile::open(store.dir, path.as_str(), store.options.is_synced) {
        Ok(log) => Ok(log),
        Err(why) => Err(Failure::Log(number, why)),
    }
}

// The same as `serve_generation`, over the log of the generation, and with the folder of its points.
fn answer_lines<R: Read + Drop, W: Write + Drop>(
    store: &Store<'_>,
    generation: Generation<W>,
    log: LogFile<'_>,
    points: DiskPoints<'_>,
    input: &mut BufReader<R>,
) -> Result<Option<Generation<W>>, Failure> {
    let (alloc, options) = (store.dir.rt.alloc(), store.options);
    let Generation { world, number, out } = generation;
    let mut points = points;
    let every = u64::from(options.every);
    let mut service = Service::new(alloc, world, every, options.lag as usize, log, out);
    let roll = options.roll as usize;
    match serve_input(alloc, &mut service, input, &mut points, roll) {
        Ok(Stopped::Ended) => Ok(None),
        Ok(Stopped::Filled) => {
            let (world, out) = service.into_world();
            next_generation(store, number, world, out)
        }
        Err(why) => Err(failure_of(why, number)),
    }
}

// Begins the generation after this one, which starts from the pairs that are committed in its store.
fn next_generation<W: Write + Drop>(
    store: &Store<'_>,
    number: u32,
    world: World,
    out: Tally<W>,
) -> Result<Option<Generation<W>>, Failure> {
    let base = match next_base(&world) {
        Ok(base) => base,
        Err(why) => return Err(Failure::Refused(why)),
    };
    drop(world);
    if !store.lock().is_held() {
        return Err(Failure::Refused(Refusal::Device));
    }
    match open(store, Some(number), base) {
        Ok(
            OpenedStore {
                world,
                generation,
                ..
            },
        ) => Ok(Some(Generation {
            world,
            number: generation,
            out,
        })),
        Err(why) => Err(Failure::Refused(why)),
    }
}

fn failure_of(why: ServeFault, number: u32) -> Failure {
    match why {
        ServeFault::Input => Failure::Input,
        ServeFault::Refused(why) => Failure::Refused(why),
        ServeFault::CutOff(CutOff::Log) => Failure::Log(number, Refusal::Device),
        ServeFault::CutOff(CutOff::Answers) => Failure::Answers,
    }
}

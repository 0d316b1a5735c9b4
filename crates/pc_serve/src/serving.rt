//! A store that is served: it goes on as the store of a folder, and answers lines of standard input on standard output.
ghost use Rattle.std.specs.Prelude.{◌≡◌, ◌≤◌, [], IfOk};
ghost use Rattle.pc_engine.specs.Stands.{Stands};

use crate::generation::{Failure, Generation, serve_generations};
use crate::terminal::Typed;
use itoa::Buffer;
use pc_bases::Base;
use pc_disk::{
    Causes, FoundFolder, GenerationFolders, INPUT, LOG, LateFile, Noted, ReadFolder,
    generation_path, open_folder, output_before, path_in, tell_unopened,
};
use pc_engine::World;
use pc_explanations::{About, Explainer, Served, explain_output};
use pc_folders::{
    Doubt, FolderLock, HeldOutput, Leave, Owned, RecoveredFolder, Unowned, open_start, own,
    tell_left,
};
use pc_io::Tally;
use pc_opening::{Begun, OpenedStore, StoreSize, Succession, open_store};
use pc_options::ServeOptions;
use pc_restore::{Lost, recover_base, tell_lost};
use pc_texts::{report, report_words};
use pc_types::Refusal;
use std::alloc::AllocError;
use std::hash::RandomState;
use std::io;
use std::io::{BufReader, Read, Write};
use std::random::RandomSource;
use std::string::String;

/// The status of a process that failed before its input ended.
const FAILED: u8 = 1;

/// How many bytes of lines are read at most at a time, so that a turn has no more.
const ROOM: usize = 65_536;

/// The greatest number of a run that is drawn.
const MOST_DRAWN: u32 = 2_147_483_647;

/// Serves the store of the folder as the options say; the status.
pub fn serve_folder<'a>(rt: &'a HostRuntime, options: &'a ServeOptions<'a>) -> io::Result<u8> {
    let causes = Causes::new(rt.alloc())?;
    let drawn = draw(rt, options)?;
    let dir = ReadFolder {
        rt,
        path: options.dir,
        causes: &causes,
    };
    let leave = Leave {
        creates: options.creates,
        imports: options.import.is_some(),
        accepts_damage: options.accepts_damage,
    };
    match own(dir, leave) {
        Ok(owned) => serve_owned(dir, options, drawn, &owned),
        Err(why) => {
            tell_unowned(dir, options, why)?;
            Ok(FAILED)
        }
    }
}

// The random numbers, drawn before anything is opened.
#[derive(Clone, Copy)]
struct Drawn {
    // The seed of the hashes of its stores.
    seed: RandomState,
    // The number of the run of a first generation; it is drawn if none was asked for.
    run: u32,
}

fn draw(rt: &HostRuntime, options: &ServeOptions<'_>) -> io::Result<Drawn> {
    let seed = RandomState::new(rt)?;
    let run = match options.run {
        Some(run) => run,
        None => draw_run(rt)?,
    };
    Ok(Drawn { seed, run })
}

fn draw_run(rt: &HostRuntime) -> io::Result<u32> {
    let mut bytes = [0; 8];
    rt.fill_bytes(&mut bytes)?;
    Ok(run_of(u64::from_le_bytes(bytes)))
}

// The number of a run, 1 to 2,147,483,647, by a number that was drawn.
fn run_of(drawn: u64) -> u32
    ensures { (1 ≤ result) × (result ≤ MOST_DRAWN) }
{
    1 + (drawn % u64::from(MOST_DRAWN)) as u32
}

// Reports why the folder isn't this process's own.
fn tell_unowned(
    dir: ReadFolder<'_>,
    options: &ServeOptions<'_>,
    why: Unowned,
) -> Result<(), AllocError> {
    let explainer = Explainer::new(dir.rt, dir.causes, About::Run, options.is_explained);
    let stderr = dir.rt.stderr();
    let mut errors = explainer.errors(io::writer(&stderr));
    why.tell(dir, &mut errors)
}

/// A store to serve.
#[derive(Drop)]
pub struct Store<'a> {
    pub dir: ReadFolder<'a>,
    pub options: &'a ServeOptions<'a>,
    drawn: Drawn,
    owned: &'a Owned<'a>,
    // The folder from whose state it starts; its path is empty if there is none.
    from: &'a RecoveredFolder,
}

impl<'a> Store<'a> {
    /// By which the folder is this process's own.
    pub fn lock(&self) -> &'a FolderLock<'a> {
        let owned = self.owned;
        &owned.lock
    }
}

// Serves the store of a folder that is this process's own; the status.
fn serve_owned<'a>(
    dir: ReadFolder<'a>,
    options: &'a ServeOptions<'a>,
    drawn: Drawn,
    owned: &'a Owned<'a>,
) -> io::Result<u8> {
    let from = start_of(dir, options, owned.found.latest)?;
    serve_told(Store {
        dir,
        options,
        drawn,
        owned,
        from: &from,
    })
}

// Serves the store, and reports its faults; the status.
fn serve_told<'a>(store: Store<'a>) -> io::Result<u8> {
    let explainer = explainer_of(&store);
    let stderr = store.dir.rt.stderr();
    let mut errors = explainer.errors(io::writer(&stderr));
    let status = if is_told(&store, &mut errors)? {
        explainer.tell_truncated(&mut errors);
        serve_from(&store, &mut errors)?
    } else {
        FAILED
    };
    explain_output(&explainer, &mut errors);
    Ok(status)
}

// Reports what is lacking of the folder, and of the one that is imported, if one is; whether the store can start from it.
fn is_told<E: Write>(store: &Store<'_>, errors: &mut Tally<E>) -> Result<bool, AllocError> {
    let accepts = store.options.accepts_damage;
    if let Some(number) = store.owned.found.lost {
        Doubt::Lost(number).tell(store.dir, accepts, errors)?;
    }
    let Some(old) = store.options.import else {
        return Ok(true);
    };
    let imported = ReadFolder {
        rt: store.dir.rt,
        path: old,
        causes: store.dir.causes,
    };
    store.from.tell(imported, accepts, errors)
}

// The folder from whose state the store starts: that of the generation that counts, or else the one that is imported; without a path
// if there is neither.
fn start_of(
    dir: ReadFolder<'_>,
    options: &ServeOptions<'_>,
    latest: Option<u32>,
) -> Result<RecoveredFolder, AllocError> {
    let path = match (latest, options.import) {
        (Some(number), _) => generation_path(dir, number)?,
        (None, Some(old)) => {
            return RecoveredFolder::find(ReadFolder {
                rt: dir.rt,
                path: old,
                causes: dir.causes,
            });
        }
        (None, None) => String::new(dir.rt.alloc()),
    };
    Ok(RecoveredFolder::of_path(path))
}

// Explains the faults of the store.
fn explainer_of<'a>(store: &Store<'a>) -> Explainer<'a> {
    let about = about(store.options, store.from.path.as_str());
    Explainer::new(
        store.dir.rt,
        store.dir.causes,
        about,
        store.options.is_explained,
    )
}

// The subject of its faults.
fn about<'a>(options: &ServeOptions<'a>, from: &'a str) -> About<'a> {
    if from.is_empty() {
        return About::Run;
    }
    About::Store(Served {
        dir: options.dir,
        from,
        capacity: options.capacity,
    })
}

// Serves the store on standard input and output; the status.
fn serve_from<E: Write>(store: &Store<'_>, errors: &mut Tally<E>) -> io::Result<u8> {
    let (rt, causes) = (store.dir.rt, store.dir.causes);
    let name = String::from_str(rt.alloc(), INPUT)?;
    let stdin = Typed::new(Noted::new(rt.stdin(), name, causes), rt);
    let mut input = BufReader::with_capacity(rt.alloc(), ROOM, stdin)?;
    let out = HeldOutput::new(output_before(rt, causes, io::writer(rt))?, store.lock());
    serve_lines(store, &mut input, Tally::new(out), errors)
}

// Opens the store, and serves it to the lines of this input; the status.
fn serve_lines<R: Read + Drop, W: Write + Drop, E: Write>(
    store: &Store<'_>,
    input: &mut BufReader<R>,
    out: Tally<W>,
    errors: &mut Tally<E>,
) -> io::Result<u8> {
    let base = match base_of(store, errors) {
        Ok(base) => base,
        Err(lost) => {
            tell_lost(store.from.path.as_bytes(), &lost, errors);
            return Ok(FAILED);
        }
    };
    match open(store, store.owned.found.last(), base) {
        Ok(opened) => serve_opened(store, opened, input, out, errors),
        Err(why) => {
            let _ = report(store.dir.path.as_bytes(), why, errors);
            Ok(FAILED)
        }
    }
}

// The base from which the store starts: the state recovered from the given folder, or no pairs.
fn base_of<'a, E: Write>(
    store: &Store<'a>,
    errors: &mut Tally<E>,
) -> Result<Base, Lost<LateFile<'a>>>
    ensures { IfOk result (λ base. base.point ≡ 0) }
{
    let alloc = store.dir.rt.alloc();
    let path = store.from.path.as_str();
    if path.is_empty() {
        return Ok(Base::start(u64::from(store.drawn.run), Vec::new(alloc)));
    }
    let dir = ReadFolder {
        rt: store.dir.rt,
        path,
        causes: store.dir.causes,
    };
    let opened = if store.options.import.is_some() {
        open_start(dir)
    } else {
        open_folder(dir)
    };
    let FoundFolder { folder, unopened } = match opened {
        Ok(found) => found,
        Err(_) => return Err(Lost::Folder(Refusal::OutOfMemory)),
    };
    tell_unopened(&unopened, errors);
    recover_base(alloc, folder, store.options.accepts_damage, errors)
}

/// Opens a store over its base, and begins the generation after this one. Which older ones can't be removed is reported.
pub fn open(store: &Store<'_>, latest: Option<u32>, base: Base) -> Result<OpenedStore, Refusal>
    requires { base.point ≡ 0 }
    ensures { IfOk result (λ opened. Stands opened.world []) }
{
    let options = store.options;
    let size = StoreSize {
        sessions: options.sessions,
        capacity: options.capacity,
    };
    let succession = Succession {
        latest,
        keep: options.keep,
    };
    let alloc = store.dir.rt.alloc();
    let mut folders = GenerationFolders { dir: store.dir };
    let seed = store.drawn.seed;
    match open_store(alloc, &mut folders, succession, base, size, seed) {
        Ok(opened) => {
            tell_removal(store, opened.generation, opened.removal);
            Ok(opened)
        }
        Err(why) => Err(why),
    }
}

// Reports which generations older than this one can't be removed, if there are any.
fn tell_removal(store: &Store<'_>, generation: u32, removal: Result<(), Refusal>) {
    let begun = Begun {
        generation,
        removal,
    };
    let explainer = explainer_of(store);
    let stderr = store.dir.rt.stderr();
    let mut errors = explainer.errors(io::writer(&stderr));
    let _ = tell_left(store.dir, begun, store.options.keep, &mut errors);
}

// Serves the store that was opened; the status.
fn serve_opened<R: Read + Drop, W: Write + Drop, E: Write>(
    store: &Store<'_>,
    opened: OpenedStore,
    input: &mut BufReader<R>,
    out: Tally<W>,
    errors: &mut Tally<E>,
) -> io::Result<u8>
    requires { Stands opened.world [] }
{
    let mut out = out;
    let OpenedStore {
        world,
        generation,
        ..
    } = opened;
    if put_ready(&world, &mut out).is_err() {
        return tell_failure(store, Failure::Answers, errors);
    }
    let first = Generation {
        world,
        number: generation,
        out,
    };
    match serve_generations(store, first, input) {
        Ok(()) => Ok(0),
        Err(failure) => tell_failure(store, failure, errors),
    }
}

// Prints that the store is served, with the number of its run, and of how many pairs it has.
fn put_ready<W: Write>(world: &World, out: &mut Tally<W>) -> Result<(), Refusal> {
    let base = world.base();
    let (mut run, mut pairs) = (Buffer::new(), Buffer::new());
    let run = run.format(base.run()).as_bytes();
    let pairs = pairs.format(base.pairs().len()).as_bytes();
    out.put_all(&[b"ready run ", run, b" pairs ", pairs, b"\n"])?;
    match out.flush() {
        Ok(()) => Ok(()),
        Err(_) => Err(Refusal::Device),
    }
}

// Reports why the process ended before its input did; the status. A fault of the output isn't reported.
fn tell_failure<E: Write>(
    store: &Store<'_>,
    failure: Failure,
    errors: &mut Tally<E>,
) -> io::Result<u8> {
    let dir = store.dir.path.as_bytes();
    if store.lock().has_moved() {
        let _ = report_words(dir, b"Moved", errors);
        return Ok(FAILED);
    }
    let _ = match failure {
        Failure::Input => report_input(Refusal::Device, errors),
        Failure::Refused(why) => report(dir, why, errors),
        Failure::Log(number, why) => {
            let folder = generation_path(store.dir, number)?;
            let path = path_in(store.dir.rt.alloc(), folder.as_str(), LOG)?;
            report(path.as_bytes(), why, errors)
        }
        Failure::Answers => Ok(()),
    };
    Ok(FAILED)
}

// Reports a fault of standard input, by its name as it is. Returns `Device` if and only if the device failed in this call.
fn report_input<E: Write>(why: Refusal, errors: &mut Tally<E>) -> Result<(), Refusal> {
    errors.put_all(&[b"pcalc: standard input: ", why.name().as_bytes(), b"\n"])
}

//! The command line.
ghost use Rattle.std.specs.Prelude.{◌≤◌};
ghost use Rattle.pc_types.specs.declared.limits.TheConstants.{MOST_COLLAPSERS, MOST_KEYS, MOST_SESSIONS, MOST_WORKERS};

use crate::looking::{
    LogOptions, VerifyOptions, log_command, log_options_of, verify_command, verify_options_of,
};
use crate::moving::{
    DumpOptions, LoadOptions, dump_command, dump_options_of, load_command, load_options_of,
};
use crate::said::{Said, command_of};
use clap::error::ErrorKind;
use clap::{ArgMatches, Command, Error};
use pc_types::{MOST_COLLAPSERS, MOST_KEYS, MOST_SESSIONS, MOST_WORKERS};
use std::alloc::{AllocError, Global};

/// The text that `pcalc --version` prints after the program's name.
const VERSION: &str = "1.0.0, formats 01 and 02";

/// The options of `pcalc step`.
#[derive(Drop)]
pub struct StepOptions<'a> {
    /// The file of the script.
    pub script: &'a str,
    /// The run's number, 1 to 2,147,483,647.
    pub run: u32,
    /// The number of the store's sessions, 1 to 64.
    pub sessions: u8,
    /// The number of keys that the store has room for, 1 to 1,048,576.
    pub capacity: u32,
    /// Whether faults are explained even if standard error is no terminal.
    pub is_explained: bool,
    ghost has_sessions: { (1 ≤ sessions) × (sessions ≤ MOST_SESSIONS) },
    ghost has_room: { (1 ≤ capacity) × (capacity ≤ MOST_KEYS) },
}

/// The options of `pcalc collapse`.
#[derive(Drop)]
pub struct CollapseOptions<'a> {
    /// The file that is written.
    pub target: &'a str,
    /// The part files, in the order in which they are read.
    pub inputs: Vec<&'a str>,
    /// Whether faults are explained even if standard error is no terminal.
    pub is_explained: bool,
}

/// The options of `pcalc recover`.
#[derive(Drop)]
pub struct RecoverOptions<'a> {
    /// The folder of the files.
    pub dir: &'a str,
    /// Whether a folder with gaps has a status of its own.
    pub is_strict: bool,
    /// Whether faults are explained even if standard error is no terminal.
    pub is_explained: bool,
}

/// The options of `pcalc run`.
#[derive(Drop)]
pub struct RunOptions<'a> {
    /// The file of the workload.
    pub workload: &'a str,
    /// The number of workers that run the clients, 1 to 64.
    pub workers: u8,
    /// The number of collapsers that join the points' files, 1 to 64.
    pub collapsers: u8,
    /// The folder to which the files are written, if any.
    pub folder: Option<&'a str>,
    /// The number of log entries that may wait to be written, at most 16,777,216.
    pub lag: u32,
    /// Whether the files' bytes must reach their device.
    pub is_synced: bool,
    /// The number of commits after which a further point begins, 1 to 1,000,000,000, if one is given.
    pub every: Option<u32>,
    /// The folder from whose state it starts, if any.
    pub from: Option<&'a str>,
    /// Whether that folder may be damaged.
    pub accepts_damage: bool,
    /// The run's number, 1 to 2,147,483,647, if it starts from nothing.
    pub run: u32,
    /// The number of keys that the store has room for, 1 to 1,048,576.
    pub capacity: u32,
    /// Whether nothing is shown while it runs.
    pub is_quiet: bool,
    /// Whether a report is printed in the end.
    pub is_reported: bool,
    /// The file to which the times of commits are written, if any.
    pub times: Option<&'a str>,
    /// Whether faults are explained even if standard error is no terminal.
    pub is_explained: bool,
    ghost in_range: { (1 ≤ workers) × (workers ≤ MOST_WORKERS) × (1 ≤ collapsers) × (collapsers ≤ MOST_COLLAPSERS) },
    ghost has_room: { (1 ≤ capacity) × (capacity ≤ MOST_KEYS) },
}

/// The options of `pcalc serve`.
#[derive(Drop)]
pub struct ServeOptions<'a> {
    /// The folder of the store's generations.
    pub dir: &'a str,
    /// Whether the folder and a first generation are made if there are none.
    pub creates: bool,
    /// The number of the run of a first generation, 1 to 2,147,483,647, if one is given.
    pub run: Option<u32>,
    /// The folder from whose state a first generation starts, if any.
    pub import: Option<&'a str>,
    /// Whether the folder that it starts from may be damaged.
    pub accepts_damage: bool,
    /// The number of the store's sessions, 1 to 64.
    pub sessions: u8,
    /// The number of keys that the store has room for, 1 to 1,048,576.
    pub capacity: u32,
    /// A point begins after this many commits; none does with 0.
    pub every: u32,
    /// The next generation begins once the log has this many entries and no transaction is open, 1 to 16,777,216.
    pub roll: u32,
    /// The number of generations before the current one that are kept, 1 to 9,999,999.
    pub keep: u32,
    /// The number of log entries that may be answered before a flush, at most 16,777,216.
    pub lag: u32,
    /// Whether the log must be on its disk before answers go out.
    pub is_synced: bool,
    /// Whether faults are explained even if standard error is no terminal.
    pub is_explained: bool,
    ghost has_sessions: { (1 ≤ sessions) × (sessions ≤ MOST_SESSIONS) },
    ghost has_room: { (1 ≤ capacity) × (capacity ≤ MOST_KEYS) },
    ghost keeps_one: { 1 ≤ keep },
}

/// The task of the program.
#[derive(Drop)]
pub enum Task<'a> {
    /// `pcalc step`.
    Step(StepOptions<'a>),
    /// `pcalc run`.
    Run(RunOptions<'a>),
    /// `pcalc collapse`.
    Collapse(CollapseOptions<'a>),
    /// `pcalc recover`.
    Recover(RecoverOptions<'a>),
    /// `pcalc log`.
    Log(LogOptions<'a>),
    /// `pcalc verify`.
    Verify(VerifyOptions<'a>),
    /// `pcalc dump`.
    Dump(DumpOptions<'a>),
    /// `pcalc load`.
    Load(LoadOptions<'a>),
    /// `pcalc serve`.
    Serve(ServeOptions<'a>),
}

impl<'a> Task<'a> {
    /// The file or the folder that it is about, as it was given.
    pub fn name(&self) -> &'a str {
        match self {
            Task::Step(options) => options.script,
            Task::Run(options) => options.workload,
            Task::Collapse(options) => options.target,
            Task::Recover(options) => options.dir,
            Task::Log(options) => options.file,
            Task::Verify(options) => match options.paths.first() {
                Some(path) => *path,
                None => "",
            },
            Task::Dump(options) => options.dir,
            Task::Load(options) => options.dir,
            Task::Serve(options) => options.dir,
        }
    }
}

/// The task of the command line, or the error to print: a fault, or the help that was asked for.
pub fn task_of<'a>(alloc: Global, words: &'a [&'a str]) -> Result<Option<Task<'a>>, Error> {
    let matches = command(alloc)?.try_get_matches_from(words)?;
    if let Some(matches) = matches.subcommand_matches("step") {
        return Ok(options_of(matches).map(|options| Task::Step(options)));
    }
    if let Some(matches) = matches.subcommand_matches("run") {
        return Ok(run_options_of(matches).map(|options| Task::Run(options)));
    }
    if let Some(matches) = matches.subcommand_matches("collapse") {
        return Ok(collapse_options_of(alloc, matches)?.map(|options| Task::Collapse(options)));
    }
    if let Some(matches) = matches.subcommand_matches("recover") {
        return Ok(recover_options_of(matches).map(|options| Task::Recover(options)));
    }
    if let Some(matches) = matches.subcommand_matches("log") {
        return Ok(log_options_of(matches).map(|options| Task::Log(options)));
    }
    if let Some(matches) = matches.subcommand_matches("verify") {
        return Ok(Some(Task::Verify(verify_options_of(alloc, matches)?)));
    }
    if let Some(matches) = matches.subcommand_matches("dump") {
        return Ok(dump_options_of(matches).map(|options| Task::Dump(options)));
    }
    if let Some(matches) = matches.subcommand_matches("load") {
        return Ok(load_options_of(matches).map(|options| Task::Load(options)));
    }
    match matches.subcommand_matches("serve") {
        Some(matches) => Ok(serve_options_of(matches).map(|options| Task::Serve(options))),
        None => Ok(None),
    }
}

/// The error for a command line of which a word isn't UTF-8.
pub fn unreadable(alloc: Global) -> Result<Error, Error> {
    let mut command = command(alloc)?;
    Ok(command.error(ErrorKind::InvalidValue, "a word isn't UTF-8")?)
}

fn command<'a>(alloc: Global) -> Result<Command<'a>, Error> {
    let command = Command::new(alloc, "pcalc")
        .about("A transactional key-value store in memory")
        .version(VERSION)
        .subcommand_required(true);
    let command = with_command(command, step_command(alloc)?)?;
    let command = with_command(command, run_command(alloc)?)?;
    let command = with_command(command, collapse_command(alloc)?)?;
    let command = with_command(command, recover_command(alloc)?)?;
    let command = with_command(command, log_command(alloc)?)?;
    let command = with_command(command, verify_command(alloc)?)?;
    let command = with_command(command, dump_command(alloc)?)?;
    let command = with_command(command, load_command(alloc)?)?;
    with_command(command, serve_command(alloc)?)
}

fn with_command<'a>(command: Command<'a>, inner: Command<'a>) -> Result<Command<'a>, Error> {
    Ok(command.subcommand(inner)?)
}

/// The option that explains faults.
pub(crate) fn explain_option() -> Said {
    Said::flag(
        "explain",
        "Explains each fault, as if standard error were a terminal",
    )
}

/// The option of a run's number.
pub(crate) fn run_option() -> Said {
    let help = "The run's number, 1 to 2147483647";
    Said::number("run", "N", 1, 2_147_483_647, help).or("1")
}

fn sessions_option(default: &'static str) -> Said {
    let help = "How many sessions the store has, 1 to 64";
    Said::number("sessions", "N", 1, i64::from(MOST_SESSIONS), help).or(default)
}

fn capacity_option(default: &'static str) -> Said {
    let help = "How many keys the store has room for, 1 to 1048576";
    Said::number("capacity", "N", 1, i64::from(MOST_KEYS), help).or(default)
}

fn lag_option(help: &'static str, default: &'static str) -> Said {
    Said::number("lag", "N", 0, 16_777_216, help).or(default)
}

fn step_command<'a>(alloc: Global) -> Result<Command<'a>, Error> {
    let said = [
        Said::text("SCRIPT", "The script's file"),
        sessions_option("8"),
        capacity_option("1024"),
        run_option(),
        explain_option(),
    ];
    command_of(alloc, "step", "Answers the lines of a script", &said)
}

fn run_command<'a>(alloc: Global) -> Result<Command<'a>, Error> {
    let about = "Runs clients on threads, with a checkpointer and collapsers";
    let [workers, collapsers] = threads_options();
    let [every, from, damaged] = start_options();
    let [dir, lag, sync] = file_options();
    let [quiet, report, times] = telling_options();
    let said = [
        Said::text("WORKLOAD", "The workload's file"),
        workers,
        collapsers,
        every,
        capacity_option("65536"),
        run_option(),
        from,
        damaged,
        explain_option(),
        dir,
        lag,
        sync,
        quiet,
        report,
        times,
    ];
    command_of(alloc, "run", about, &said)
}

fn threads_options() -> [Said; 2] {
    let workers = "How many threads run the clients, 1 to 64";
    let collapsers = "How many threads join the points' files, 1 to 64";
    [
        Said::number("workers", "N", 1, i64::from(MOST_WORKERS), workers).or("4"),
        Said::number("collapsers", "N", 1, i64::from(MOST_COLLAPSERS), collapsers).or("2"),
    ]
}

// The options for the beginning of points, and for the state that a run starts from.
fn start_options() -> [Said; 3] {
    let every =
        "Commits from one point to the next, 1 to 1000000000; by default the points are spread over the run";
    let from =
        "A folder of an earlier run: the store starts from its state, as the run with the next number";
    let damaged =
        "Starts from OLD even if a part of it was skipped, or its log is missing or damaged";
    [
        Said::number("every", "COMMITS", 1, 1_000_000_000, every),
        Said::value("from", "OLD", from).excludes("run"),
        Said::flag("damaged", damaged).needs("from"),
    ]
}

// The options for the files that a run leaves.
fn file_options() -> [Said; 3] {
    let dir =
        "Writes base.pcb, the points' part files and log.pcl to DIR, which has no files of a run";
    let lag = "How many entries of the log may be unwritten before a client waits, 0 to 16777216";
    let sync = "Counts a write to a file only once it is on the disk";
    [
        Said::value("dir", "DIR", dir),
        lag_option(lag, "65536").needs("dir"),
        Said::flag("sync", sync).needs("dir"),
    ]
}

// The options for the output of a run.
fn telling_options() -> [Said; 3] {
    let quiet = "Shows no progress on a terminal";
    let report =
        "Also prints how fast it was, how many transactions died, and the longest wait and pause";
    let times = "A file to which the commits in each hundredth of a second are written";
    [
        Said::flag("quiet", quiet),
        Said::flag("report", report),
        Said::value("times", "FILE", times),
    ]
}

fn collapse_command<'a>(alloc: Global) -> Result<Command<'a>, Error> {
    let said = [
        Said::text("OUT", "The file that is written"),
        Said::texts("IN", "The part files that are joined"),
        explain_option(),
    ];
    command_of(alloc, "collapse", "Joins part files into one", &said)
}

fn recover_command<'a>(alloc: Global) -> Result<Command<'a>, Error> {
    let strict = "Ends with status 4 if the folder lacks something: a part, or a whole log";
    let said = [
        recovered_folder(),
        Said::flag("strict", strict),
        explain_option(),
    ];
    command_of(
        alloc,
        "recover",
        "Prints the state recovered from a folder's files",
        &said,
    )
}

/// The folder that is recovered.
pub(crate) fn recovered_folder() -> Said {
    let help = "The folder of base.pcb, the .pcp files and log.pcl, or of a served store";
    Said::word("DIR", help)
}

fn serve_command<'a>(alloc: Global) -> Result<Command<'a>, Error> {
    let lag = "How many entries of the log may be answered before a flush, 0 to 16777216";
    let damaged =
        "Continues even if the log of what it starts from is missing or damaged, or a part of it was skipped";
    let [create, run, import] = making_options();
    let [every, roll, keep] = generation_options();
    let said = [
        Said::word("DIR", "The folder of the store"),
        create,
        run,
        import,
        sessions_option("64"),
        capacity_option("1048576"),
        every,
        roll,
        keep,
        lag_option(lag, "0"),
        Said::flag("sync", "Answers commits only once they are on the disk"),
        Said::flag("damaged", damaged),
        explain_option(),
    ];
    command_of(
        alloc,
        "serve",
        "Answers lines over the store of a folder",
        &said,
    )
}

// The options for a store that is made if there is none.
fn making_options() -> [Said; 3] {
    let create = "Makes the folder and a store in it, if there is none";
    let run =
        "The number of a new store's first run, 1 to 2147483647; by default it is drawn at random";
    let import =
        "A folder of a run or of a served store: a new store starts from its state, as the run with the next number";
    [
        Said::flag("create", create),
        Said::number("run", "N", 1, 2_147_483_647, run).needs("create"),
        Said::value("import", "OLD", import)
            .needs("create")
            .excludes("run"),
    ]
}

// The options for points and generations.
fn generation_options() -> [Said; 3] {
    let every = "A point is taken after this many commits; none with 0";
    let roll = "A new generation begins once the log has this many entries, 1 to 16777216";
    let keep = "How many generations before the current one are kept, 1 to 9999999";
    [
        Said::number("every", "COMMITS", 0, i64::from(u32::MAX), every).or("0"),
        Said::number("roll", "ENTRIES", 1, 16_777_216, roll).or("1000000"),
        Said::number("keep", "N", 1, 9_999_999, keep).or("1"),
    ]
}

fn options_of<'a>(matches: &ArgMatches<'a>) -> Option<StepOptions<'a>> {
    let script = matches.get_str("SCRIPT")?;
    let sessions = matches.get_one::<u8>("sessions")?;
    let capacity = matches.get_one::<u32>("capacity")?;
    let run = matches.get_one::<u32>("run")?;
    if capacity < 1 || MOST_KEYS < capacity || sessions < 1 || MOST_SESSIONS < sessions {
        return None;
    }
    Some(StepOptions {
        script,
        run,
        sessions,
        capacity,
        is_explained: matches.get_flag("explain"),
    })
}

fn run_options_of<'a>(matches: &ArgMatches<'a>) -> Option<RunOptions<'a>> {
    let workload = matches.get_str("WORKLOAD")?;
    let workers = matches.get_one::<u8>("workers")?;
    let collapsers = matches.get_one::<u8>("collapsers")?;
    let capacity = matches.get_one::<u32>("capacity")?;
    if workers < 1 || MOST_WORKERS < workers || collapsers < 1 || MOST_COLLAPSERS < collapsers {
        return None;
    }
    if capacity < 1 || MOST_KEYS < capacity {
        return None;
    }
    Some(RunOptions {
        workload,
        workers,
        collapsers,
        folder: matches.get_str("dir"),
        lag: matches.get_one::<u32>("lag")?,
        is_synced: matches.get_flag("sync"),
        every: matches.get_one::<u32>("every"),
        from: matches.get_str("from"),
        accepts_damage: matches.get_flag("damaged"),
        run: matches.get_one::<u32>("run")?,
        capacity,
        is_quiet: matches.get_flag("quiet"),
        is_reported: matches.get_flag("report"),
        times: matches.get_str("times"),
        is_explained: matches.get_flag("explain"),
    })
}

fn recover_options_of<'a>(matches: &ArgMatches<'a>) -> Option<RecoverOptions<'a>> {
    Some(RecoverOptions {
        dir: matches.get_str("DIR")?,
        is_strict: matches.get_flag("strict"),
        is_explained: matches.get_flag("explain"),
    })
}

fn serve_options_of<'a>(matches: &ArgMatches<'a>) -> Option<ServeOptions<'a>> {
    let sessions = matches.get_one::<u8>("sessions")?;
    let capacity = matches.get_one::<u32>("capacity")?;
    let keep = matches.get_one::<u32>("keep")?;
    if capacity < 1
        || MOST_KEYS < capacity
        || sessions < 1
        || MOST_SESSIONS < sessions
        || keep < 1
    {
        return None;
    }
    Some(ServeOptions {
        dir: matches.get_str("DIR")?,
        creates: matches.get_flag("create"),
        run: matches.get_one::<u32>("run"),
        import: matches.get_str("import"),
        accepts_damage: matches.get_flag("damaged"),
        sessions,
        capacity,
        every: matches.get_one::<u32>("every")?,
        roll: matches.get_one::<u32>("roll")?,
        keep,
        lag: matches.get_one::<u32>("lag")?,
        is_synced: matches.get_flag("sync"),
        is_explained: matches.get_flag("explain"),
    })
}

fn collapse_options_of<'a>(
    alloc: Global,
    matches: &ArgMatches<'a>,
) -> Result<Option<CollapseOptions<'a>>, AllocError> {
    let Some(target) = matches.get_str("OUT") else {
        return Ok(None);
    };
    let mut inputs = Vec::new(alloc);
    for input in matches.get_strs("IN").unwrap_or(&[]) {
        inputs.push(*input)?;
    }
    Ok(Some(CollapseOptions {
        target,
        inputs,
        is_explained: matches.get_flag("explain"),
    }))
}

//! The commands that take pairs out of a folder, and bring them into one.
use crate::options::{explain_option, recovered_folder, run_option};
use crate::said::{Said, command_of};
use clap::{ArgMatches, Command, Error};
use std::alloc::Global;

/// The options of `pcalc dump`.
#[derive(Drop)]
pub struct DumpOptions<'a> {
    /// The folder.
    pub dir: &'a str,
    /// The space of the keys, 0 to 65,535, if one is given.
    pub space: Option<u16>,
    /// The word of the bytes with which a key's own bytes begin, if there is one.
    pub prefix: Option<&'a str>,
    /// Whether the lines are JSON.
    pub is_json: bool,
    /// The point whose state is printed, 1 to 65,535, if one is given.
    pub point: Option<u16>,
    /// Whether the folder may be damaged.
    pub accepts_damage: bool,
    /// Whether faults are explained even if standard error is no terminal.
    pub is_explained: bool,
}

/// The arguments and options of `pcalc dump` in a command line.
pub(crate) fn dump_command<'a>(alloc: Global) -> Result<Command<'a>, Error> {
    let space = "Prints only the pairs of this key space, 0 to 65535";
    let prefix =
        "Prints only the pairs whose key's own bytes begin with those of this word, spelled like a printed value";
    let point = "Prints the state of this point, 1 to 65535, instead of the recovered state";
    let damaged = "Prints even if a part was skipped, or the log is missing or damaged";
    let about = "Prints the pairs recovered from a folder's files, a line for each";
    let said = [
        recovered_folder(),
        Said::number("space", "N", 0, 65_535, space),
        Said::value("prefix", "WORD", prefix),
        json_option(),
        Said::number("point", "N", 1, 65_535, point).excludes("damaged"),
        Said::flag("damaged", damaged),
        explain_option(),
    ];
    command_of(alloc, "dump", about, &said)
}

fn json_option() -> Said {
    Said::flag("json", "The lines are JSON objects")
}

/// The options in the words of `pcalc dump`.
pub(crate) fn dump_options_of<'a>(matches: &ArgMatches<'a>) -> Option<DumpOptions<'a>> {
    Some(DumpOptions {
        dir: matches.get_str("DIR")?,
        space: matches.get_one::<u16>("space"),
        prefix: matches.get_str("prefix"),
        is_json: matches.get_flag("json"),
        point: matches.get_one::<u16>("point"),
        accepts_damage: matches.get_flag("damaged"),
        is_explained: matches.get_flag("explain"),
    })
}

/// The options of `pcalc load`.
#[derive(Drop)]
pub struct LoadOptions<'a> {
    /// The folder that gets the pairs.
    pub dir: &'a str,
    /// The file of the lines.
    pub file: &'a str,
    /// The number of the run, 1 to 2,147,483,647.
    pub run: u32,
    /// Whether the lines are JSON.
    pub is_json: bool,
    /// Whether a served store of the folder may have pairs, which stay beside those of other keys.
    pub merges: bool,
    /// Whether faults are explained even if standard error is no terminal.
    pub is_explained: bool,
}

/// The arguments and options of `pcalc load` in a command line.
pub(crate) fn load_command<'a>(alloc: Global) -> Result<Command<'a>, Error> {
    let about =
        "Makes the files of a run, or a served store's next generation, from lines of pairs, as dump prints them";
    let merge = "Keeps the pairs of other keys that a served store has";
    let said = [
        Said::word("DIR", "The folder, which has no files of a run"),
        Said::word("FILE", "The file of the lines").or("/dev/stdin"),
        run_option(),
        json_option(),
        Said::flag("merge", merge),
        explain_option(),
    ];
    command_of(alloc, "load", about, &said)
}

/// The options in the words of `pcalc load`.
pub(crate) fn load_options_of<'a>(matches: &ArgMatches<'a>) -> Option<LoadOptions<'a>> {
    Some(LoadOptions {
        dir: matches.get_str("DIR")?,
        file: matches.get_str("FILE")?,
        run: matches.get_one::<u32>("run")?,
        is_json: matches.get_flag("json"),
        merges: matches.get_flag("merge"),
        is_explained: matches.get_flag("explain"),
    })
}

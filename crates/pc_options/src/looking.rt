//! The commands that look into files.
use crate::options::explain_option;
use crate::said::{Said, command_of};
use clap::{ArgMatches, Command, Error};
use std::alloc::{AllocError, Global};

/// The options of `pcalc log`.
#[derive(Drop)]
pub struct LogOptions<'a> {
    /// The file of the log.
    pub file: &'a str,
    /// The number of the first entry that is printed, 1 to 16,777,216.
    pub low: u32,
    /// The number of the last one, 1 to 16,777,216.
    pub high: u32,
    /// Whether faults are explained even if standard error is no terminal.
    pub is_explained: bool,
}

/// The arguments and options of `pcalc log` in a command line.
pub(crate) fn log_command<'a>(alloc: Global) -> Result<Command<'a>, Error> {
    let low = "The number of the first entry that is printed, 1 to 16777216";
    let high = "The number of the last entry that is printed, 1 to 16777216";
    let said = [
        Said::word("FILE", "The log's file"),
        Said::number("from", "N", 1, 16_777_216, low).or("1"),
        Said::number("to", "N", 1, 16_777_216, high).or("16777216"),
        explain_option(),
    ];
    command_of(alloc, "log", "Prints the entries of a log", &said)
}

/// The options in the words of `pcalc log`.
pub(crate) fn log_options_of<'a>(matches: &ArgMatches<'a>) -> Option<LogOptions<'a>> {
    Some(LogOptions {
        file: matches.get_str("FILE")?,
        low: matches.get_one::<u32>("from")?,
        high: matches.get_one::<u32>("to")?,
        is_explained: matches.get_flag("explain"),
    })
}

/// The options of `pcalc verify`.
#[derive(Drop)]
pub struct VerifyOptions<'a> {
    /// The files and folders, in the order in which they are read.
    pub paths: Vec<&'a str>,
    /// Whether faults are explained even if standard error is no terminal.
    pub is_explained: bool,
}

/// The arguments and options of `pcalc verify` in a command line.
pub(crate) fn verify_command<'a>(alloc: Global) -> Result<Command<'a>, Error> {
    let said = [
        Said::words(
            "PATH",
            "Files of stores, and folders of runs or of served stores",
        ),
        explain_option(),
    ];
    command_of(
        alloc,
        "verify",
        "Reports whether files and folders are whole",
        &said,
    )
}

/// The options in the words of `pcalc verify`.
pub(crate) fn verify_options_of<'a>(
    alloc: Global,
    matches: &ArgMatches<'a>,
) -> Result<VerifyOptions<'a>, AllocError> {
    let mut paths = Vec::new(alloc);
    for path in matches.get_strs("PATH").unwrap_or(&[]) {
        paths.push(*path)?;
    }
    Ok(VerifyOptions {
        paths,
        is_explained: matches.get_flag("explain"),
    })
}

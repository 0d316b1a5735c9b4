//! A log of which the entries are printed.
use crate::parts::open_named;
use pc_disk::{Causes, output_before};
use pc_explanations::{About, Explainer, explain_output};
use pc_io::Tally;
use pc_log_lines::{EntryRange, run_log};
use pc_options::LogOptions;
use std::io;

/// Prints the entries of the log as the options say; the status.
pub fn show_log(rt: &HostRuntime, options: &LogOptions<'_>) -> io::Result<u8> {
    let causes = Causes::new(rt.alloc())?;
    let explainer = Explainer::new(
        rt,
        &causes,
        About::Script(options.file),
        options.is_explained,
    );
    let stderr = rt.stderr();
    let mut errors = explainer.errors(io::writer(&stderr));
    let mut out = Tally::new(output_before(rt, &causes, io::writer(rt))?);
    let range = EntryRange {
        low: u64::from(options.low),
        high: u64::from(options.high),
    };
    let opened = open_named(rt, &causes, options.file);
    let ended = run_log(
        rt.alloc(),
        options.file,
        opened,
        range,
        &mut out,
        &mut errors,
    );
    explain_output(&explainer, &mut errors);
    Ok(ended.status)
}

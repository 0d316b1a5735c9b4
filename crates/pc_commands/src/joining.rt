//! Part files that are joined into one.
use crate::parts::{Inputs, JoinedFile, is_other_file};
use pc_collapse_files::run_collapse;
use pc_disk::{Causes, Target, output_before};
use pc_explanations::{About, Explainer, explain_output};
use pc_io::Tally;
use pc_options::CollapseOptions;
use pc_texts::{report, report_words};
use pc_types::Refusal;
use std::io;
use std::io::Write;
use std::string::String;

/// The status of a collapse that failed.
const FAILED: u8 = 1;

/// The status of one that was asked for in a way that can't be.
const MISUSED: u8 = 2;

/// Joins the part files as the options say; the status.
pub fn join_parts(rt: &HostRuntime, options: &CollapseOptions<'_>) -> io::Result<u8> {
    let causes = Causes::new(rt.alloc())?;
    let paths = options.inputs.as_slice();
    let explainer = Explainer::new(rt, &causes, About::Parts(paths), options.is_explained);
    let stderr = rt.stderr();
    let mut errors = explainer.errors(io::writer(&stderr));
    let inputs = Inputs {
        rt,
        causes: &causes,
        paths,
    };
    let status = match is_misused(rt, &causes, options.target, &inputs) {
        Ok(false) => collapse(rt, &causes, options.target, &inputs, &mut errors)?,
        Ok(true) => {
            let words = b"a file that is no part has this name";
            let _ = report_words(options.target.as_bytes(), words, &mut errors);
            MISUSED
        }
        Err(why) => {
            let _ = report(options.target.as_bytes(), why, &mut errors);
            FAILED
        }
    };
    explain_output(&explainer, &mut errors);
    Ok(status)
}

// Whether the destination of the joined file is another file than a part. That an input has its name is reported
// before.
fn is_misused(
    rt: &HostRuntime,
    causes: &Causes,
    target: &str,
    inputs: &Inputs<'_>,
) -> Result<bool, Refusal> {
    if inputs.has(target) {
        return Ok(false);
    }
    is_other_file(rt, causes, target)
}

fn collapse<E: Write>(
    rt: &HostRuntime,
    causes: &Causes,
    target: &str,
    inputs: &Inputs<'_>,
    errors: &mut Tally<E>,
) -> io::Result<u8> {
    let alloc = rt.alloc();
    let mut out = Tally::new(output_before(rt, causes, io::writer(rt))?);
    let files = match inputs.open(target) {
        Ok(files) => files,
        Err(why) => {
            let _ = report(target.as_bytes(), why, errors);
            return Ok(FAILED);
        }
    };
    let path = String::from_str(alloc, target)?;
    let mut file = JoinedFile {
        target: Target::new(rt, causes, path),
    };
    let ended = run_collapse(alloc, target, files, &mut file, &mut out, errors);
    drop(ended.begun);
    file.target.discard();
    Ok(ended.status)
}

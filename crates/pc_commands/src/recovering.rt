//! Prints the state recovered from a folder's files, or from those of the generation that counts.
use pc_disk::{
    Causes, FoundFolder, LateFile, ReadFolder, open_folder, output_before, tell_unopened,
};
use pc_explanations::{About, Explainer, Lacking, SkippedLines, explain_output};
use pc_folders::RecoveredFolder;
use pc_io::Tally;
use pc_options::RecoverOptions;
use pc_restore::{EndedRecovery, RecoveryMode, run_recover};
use std::io;
use std::io::Write;

/// The status of a recovery of a folder that isn't recovered.
const FAILED: u8 = 1;

/// Prints the state of the folder as the options say; the status.
pub fn recover_folder<'a>(rt: &'a HostRuntime, options: &RecoverOptions<'a>) -> io::Result<u8> {
    let causes = Causes::new(rt.alloc())?;
    let named = ReadFolder {
        rt,
        path: options.dir,
        causes: &causes,
    };
    let found = RecoveredFolder::find(named)?;
    recover_in(named, options, &found)
}

// Prints the state of the folder that was found; the status.
fn recover_in<'a>(
    named: ReadFolder<'a>,
    options: &RecoverOptions<'_>,
    found: &'a RecoveredFolder,
) -> io::Result<u8> {
    let path = found.path.as_str();
    let about = About::Folder(path);
    let explainer = Explainer::new(named.rt, named.causes, about, options.is_explained);
    let stderr = named.rt.stderr();
    let mut errors = explainer.errors(io::writer(&stderr));
    let status = if found.tell(named, false, &mut errors)? {
        recover(&explainer, path, options, &mut errors)?
    } else {
        FAILED
    };
    explain_output(&explainer, &mut errors);
    Ok(status)
}

fn recover<E: Write>(
    explainer: &Explainer<'_>,
    path: &str,
    options: &RecoverOptions<'_>,
    errors: &mut Tally<E>,
) -> io::Result<u8> {
    let (rt, causes) = (explainer.rt, explainer.causes);
    let stdout = output_before(rt, causes, io::writer(rt))?;
    let mut out = Tally::new(SkippedLines::new(rt.alloc(), stdout));
    let dir = ReadFolder { rt, path, causes };
    let ended = recover_to(dir, options, &mut out, errors)?;
    if let (true, Some(lacks)) = (explainer.is_on, &ended.lacks) {
        let skipped = out.into_inner().into_lines();
        let _ = Lacking { dir }.put(lacks, &skipped, errors);
    }
    Ok(ended.status)
}

fn recover_to<'a, W: Write, E: Write>(
    dir: ReadFolder<'a>,
    options: &RecoverOptions<'_>,
    out: &mut Tally<W>,
    errors: &mut Tally<E>,
) -> io::Result<EndedRecovery<LateFile<'a>>> {
    let FoundFolder { folder, unopened } = open_folder(dir)?;
    tell_unopened(&unopened, errors);
    let mode = RecoveryMode {
        is_strict: options.is_strict,
        has_pairs: true,
    };
    Ok(run_recover(dir.rt.alloc(), dir.path, folder, mode, out, errors))
}

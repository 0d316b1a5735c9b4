//! Generations that couldn't be removed.
use pc_disk::{GenerationFolders, ReadFolder, generation_path};
use pc_generations::Generations;
use pc_io::Tally;
use pc_opening::Begun;
use pc_texts::report;
use pc_types::Refusal;
use std::alloc::AllocError;
use std::io::Write;

/// Reports, if the removal of older generations was refused after one has begun, each that is still there of those lower by more than
/// `keep`; or the folder, if it can't be listed.
pub fn tell_left<E: Write>(
    dir: ReadFolder<'_>,
    begun: Begun,
    keep: u32,
    errors: &mut Tally<E>,
) -> Result<(), AllocError> {
    let Begun {
        generation,
        removal,
    } = begun;
    let Err(why) = removal else {
        return Ok(());
    };
    match older_in(dir, generation.saturating_sub(keep)) {
        Ok(left) => tell_each(dir, &left, &why, errors),
        Err(_) => {
            let _ = report(dir.path.as_bytes(), why, errors);
            Ok(())
        }
    }
}

// The generations of the folder with lower numbers, in order.
fn older_in(dir: ReadFolder<'_>, least: u32) -> Result<Vec<u32>, Refusal> {
    let folders = GenerationFolders { dir };
    let mut numbers = folders.numbers(dir.rt.alloc())?;
    numbers.retain(|number| *number < least);
    numbers.sort_unstable();
    Ok(numbers)
}

// Reports each of these generations.
fn tell_each<E: Write>(
    dir: ReadFolder<'_>,
    numbers: &[u32],
    why: &Refusal,
    errors: &mut Tally<E>,
) -> Result<(), AllocError> {
    for number in numbers {
        tell_one(dir, *number, *why, errors)?;
    }
    Ok(())
}

fn tell_one<E: Write>(
    dir: ReadFolder<'_>,
    number: u32,
    why: Refusal,
    errors: &mut Tally<E>,
) -> Result<(), AllocError> {
    let path = generation_path(dir, number)?;
    let _ = report(path.as_bytes(), why, errors);
    Ok(())
}

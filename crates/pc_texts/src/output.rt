//! The end of a command's output.
ghost use Rattle.std.specs.Prelude.{◌≡◌, IfOk, IfErr};
ghost use Rattle.std.specs.Io.KnownBytes.{Keeps};
ghost use Rattle.pc_io.specs.Tallies.{failures_of, inner_of};
ghost use Rattle.pc_texts.specs.Outputs.{IsUnprinted};

use pc_io::Tally;
use pc_types::Refusal;
use std::io::Write;

/// Ends the output of a command: flushes the text that was put. Returns the result of the put if that was refused, or if the flush
/// succeeds; otherwise `Device`.
pub fn end_output<T: Copy, W: Write>(
    put: Result<T, Refusal>,
    out: &mut Tally<W>,
) -> Result<T, Refusal>
    ensures stays { Keeps (W.contents (inner_of out.old)) (W.contents (inner_of out.new)) }
    ensures printed { IfOk result (λ what. (put ≡ Ok what) × (failures_of out.new ≡ failures_of out.old)) }
    ensures unprinted { IfErr result (IsUnprinted put out.old out.new) }
{
    let flushed = out.flush();
    match put {
        Ok(what) if flushed.is_ok() => Ok(what),
        Ok(_) => Err(Refusal::Device),
        Err(why) => Err(why),
    }
}

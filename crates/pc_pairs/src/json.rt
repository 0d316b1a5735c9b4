//! The pairs as lines of JSON.
ghost use Rattle.std.specs.Prelude.{◌≡◌, IfOk, IfErr};
ghost use Rattle.pc_json.specs.JsonLines.{json_pair};
ghost use Rattle.pc_pairs.specs.Dumps.{PutsUntil, line_text, pair_lines};
ghost use Rattle.pc_pairs.specs.Loads.{pair_of, pair_of_json};
ghost use Rattle.pc_types.specs.Keys.{key_of};

use crate::form::Form;
use crate::reading::{Fault, PairLine, pair_of};
use pc_io::Tally;
use pc_json::{JsonPair, json_line, read_json};
use pc_lines::KeyText;
use pc_types::{Key, Refusal, Value};
use std::alloc::Global;
use std::borrow::CowSlice;
use std::io::Write;

/// Writes a line of JSON for each pair. It fails where the output failed, or with `OutOfMemory`.
pub(crate) fn put_json<W: Write>(
    alloc: Global,
    out: &mut Tally<W>,
    pairs: &[(Key, Value)],
) -> Result<(), Refusal>
    ensures { PutsUntil W.contents out.old out.new result (pair_lines Form.Json pairs.now) }
{
    for pair in pairs {
        put_line(alloc, out, pair)?;
    }
    Ok(())
}

fn put_line<W: Write>(alloc: Global, out: &mut Tally<W>, pair: &(Key, Value)) -> Result<(), Refusal>
    ensures { PutsUntil W.contents out.old out.new result (line_text Form.Json pair.now) }
{
    let (key, value) = pair;
    match json_line(alloc, key.space(), key.own_bytes(), value.as_bytes()) {
        Ok(line) => out.put(line.as_bytes()),
        Err(_) => Err(Refusal::OutOfMemory),
    }
}

/// What a line of JSON, without its end, spells. Refuses only with `OutOfMemory`.
pub(crate) fn json_pair_in(alloc: Global, text: &[u8]) -> Result<PairLine, Refusal>
    ensures line { IfOk result (λ line. line ≡ pair_of_json (json_pair text.now)) }
    ensures refusals { IfErr result (λ why. why ≡ Refusal.OutOfMemory) }
{
    match read_json(alloc, text)? {
        Some(pair) => pair_read(alloc, pair),
        None => Ok(PairLine::Bad(Fault::Malformed)),
    }
}

fn pair_read(alloc: Global, read: JsonPair) -> Result<PairLine, Refusal>
    ensures line { IfOk result (λ line. line ≡ pair_of (Some (key_of read.space read.own.items)) (Some read.value.items)) }
    ensures refusals { IfErr result (λ why. why ≡ Refusal.OutOfMemory) }
{
    let JsonPair { space, own, value } = read;
    let key = KeyText {
        space,
        own: CowSlice::Owned(own),
    };
    pair_of(alloc, &key, &value)
}

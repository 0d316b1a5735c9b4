//! Lines of pairs are read back.
ghost use Rattle.std.specs.Prelude.{◌≡◌, ◌+◌, ◌<◌, ℕ, List, None, Ok, IfOk, IfErr, IfSome, OnOk, length, map};
ghost use Rattle.std.specs.List.{All};
ghost use Rattle.pc_types.specs.declared.limits.TheConstants.{MOST_FILE_ENTRIES};
ghost use Rattle.pc_model.specs.Database.{Database, KeysRise, database_of};
ghost use Rattle.pc_model.specs.Maps.{empty};
ghost use Rattle.pc_lines.specs.Lines.{lines_in};
ghost use Rattle.pc_pairs.specs.Dumps.{pair_lines};
ghost use Rattle.pc_pairs.specs.Loads.{IsLoaded, IsStorable, IsUnloaded, database_in, pair_in, with_line, with_lines};

use crate::form::Form;
use crate::gathered::Gathered;
use crate::reading::{Fault, PairLine, pair_in};
use bstr::ByteSlice;
use pc_bases::Base;
use pc_types::{Key, MOST_FILE_ENTRIES, Value};
use std::alloc::{AllocError, Global};

/// Why lines give no database.
#[derive(Clone, Copy, Debug, PartialEq, Eq)]
pub enum Unloaded {
    /// The first line at fault, by its number from 1, and the fault.
    Line(u64, Fault),
    /// Memory ran out.
    NoMemory,
}

/// The base of a run of this number that has the pairs of a text's lines, at point 0; nothing where they are more than the 4,294,967,295
/// that a base may have. A line is a pair in this form; the keys come in any order, and none comes twice. The lines of all pairs of a
/// database give a base with that database.
pub fn load_base(alloc: Global, run: u64, form: Form, text: &[u8]) -> Result<Option<Base>, Unloaded>
    ensures loaded { IfOk result (IsLoaded run (database_in form text.now)) }
    ensures unloaded { IfErr result (IsUnloaded (database_in form text.now)) }
    ensures dumped { (db : Database) → All IsStorable db.entries → text.now ≡ pair_lines form db.entries → IfOk result (λ made. IfSome made (λ base. base.pairs ≡ db)) }
    ensures memory { (db : Database) → All IsStorable db.entries → text.now ≡ pair_lines form db.entries → IfErr result (λ why. why ≡ Unloaded.NoMemory) }
{
    let pairs = load_pairs(alloc, form, text)?;
    Ok(base_of(run, pairs))
}

// The base of these pairs, where it may have as many.
fn base_of(run: u64, pairs: Vec<(Key, Value)>) -> Option<Base>
    requires rise { KeysRise pairs.items }
    ensures made { IfSome result (λ base. base ≡ record { run = run; point = 0; pairs = database_of pairs.items }) }
    ensures none { result ≡ None → MOST_FILE_ENTRIES < length pairs.items }
{
    if pairs.len() > MOST_FILE_ENTRIES {
        return None;
    }
    Some(Base::start(run, pairs))
}

// The pairs of a text's lines, ascending by key.
fn load_pairs(alloc: Global, form: Form, text: &[u8]) -> Result<Vec<(Key, Value)>, Unloaded>
    ensures rise { IfOk result (λ pairs. KeysRise pairs.items) }
    ensures loaded { IfOk result (λ pairs. database_in form text.now ≡ Ok (database_of pairs.items)) }
    ensures unloaded { IfErr result (IsUnloaded (database_in form text.now)) }
    ensures dumped { (db : Database) → All IsStorable db.entries → text.now ≡ pair_lines form db.entries → IfOk result (λ pairs. database_of pairs.items ≡ db) }
    ensures memory { (db : Database) → All IsStorable db.entries → text.now ≡ pair_lines form db.entries → IfErr result (λ why. why ≡ Unloaded.NoMemory) }
{
    load_lines(alloc, form, text)
}

fn load_lines(alloc: Global, form: Form, text: &[u8]) -> Result<Vec<(Key, Value)>, Unloaded>
    ensures rise { IfOk result (λ pairs. KeysRise pairs.items) }
    ensures loaded { IfOk result (λ pairs. database_in form text.now ≡ Ok (database_of pairs.items)) }
    ensures unloaded { IfErr result (IsUnloaded (database_in form text.now)) }
{
    let Ok(lines) = lines_in(alloc, text) else {
        return Err(Unloaded::NoMemory);
    };
    let gathered = gather(alloc, form, &lines)?;
    match gathered.into_pairs(alloc) {
        Ok(pairs) => Ok(pairs),
        Err(_) => Err(Unloaded::NoMemory),
    }
}

// The lines of a text, without their ends.
fn lines_in<'a>(alloc: Global, text: &'a [u8]) -> Result<Vec<&'a [u8]>, AllocError>
    ensures { IfOk result (λ lines. map (λ line. line.now) lines.items ≡ lines_in text.now) }
{
    let mut lines = Vec::new(alloc);
    for line in text.lines() {
        lines.push(line)?;
    }
    Ok(lines)
}

// The database of the lines.
fn gather(alloc: Global, form: Form, lines: &[&[u8]]) -> Result<Gathered, Unloaded>
    ensures gathered { IfOk result (λ db. with_lines form empty 1 (map (λ line. line.now) lines.now) ≡ Ok db) }
    ensures ungathered { IfErr result (IsUnloaded (with_lines form empty 1 (map (λ line. line.now) lines.now))) }
{
    let mut gathered = Gathered::new(alloc);
    for i in 0..lines.len() {
        add_line(alloc, form, &mut gathered, i as u64 + 1, lines[i])?;
    }
    Ok(gathered)
}

// Adds the pair of the line of this number.
fn add_line(
    alloc: Global,
    form: Form,
    gathered: &mut Gathered,
    number: u64,
    text: &[u8],
) -> Result<(), Unloaded>
    ensures added { OnOk result (with_line gathered.old number (pair_in form text.now) ≡ Ok gathered.new) }
    ensures fault { IfErr result (IsUnloaded (with_line gathered.old number (pair_in form text.now))) }
{
    match pair_in(alloc, form, text) {
        Ok(PairLine::Pair(key, value)) => add_pair(gathered, number, key, value),
        Ok(PairLine::Bad(fault)) => Err(Unloaded::Line(number, fault)),
        Err(_) => Err(Unloaded::NoMemory),
    }
}

fn add_pair(gathered: &mut Gathered, number: u64, key: Key, value: Value) -> Result<(), Unloaded>
    ensures added { OnOk result (with_line gathered.old number (PairLine.Pair key value) ≡ Ok gathered.new) }
    ensures fault { IfErr result (IsUnloaded (with_line gathered.old number (PairLine.Pair key value))) }
{
    if gathered.has(&key) {
        return Err(Unloaded::Line(number, Fault::Twice));
    }
    match gathered.insert(key, value) {
        Ok(()) => Ok(()),
        Err(_) => Err(Unloaded::NoMemory),
    }
}

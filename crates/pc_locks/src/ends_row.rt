//! The ends of the transactions' chains in a row.
ghost use Rattle.std.specs.Prelude.{◌≡◌, ◌≢◌, ◌<◌, ◌≤◌, [], ℕ, true, length, vec_len, is_some, if◌then◌else◌, is_ok, IsOk, OnOk, OnErr, IfOk, IfErr, IfSome, IfNone, None};
ghost use Rattle.std.specs.List.{insert, remove};
ghost use Rattle.std.specs.Ordering.{nat_cmp};
ghost use Rattle.std.specs.Map.{lookup};
ghost use Rattle.std.specs.BTreeMap.{is_at};
ghost use Rattle.pc_locks.specs.Lines.{ends_at, AreRising, IsEntryAt, IsGapAt};

use pc_chain::Chain;
use std::alloc::{AllocError, Global};
use std::marker::Model;

/// The ends of each transaction's chain that has some, in entries that ascend by the transaction's number. An entry is found
/// by a binary search, and then named by its place. The row keeps its room, so that an entry that comes where one went takes
/// no memory.
#[derive(Drop)]
pub(crate) struct EndsRow {
    rows: Vec<(u64, Chain<usize>)>,
}

impl Model for EndsRow {
    ghost use Rattle.std.specs.Prelude.{ℕ, List};
    ghost use Rattle.pc_chain.specs.declared.chain.Chain.{Chain};
    ghost use Rattle.pc_locks.specs.Lines.{AreRising};

    ghost Value = { List (ℕ × Chain ℕ) };

    ghost view = { λ a. a.rows.items };

    ghost invariant = { λ a. AreRising a.rows.items };
}

impl EndsRow {
    /// No entries. It allocates no memory.
    pub(crate) fn new(alloc: Global) -> EndsRow
        ensures { result ≡ [] }
    {
        EndsRow {
            rows: Vec::new(alloc),
        }
    }

    /// A transaction's ends; empty ones if it has none.
    pub(crate) fn ends_of(&self, transaction: u64) -> Chain<usize>
        ensures { result ≡ ends_at self.now transaction }
    {
        match place(&self.rows, transaction) {
            Ok(at) => self.rows[at].1,
            Err(_) => Chain::new(),
        }
    }

    /// The place of the transaction's entry; `None` if it has none.
    pub(crate) fn find(&self, transaction: u64) -> Option<usize>
        ensures some { IfSome result (IsEntryAt self.now transaction) }
        ensures none { IfNone result (lookup (is_at (nat_cmp transaction)) self.now ≡ None) }
    {
        match place(&self.rows, transaction) {
            Ok(at) => Some(at),
            Err(_) => None,
        }
    }

    /// Makes sure that the transaction has an entry, and returns its place. If an allocation failed nothing changed.
    pub(crate) fn keep(&mut self, transaction: u64) -> Result<usize, AllocError>
        ensures at { IfOk result (IsEntryAt self.new transaction) }
        ensures ends { (other : ℕ) → ends_at self.new other ≡ ends_at self.old other }
        ensures others { (other : ℕ) → other ≢ transaction → lookup (is_at (nat_cmp other)) self.new ≡ lookup (is_at (nat_cmp other)) self.old }
        ensures room { is_some (lookup (is_at (nat_cmp transaction)) self.old) ≡ true → IsOk result }
        ensures err { OnErr result (self.new ≡ self.old) }
    {
        match place(&self.rows, transaction) {
            Ok(at) => Ok(at),
            Err(at) => {
                insert_at(&mut self.rows, at, (transaction, Chain::new()))?;
                Ok(at)
            }
        }
    }

    /// The ends in the entry there.
    pub(crate) fn get(&self, at: usize) -> Chain<usize>
        requires { at < length self.now }
        ensures { (transaction : ℕ) → IsEntryAt self.now transaction at → result ≡ ends_at self.now transaction }
    {
        self.rows[at].1
    }

    /// Writes the ends of the transaction, whose entry is there.
    pub(crate) fn put(&mut self, at: usize, transaction: u64, ends: Chain<usize>)
        requires { IsEntryAt self.old transaction at }
        ensures this { ends_at self.new transaction ≡ ends }
        ensures others { (other : ℕ) → other ≢ transaction → lookup (is_at (nat_cmp other)) self.new ≡ lookup (is_at (nat_cmp other)) self.old }
    {
        self.rows[at] = (transaction, ends);
    }

    /// Removes the entry there.
    pub(crate) fn forget(&mut self, at: usize)
        requires { at < length self.old }
        ensures this { (transaction : ℕ) → IsEntryAt self.old transaction at → lookup (is_at (nat_cmp transaction)) self.new ≡ None }
        ensures others { (transaction other : ℕ) → IsEntryAt self.old transaction at → other ≢ transaction → lookup (is_at (nat_cmp other)) self.new ≡ lookup (is_at (nat_cmp other)) self.old }
    {
        remove_at(&mut self.rows, at);
    }
}

// Puts an entry there. At the end, if most come, nothing is moved.
fn insert_at(
    rows: &mut Vec<(u64, Chain<usize>)>,
    at: usize,
    entry: (u64, Chain<usize>),
) -> Result<(), AllocError>
    requires { at ≤ vec_len rows.old }
    ensures { rows.new.items ≡ (if is_ok result then insert rows.old.items at entry else rows.old.items) }
{
    if at == rows.len() {
        rows.push(entry)?;
    } else {
        rows.insert(at, entry)?;
    }
    Ok(())
}

// Takes the entry there out. At the end nothing is moved.
fn remove_at(rows: &mut Vec<(u64, Chain<usize>)>, at: usize)
    requires { at < vec_len rows.old }
    ensures { rows.new.items ≡ remove rows.old.items at }
{
    if at == rows.len() - 1 {
        rows.pop();
    } else {
        rows.remove(at);
    }
}

// The place of the transaction's entry, or else the place where one would go.
fn place(rows: &[(u64, Chain<usize>)], transaction: u64) -> Result<usize, usize>
    requires { AreRising rows.now }
    ensures at { IfOk result (IsEntryAt rows.now transaction) }
    ensures gap { IfErr result (IsGapAt rows.now transaction) }
{
    rows.binary_search_by(|entry| entry.0.cmp(&transaction))
}

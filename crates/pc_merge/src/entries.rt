//! Entries that come in order.
ghost use Rattle.std.specs.Prelude.{◌≡◌, ℕ, Bool, Option, IfErr, ⊤};
ghost use Rattle.pc_types.specs.declared.refusal.Refusal.{Refusal};
ghost use Rattle.pc_merge.specs.Coming.{Coming, GivesNext, GivesWithin, Standing, KeepsRefusal};
ghost use Rattle.pc_merge.specs.Lists.{all_of, list_coming, list_standing, list_within};

use pc_entries::EntryText;
use pc_types::Refusal;
use std::vec::IntoIter;

/// Entries that come in order, up to an end or a refusal.
pub trait Entries {
    /// The entries to come, if they are known.
    ghost coming: { Self → Option Coming };

    /// The refusal that was answered, after which nothing else is, and how many calls of a device failed.
    ghost standing: { Self → Standing };

    /// All that is to come, whether it is known or not, is of these points.
    ghost within: { Self → (ℕ → Bool) → Type 0 };

    /// The possible refusals, whether or not the entries to come are known.
    ghost refusals: { Refusal → Type 0 } = { λ _. ⊤ };

    /// The next entry, or `None` at the end. It may be kept in this memory. After a refusal it answers the same one from then
    /// on.
    fn next(&mut self, memory: Vec<u8>) -> Result<Option<EntryText>, Refusal>
        ensures given { GivesNext (coming self.old) (coming self.new) result }
        ensures stands { KeepsRefusal (standing self.old) (standing self.new) result }
        ensures within { GivesWithin within self.old self.new result }
        ensures refusals { IfErr result refusals };
}

/// The entries of a list, in its order.
#[derive(Drop)]
pub struct EntryList {
    entries: IntoIter<EntryText>,
}

impl EntryList {
    /// All of the entries are to come.
    pub fn new(entries: Vec<EntryText>) -> EntryList
        ensures { list_coming result ≡ all_of entries.items }
    {
        EntryList {
            entries: entries.into_iter(),
        }
    }
}

impl Entries for EntryList {
    ghost coming = { list_coming };

    ghost standing = { list_standing };

    ghost within = { list_within };

    ghost refusals = { λ _. ⊥ };

    fn next(&mut self, memory: Vec<u8>) -> Result<Option<EntryText>, Refusal> {
        drop(memory);
        Ok(self.entries.next())
    }
}

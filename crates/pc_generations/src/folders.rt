//! The folders of generations.
use pc_types::Refusal;
use std::alloc::Global;

/// The folders of generations, by their numbers. Contracts see the text in each folder under each name; if that isn't known of a
/// folder, each text counts as being there, and so does none. A process that is killed in a call may have done whatever the call has
/// done if it refuses.
pub trait Generations {
    ghost use Rattle.std.specs.Prelude.{◌⊎◌, ℕ, List, Option, Some, None, IfOk, OnOk, OnErr, MatchBool};
    ghost use Rattle.std.specs.List.{Contains};
    ghost use Rattle.pc_generations.specs.Names.{base_name};
    ghost use Rattle.pc_generations.specs.Folders.{HasBase, HasLoggedEntries, HasNoLoggedEntries, IsSpared, IsUnused, NothingComes, StayBut, StaysBeside};

    // Under this name the folder of this number has this text, or nothing.
    ghost stands: { Self → ℕ → List ℕ → Option (List ℕ) → Type 0 };

    /// The numbers of the generations that have a folder, in any order.
    fn numbers(&self, alloc: Global) -> Result<Vec<u32>, Refusal>
        ensures { IfOk result (λ numbers. (number : ℕ) → Contains numbers.items number ⊎ ((name : List ℕ) → stands self.now number name None)) };

    /// Whether the generation has a base.
    fn has_base(&self, number: u32) -> Result<bool, Refusal>
        ensures { IfOk result (λ has. MatchBool has (HasBase (stands self.now) number) (stands self.now number base_name None)) };

    /// Whether the log of the generation has entries: more bytes than the 20 of its header.
    fn has_entries(&self, number: u32) -> Result<bool, Refusal>
        ensures { IfOk result (λ has. MatchBool has (HasLoggedEntries (stands self.now) number) (HasNoLoggedEntries (stands self.now) number)) };

    /// The generation has a folder without files; before it had neither a base nor a log with entries. The others stay. If it
    /// refuses, some of the files may be gone, but one with a base or with entries is as it was.
    fn make(&mut self, number: u32) -> Result<(), Refusal>
        ensures others { StayBut (stands self.old) (stands self.new) number }
        ensures blank { OnOk result ((name : List ℕ) → stands self.new number name None) }
        ensures unused { OnOk result (IsUnused (stands self.old) number) }
        ensures spared { IsSpared (stands self.old) (stands self.new) number }
        ensures less { NothingComes (stands self.old) (stands self.new) number };

    /// The generation has this text under the name. All else stays. If it refuses, the old text is there, or the whole text does.
    fn write(&mut self, number: u32, name: &[u8], text: &[u8]) -> Result<(), Refusal>
        ensures others { StaysBeside (stands self.old) (stands self.new) number name.now }
        ensures whole { OnOk result (stands self.new number name.now (Some text.now)) }
        ensures whole_or_as_before { OnErr result ((content : Option (List ℕ)) → stands self.old number name.now content → stands self.new number name.now content ⊎ stands self.new number name.now (Some text.now)) };

    /// The generation has no folder. The others stay. If it refuses, some of the files may be gone.
    fn remove(&mut self, number: u32) -> Result<(), Refusal>
        ensures others { StayBut (stands self.old) (stands self.new) number }
        ensures blank { OnOk result ((name : List ℕ) → stands self.new number name None) }
        ensures less { NothingComes (stands self.old) (stands self.new) number };
}

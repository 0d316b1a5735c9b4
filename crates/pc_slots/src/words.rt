//! The data of a slot on each side of the two sets.
ghost use Rattle.std.specs.Prelude.{◌≡◌, ◌≢◌, ℕ};
ghost use Rattle.pc_slots.specs.Words.{blank_mark};

use pc_dirty::Side;

/// The data of a slot on one side besides the slot that its link leads to.
#[derive(Clone, Copy)]
pub(crate) struct Mark {
    /// The side on which the link leads to the next slot of the set; `None` if it leads to none.
    pub(crate) leads_to: Option<Side>,
    /// The slot is in the set on the side.
    pub(crate) is_in: bool,
}

impl Mark {
    ghost use Rattle.std.specs.Prelude.{◌≡◌};
    ghost use Rattle.pc_slots.specs.Words.{blank_mark};

    /// The mark of a slot that is in no set.
    pub(crate) fn blank() -> Mark
        ensures { result ≡ blank_mark }
    {
        Mark {
            leads_to: None,
            is_in: false,
        }
    }
}

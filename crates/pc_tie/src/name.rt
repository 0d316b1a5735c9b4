//! The name of a store.

/// Names one store: its word, and what its run starts from; and of which texts it counts that they have gone out to the writer of
/// its log. All that has to agree on a store is generic in its name, since of a value after a lock nothing is known but its type's
/// invariant.
pub trait StoreName {
    ghost use Rattle.std.specs.Prelude.{ℕ, List};
    ghost use Rattle.pc_tie.specs.Seats.{Name};

    ghost name: { Name };

    // The text has gone out to whatever the log is written to.
    ghost out: { List ℕ → Type 0 };
}

impl StoreName for std::marker::Brand {
    ghost use Rattle.std.specs.Prelude.{[]};
    ghost use Rattle.pc_model.specs.Maps as map_of;

    ghost name = { record {
      table = record { words = 0; slots = 0; views_name = 0; atom = 0; block = 0; offset = 0; slot_names = [] };
      setting = record { run = 0; base = map_of.empty; sessions = 0; capacity = 0 };
    } };

    ghost out = { λ text. ⊥ };
}

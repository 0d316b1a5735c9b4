//! Keys next to their heads, so that most comparisons look at one number each.
ghost use Rattle.std.specs.Prelude.{◌≡◌};
ghost use Rattle.std.specs.Ordering.{nat_cmp, eq_by_cmp};
ghost use Rattle.std.specs.Cmp.Lexicographic.{slice_cmp};

use pc_types::Key;
use std::cmp::Ordering;
use std::marker::Model;

/// A key with its head. A contract sees the key's bytes alone, and it is ordered as the key is.
#[derive(Drop)]
pub(crate) struct Headed {
    head: u64,
    key: Key,
}

impl Model for Headed {
    ghost use Rattle.std.specs.Prelude.{ℕ, List};
    ghost use Rattle.std.specs.Coded.{coded_list, coded_ℕ};
    ghost use Rattle.pc_taken.specs.Heads.{IsHeadOf};

    ghost Value = { List ℕ };

    ghost coded = { coded_list coded_ℕ };

    ghost view = { λ h. h.key };

    ghost invariant = { λ h. IsHeadOf h.head h.key };
}

impl Headed {
    /// The key with its head.
    pub(crate) fn of(key: Key) -> Headed
        ensures { result ≡ key }
    {
        Headed {
            head: key.head(),
            key,
        }
    }

    /// The key.
    pub(crate) fn key(&self) -> &Key
        ensures { result.now ≡ self.now }
    {
        &self.key
    }

    /// The order of the keys: as their heads if these differ, and otherwise byte by byte.
    pub(crate) fn compare(&self, other: &Headed) -> Ordering
        ensures { result ≡ slice_cmp nat_cmp self.now other.now }
    {
        if self.head != other.head {
            return self.head.cmp(&other.head);
        }
        self.key.compare(&other.key)
    }

    // Whether the keys are the same.
    fn is(&self, other: &Headed) -> bool
        ensures { result ≡ eq_by_cmp (slice_cmp nat_cmp) self.now other.now }
    {
        self.key.is(&other.key)
    }
}

impl PartialEq for Headed {
    ghost use Rattle.std.specs.Ordering.{nat_cmp, eq_by_cmp};
    ghost use Rattle.std.specs.Cmp.{partial_equiv_from_equiv, eq_by_cmp_equiv};
    ghost use Rattle.std.specs.Cmp.Lexicographic.{slice_cmp, nat_list_cmp_total};

    ghost eq = { eq_by_cmp (slice_cmp nat_cmp) };

    ghost laws = { partial_equiv_from_equiv (eq_by_cmp_equiv nat_list_cmp_total) };

    fn eq(&self, other: &Headed) -> bool {
        self.is(other)
    }
}

impl Eq for Headed {
    ghost use Rattle.std.specs.Cmp.{eq_by_cmp_equiv};
    ghost use Rattle.std.specs.Cmp.Lexicographic.{nat_list_cmp_total};

    ghost laws = { eq_by_cmp_equiv nat_list_cmp_total };
}

impl PartialOrd for Headed {
    ghost use Rattle.std.specs.Ordering.{nat_cmp, as_partial_cmp};
    ghost use Rattle.std.specs.Cmp.{partial_order_from_total};
    ghost use Rattle.std.specs.Cmp.Lexicographic.{slice_cmp, nat_list_cmp_total};

    ghost partial_cmp = { as_partial_cmp (slice_cmp nat_cmp) };

    ghost laws = { partial_order_from_total nat_list_cmp_total };

    fn partial_cmp(&self, other: &Headed) -> Option<Ordering> {
        Some(self.compare(other))
    }
}

impl Ord for Headed {
    ghost use Rattle.std.specs.Prelude.{refl};
    ghost use Rattle.std.specs.Ordering.{nat_cmp};
    ghost use Rattle.std.specs.Cmp.Lexicographic.{slice_cmp, nat_list_cmp_total};

    ghost cmp = { slice_cmp nat_cmp };

    ghost total = { nat_list_cmp_total };

    ghost matches_partial_cmp = { λ a b. refl };

    ghost matches_eq = { λ a b. refl };

    fn cmp(&self, other: &Headed) -> Ordering {
        self.compare(other)
    }
}

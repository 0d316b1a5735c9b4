//! Laws of keys. Each function does nothing: its contract is the law.
ghost use Rattle.pc_types.specs.Keys.{KeysAreOrdered, KeysArePairs, PairsAreKeys};

/// Keys are ordered by space, and in one space byte by byte.
pub fn keys_are_ordered()
    ensures { KeysAreOrdered }
{}

/// A key has the space and the bytes that it was made of: different pairs make different keys.
pub fn keys_are_pairs()
    ensures { KeysArePairs }
{}

/// Each list of at least two bytes is made of its space and its own bytes.
pub fn pairs_are_keys()
    ensures { PairsAreKeys }
{}

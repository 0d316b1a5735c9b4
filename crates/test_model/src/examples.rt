//! Worked examples of the definitions: whole histories with their files and states, replies that aren't legal, single
//! rules, and the limits. Each function does nothing, and its contract is the examples of one subject.
ghost use Rattle.test_model.specs.ExamplesOfTransactions.{ExamplesOfTransactions};
ghost use Rattle.test_model.specs.ExamplesOfPoints.{ExamplesOfPoints};
ghost use Rattle.test_model.specs.ExamplesOfFiles.{ExamplesOfFiles};
ghost use Rattle.test_model.specs.ExamplesOfHeadlines.{ExamplesOfHeadlines};
ghost use Rattle.test_model.specs.ExamplesOfLocks.{ExamplesOfLocks};
ghost use Rattle.test_model.specs.ExamplesOfCapacity.{ExamplesOfCapacity};
ghost use Rattle.test_model.specs.ExamplesOfRefusals.{ExamplesOfRefusals};
ghost use Rattle.test_model.specs.ExamplesOfAdds.{ExamplesOfAdds};
ghost use Rattle.test_model.specs.ExamplesOfIllegalReplies.{ExamplesOfIllegalReplies};
ghost use Rattle.test_model.specs.ExamplesOfRules.{LockRules, FileRules, KeyRules, LimitRules, RefusalRules, ReadRules};
ghost use Rattle.test_model.specs.KeyByKey.{KeyByKey};

/// Transactions: what they read, and what their commits leave.
pub fn worked_examples_of_transactions()
    ensures { ExamplesOfTransactions }
{}

/// Points of consistency: what a point's part has, whatever transactions are open while it is taken.
pub fn worked_examples_of_points()
    ensures { ExamplesOfPoints }
{}

/// Files and their joins.
pub fn worked_examples_of_files()
    ensures { ExamplesOfFiles }
{}

/// The headline, of a history that has it and of one that hasn't.
pub fn worked_examples_of_headlines()
    ensures { ExamplesOfHeadlines }
{}

/// Locks: who waits, who dies, and what is granted when a transaction ends.
pub fn worked_examples_of_locks()
    ensures { ExamplesOfLocks }
{}

/// Capacity: which keys are occupied, and when Full is answered.
pub fn worked_examples_of_capacity()
    ensures { ExamplesOfCapacity }
{}

/// Refusals: which one is answered if several could be.
pub fn worked_examples_of_refusals()
    ensures { ExamplesOfRefusals }
{}

/// Adds: the sums that they return, why they are refused, and the effect of a commit.
pub fn worked_examples_of_adds()
    ensures { ExamplesOfAdds }
{}

/// Replies that aren't legal.
pub fn illegal_replies()
    ensures { ExamplesOfIllegalReplies }
{}

/// Single rules, each at one place: of locks, of files, of keys, of refusals and of reads; and the limits of the store as numbers.
pub fn worked_examples_of_rules()
    ensures locks { LockRules }
    ensures files { FileRules }
    ensures keys { KeyRules }
    ensures limits { LimitRules }
    ensures refusals { RefusalRules }
    ensures reads { ReadRules }
{}

/// What parts, joins and layings come to of each key, whatever the sets.
pub fn definitions_key_by_key()
    ensures { KeyByKey }
{}

//! Laws of the definitions. Each function does nothing, and its contract is a law.
ghost use Rattle.pc_model.specs.Laws.{NumbersAreRead, ChangesMerge, FinalWritesAgree, OtherAddsDoNothing, AddsOfRunsApply, ReplaysInPieces, CyclesMakeStates, UntouchedKeysStay, PartsMakeStates, ContentsMakeStates, EveryEventHasALegalReply, CommittedReadsAreRight, LocksNeverConflict, LegalHistoriesHaveLegalEffects, TokensStandInOrder, EachKeyIsTakenOnce, PointStatesStay, QuietContentsStay, JoinsAreContents, FilesAreOfTheirPoints, FilesJoinWell, FilesAreStates};

/// A number is read of its own eight bytes.
pub fn numbers_are_read()
    ensures { NumbersAreRead }
{}

/// Two changes of a key in a row, each of which applies, are the merged one.
pub fn changes_merge()
    ensures { ChangesMerge }
{}

/// The final writes of a transaction do what its writes did in order, if each applied.
pub fn final_writes_agree()
    ensures { FinalWritesAgree }
{}

/// An add that doesn't apply changes nothing.
pub fn other_adds_do_nothing()
    ensures { OtherAddsDoNothing }
{}

/// Replay of a log in two pieces is replay of the second on the replay of the first.
pub fn replay_in_pieces()
    ensures { ReplaysInPieces }
{}

/// The state of a point is the replay of its cycle on the state of the point before.
pub fn cycles_make_states()
    ensures { CyclesMakeStates }
{}

/// A key that no commit of a cycle wrote has the same content at both points.
pub fn untouched_keys_stay()
    ensures { UntouchedKeysStay }
{}

/// The state of a point is the state of the point before with its part applied to it.
pub fn parts_make_states()
    ensures { PartsMakeStates }
{}

/// The state of a point is that of an earlier one with the content of points applied to it, if all points between are
/// among them and none is later.
pub fn contents_make_states()
    ensures { ContentsMakeStates }
{}

/// After every history every event has a legal reply.
pub fn every_event_has_a_legal_reply()
    ensures { EveryEventHasALegalReply }
{}

/// Serial truth: in a legal history, of however many sessions, the reads of each committed transaction are correct.
pub fn committed_reads_are_right()
    ensures { CommittedReadsAreRight }
{}

/// The adds of a legal history apply.
pub fn adds_of_runs_apply()
    ensures { AddsOfRunsApply }
{}

/// After a legal history no two granted requests of a key conflict.
pub fn locks_never_conflict()
    ensures { LocksNeverConflict }
{}

/// Each step of a legal history has a legal effect.
pub fn legal_histories_have_legal_effects()
    ensures { LegalHistoriesHaveLegalEffects }
{}

/// The tokens of points are in the log in order, and none is left out.
pub fn tokens_stand_in_order()
    ensures { TokensStandInOrder }
{}

/// Each key that was touched in a point's cycle is taken once.
pub fn each_key_is_taken_once()
    ensures { EachKeyIsTakenOnce }
{}

/// While keys may be left to take, no step but the next point of consistency changes the state of the point.
pub fn point_states_stay()
    ensures { PointStatesStay }
{}

/// In a quiet run the committed contents are those of the point, from its token to the end of its cycle.
pub fn quiet_contents_stay()
    ensures { QuietContentsStay }
{}

/// The join of the contents of two sets of points is the content of their union.
pub fn joins_are_contents()
    ensures { JoinsAreContents }
{}

/// If each Take carried its key's content at the point, each file of the shelf is that of its points.
pub fn files_are_of_their_points()
    ensures { FilesAreOfTheirPoints }
{}

/// Any two files made of the shelf join, and give the file of the points of both.
pub fn files_join_well()
    ensures { FilesJoinWell }
{}

/// The headline: files of the same points are one, in whatever order they were joined, and the base with one of the
/// points 1 to n applied to it is the state of n.
pub fn files_are_states()
    ensures { FilesAreStates }
{}

//! The points of a run: each is taken once enough was committed since the last one, and then its file is written.
ghost use Rattle.std.specs.Prelude.{◌≡◌, ◌+◌, ◌≤◌, ℕ, true, [], List, Option, IfErr, IfOk, OnOk, is_some, length};
ghost use Rattle.pc_types.specs.declared.Phase.TheVariants.{Rest};
ghost use Rattle.pc_types.specs.declared.limits.TheConstants.{MOST_POINTS};
ghost use Rattle.pc_model.specs.History.{History, phase_of};
ghost use Rattle.pc_workers.specs.Checkpointing.{HasCycled};
ghost use Rattle.pc_texts.specs.declared.file_names.FileName.TheVariants as file;
ghost use Rattle.pc_threads.specs.Faults.{IsPointsFaultOf, IsThreadsEnd, PointsHaveStopped};
ghost use Rattle.pc_threads.specs.Files.{HasParts, HasWritten, RefusedBy, RefusesNoMore};

use crate::fault::ThreadsFault;
use crate::files::{NewFiles, write_part};
use crate::hands::Seat;
use crate::room::Room;
use pc_shared::{CheckpointerSeat, PartTicket, Witness};
use pc_tie::StoreName;
use pc_types::{FileNo, Gate, Lsn, Point, Refusal};
use pc_workers::{CheckpointFault, checkpoint_loop};
use std::io::Write;
use std::sync::Wait;

/// The checkpointer of a run: its seats at the store and at the board, the number of transactions that commit from the begin of one
/// point to that of the next, the log's entry from which they are counted, and the folder for the files of points, if there is one,
/// with a ticket of each point whose file was written.
#[derive(Drop)]
pub struct Checkpointer<'a, N: StoreName, D> {
    pub at_store: CheckpointerSeat<N>,
    pub at_board: Seat<'a>,
    pub every: u32,
    pub counted_from: Lsn,
    pub folder: Option<D>,
    pub written: Vec<PartTicket<N>>,
}

/// The checkpointer's seat at a store whose log has no place left, and a witness that has seen that.
#[derive(Drop)]
pub struct FullLog<N: StoreName> {
    pub seat: CheckpointerSeat<N>,
    pub seen: Witness<N>,
}

/// Why the points of a run are not all taken: the log has no place left, or another fault.
#[derive(Drop)]
pub(crate) enum PointsFault<N: StoreName, F> {
    LogFull(FullLog<N>),
    Other(ThreadsFault<F>),
}

impl<N: StoreName, F> From<ThreadsFault<F>> for PointsFault<N, F> {
    ghost use Rattle.std.specs.Prelude.{◌≡◌};
    ghost use Rattle.pc_threads.specs.declared.points.PointsFault.TheVariants.{Other};

    ghost from_gives = { λ why fault. fault ≡ Other why };

    fn from(why: ThreadsFault<F>) -> PointsFault<N, F> {
        PointsFault::Other(why)
    }
}

// The fault of points that are not all taken, after a refusal to the checkpointer of this seat.
fn fault_of<N: StoreName, F>(
    stop: CheckpointFault<N>,
    seat: CheckpointerSeat<N>,
) -> PointsFault<N, F>
    ensures { IsPointsFaultOf stop seat result }
{
    let CheckpointFault { why, seen } = stop;
    match why {
        Refusal::LogFull => PointsFault::LogFull(FullLog { seat, seen }),
        other => PointsFault::Other(ThreadsFault::Refused(other)),
    }
}

/// The number of log entries that a point's cycle makes: one for each change of the phase.
pub const TOKENS: u32 = 5;

// Writes the file of the point, which is the next one, to the folder.
fn write_point<N: StoreName, F: Write + Drop, D: NewFiles<F>, G: Gate, R: Wait>(
    rt: &R,
    room: &Room<'_, N, G>,
    seat: &mut CheckpointerSeat<N>,
    folder: &mut D,
    written: &mut Vec<PartTicket<N>>,
    point: Point,
) -> Result<(), ThreadsFault<F>>
    ensures parts { HasParts (D.holds folder.old) written.old.items → point ≡ length written.old.items + 1 → OnOk result (HasParts (D.holds folder.new) written.new.items) }
    ensures count { OnOk result (length written.new.items ≡ length written.old.items + 1) }
    ensures base { (text : List ℕ) → D.holds folder.old file.Base text → D.holds folder.new file.Base text }
    ensures seat { seat.new ≡ seat.old }
    ensures refusals { RefusesNoMore (D.refuses folder.old) (D.refuses folder.new) }
    ensures ended { 1 ≤ point → HasCycled N.name.setting point [] seat.old → IfErr result (IsThreadsEnd (D.refuses folder.old) true 0 0) }
{
    written.reserve(1)?;
    let number = FileNo(u32::from(point.0));
    let ticket = room.desk.shared.take_part(rt, seat, number)?;
    write_part(folder, point, ticket.part())?;
    written.push_reserved(ticket);
    Ok(())
}

impl<'a, N: StoreName, D: Drop> Checkpointer<'a, N, D> {
    // Waits until the given number of transactions have committed, or no further one commits, and counts from there.
    fn await_commits<G: Gate, R: Wait>(&mut self, rt: &R, room: &Room<'_, N, G>)
        ensures folder { self.new.folder ≡ self.old.folder }
        ensures written { self.new.written ≡ self.old.written }
        ensures seat { self.new.at_store ≡ self.old.at_store }
    {
        let due = Lsn(self.counted_from.0.saturating_add(self.every));
        let _ = room.desk.shared.until_committed(rt, due);
        let begun = room.desk.shared.last_entry(rt).number;
        self.counted_from = Lsn(begun.0.saturating_add(TOKENS));
    }

    // Takes the point of this number, and writes its file.
    fn take<F: Write + Drop, G: Gate, R: Wait>(
        self,
        rt: &R,
        room: &Room<'_, N, G>,
        point: Point,
    ) -> Result<Checkpointer<'a, N, D>, PointsFault<N, F>>
    where
        D: NewFiles<F>,
        requires { phase_of self.at_store ≡ Rest }
        ensures cycle { IfOk result (λ later. HasCycled N.name.setting 1 self.entry.at_store later.at_store) }
        ensures written { (first : Option D) (before : ℕ) → before + 1 ≡ point → HasWritten D.holds before first self.entry.folder self.entry.written.items → IfOk result (λ later. HasWritten D.holds point first later.folder later.written.items) }
        ensures there { IfOk result (λ later. is_some later.folder ≡ is_some self.entry.folder) }
        ensures refusals { IfOk result (λ later. RefusesNoMore (RefusedBy D.refuses self.entry.folder) (RefusedBy D.refuses later.folder)) }
        ensures ended { (before : ℕ) → before + 1 ≡ point → point ≤ MOST_POINTS → HasCycled N.name.setting before [] self.entry.at_store → IfErr result (PointsHaveStopped (RefusedBy D.refuses self.entry.folder) N.name.setting (is_some self.entry.folder) point) }
    {
        let Checkpointer {
            mut at_store,
            at_board,
            every,
            counted_from,
            folder,
            mut written,
        } = self;
        let Seat { board, mut pass } = at_board;
        match checkpoint_loop(rt, &room.desk, &mut at_store, board, &mut pass, 1) {
            Ok(_) => {}
            Err(stop) => return Err(fault_of(stop, at_store)),
        }
        let folder = match folder {
            Some(mut folder) => {
                write_point(rt, room, &mut at_store, &mut folder, &mut written, point)?;
                Some(folder)
            }
            None => None,
        };
        let at_board = Seat { board, pass };
        Ok(Checkpointer {
            at_store,
            at_board,
            every,
            counted_from,
            folder,
            written,
        })
    }
}

// Takes the points after the first ones, to the last one of this number: each once enough has committed since the one before, or no
// further transaction commits.
pub(crate) fn take_points<
    'a,
    N: StoreName,
    F: Write + Drop,
    D: NewFiles<F> + Drop,
    G: Gate,
    R: Wait,
>(
    rt: &R,
    room: &Room<'_, N, G>,
    checkpointer: Checkpointer<'a, N, D>,
    taken: u32,
    last: u32,
) -> Result<Checkpointer<'a, N, D>, PointsFault<N, F>>
    requires order { taken ≤ last }
    requires rest { phase_of checkpointer.at_store ≡ Rest }
    ensures rest { IfOk result (λ later. phase_of later.at_store ≡ Rest) }
    ensures cycles { (first : History) → HasCycled N.name.setting taken first checkpointer.entry.at_store → IfOk result (λ later. HasCycled N.name.setting last first later.at_store) }
    ensures written { (first : Option D) → HasWritten D.holds taken first checkpointer.entry.folder checkpointer.entry.written.items → IfOk result (λ later. HasWritten D.holds last first later.folder later.written.items) }
    ensures there { IfOk result (λ later. is_some later.folder ≡ is_some checkpointer.entry.folder) }
    ensures refusals { IfOk result (λ later. RefusesNoMore (RefusedBy D.refuses checkpointer.entry.folder) (RefusedBy D.refuses later.folder)) }
    ensures ended { HasCycled N.name.setting taken [] checkpointer.entry.at_store → IfErr result (PointsHaveStopped (RefusedBy D.refuses checkpointer.entry.folder) N.name.setting (is_some checkpointer.entry.folder) last) }
{
    let mut checkpointer = checkpointer;
    for others in taken..last {
        let Ok(point) = u16::try_from(others + 1) else {
            return Err(PointsFault::Other(ThreadsFault::Refused(Refusal::PointsFull)));
        };
        checkpointer.await_commits(rt, room);
        checkpointer = match checkpointer.take(rt, room, Point(point)) {
            Ok(later) => later,
            Err(fault) => return Err(fault),
        };
    }
    Ok(checkpointer)
}

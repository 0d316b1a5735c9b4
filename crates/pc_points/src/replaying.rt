//! What the log has up to a point's token, read and applied entry by entry.
ghost use Rattle.std.specs.Prelude.{◌≡◌, ◌≢◌, [], false, IfOk, IfErr, MatchOption, Ok};
ghost use Rattle.pc_io.specs.Fields.{Gives};
ghost use Rattle.pc_model.specs.Log.{log_after_point};
ghost use Rattle.pc_log.specs.Orders.{no_token};
ghost use Rattle.pc_log.specs.Reading.{all_at};
ghost use Rattle.pc_recover.specs.Recovery.{entries_after};
ghost use Rattle.pc_points.specs.Points.{log_state, state_before};

use pc_io::Format;
use pc_log::{LastToken, read_entry, read_header};
use pc_recover::{is_token_of, with_entry};
use pc_replay::Overlay;
use pc_types::{Point, Refusal};
use std::alloc::Global;

// A log's text begins with a header of this length.
const HEADER: usize = 20;

/// Where the entries behind a point's token begin: the last token before them, and their bytes.
struct Behind<'a> {
    last: LastToken,
    rest: &'a [u8],
}

/// The database once the commits of the run's log between the tokens of two points are applied, those from the log's start on
/// where the first point is 0. `None` if and only if no token of the second point comes behind that of the first. Fewer bytes
/// than a log's header has count as a log without entries. Refuses with the fault of the header, with `OtherRun`, or with
/// `OutOfMemory` where memory ran out. Of the log one entry at a time is kept.
#[tactic(auto, unfolding(pc_log::specs::Reading::log_at))]
pub(crate) fn replay_log(
    alloc: Global,
    run: u64,
    points: (Point, Point),
    database: Overlay,
    bytes: &[u8],
) -> Result<Option<Overlay>, Refusal>
    ensures { Gives (λ found. found) result (log_state run points.0 points.1 database bytes.now) }
{
    if bytes.len() < HEADER {
        return Ok(None);
    }
    let (format, of_run, entries) = read_header(bytes)?;
    if of_run != run {
        return Err(Refusal::OtherRun);
    }
    replay_between(alloc, format, points, database, entries)
}

// The same of the log's entries, in the log's format.
fn replay_between(
    alloc: Global,
    format: Format,
    points: (Point, Point),
    database: Overlay,
    bytes: &[u8],
) -> Result<Option<Overlay>, Refusal>
    ensures { Gives (λ found. found) result (Ok (state_before points.1 database (entries_after points.0 (all_at format no_token bytes.now).entries))) }
{
    match find_behind(alloc, format, points.0, bytes) {
        Ok(Some(Behind { last, rest })) => replay_to(alloc, format, points.1, database, last, rest),
        Ok(None) => Ok(None),
        Err(why) => Err(why),
    }
}

// The entries behind the point's token, all of them where the point is 0; `None` where no token of it can be read.
fn find_behind<'a>(
    alloc: Global,
    format: Format,
    point: Point,
    bytes: &'a [u8],
) -> Result<Option<Behind<'a>>, Refusal>
    ensures found { IfOk result (λ found. MatchOption found (entries_after point (all_at format no_token bytes.now).entries ≡ []) (λ place. (all_at format place.last place.rest.now).entries ≡ entries_after point (all_at format no_token bytes.now).entries)) }
    ensures memory { IfErr result (λ e. e ≡ Refusal.OutOfMemory) }
{
    if point == Point(0) {
        let last = LastToken::none();
        return Ok(Some(Behind { last, rest: bytes }));
    }
    skip_to_token(alloc, format, point, bytes)
}

// The entries behind the point's token; `None` where no token of it can be read.
fn skip_to_token<'a>(
    alloc: Global,
    format: Format,
    point: Point,
    bytes: &'a [u8],
) -> Result<Option<Behind<'a>>, Refusal>
    ensures found { IfOk result (λ found. MatchOption found (log_after_point point (all_at format no_token bytes.now).entries ≡ []) (λ place. (all_at format place.last place.rest.now).entries ≡ log_after_point point (all_at format no_token bytes.now).entries)) }
    ensures memory { IfErr result (λ e. e ≡ Refusal.OutOfMemory) }
{
    let mut last = LastToken::none();
    let mut rest = bytes;
    while !rest.is_empty() {
        match read_entry(alloc, format, last, rest) {
            Ok((entry, after)) => {
                last = last.after(&entry);
                rest = after;
                if is_token_of(point, &entry) {
                    return Ok(Some(Behind { last, rest }));
                }
            }
            Err(fault) => {
                if is_for_memory(fault) {
                    return Err(Refusal::OutOfMemory);
                }
                return Ok(None);
            }
        }
    }
    Ok(None)
}

// The database once the commits before the point's token are applied; `None` where no token of it can be read.
fn replay_to(
    alloc: Global,
    format: Format,
    point: Point,
    database: Overlay,
    last: LastToken,
    bytes: &[u8],
) -> Result<Option<Overlay>, Refusal>
    ensures { Gives (λ found. found) result (Ok (state_before point database (all_at format last bytes.now).entries)) }
{
    let mut database = database;
    let mut last = last;
    let mut rest = bytes;
    while !rest.is_empty() {
        match read_entry(alloc, format, last, rest) {
            Ok((entry, after)) => {
                if is_token_of(point, &entry) {
                    return Ok(Some(database));
                }
                last = last.after(&entry);
                rest = after;
                database = with_entry(alloc, database, entry)?;
            }
            Err(fault) => {
                if is_for_memory(fault) {
                    return Err(Refusal::OutOfMemory);
                }
                return Ok(None);
            }
        }
    }
    Ok(None)
}

// Whether an entry was refused because memory ran out, and not for a fault of its bytes.
fn is_for_memory(fault: Refusal) -> bool
    ensures { result ≡ false → fault ≢ Refusal.OutOfMemory }
{
    fault == Refusal::OutOfMemory
}

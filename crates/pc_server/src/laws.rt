//! The laws of a store that is served. The functions do nothing, and their contracts are the laws.
ghost use Rattle.std.specs.Prelude.{◌≡◌, ◌⊎◌, ◌++◌, ℕ, List, Option, Some};
ghost use Rattle.pc_io.specs.Tallies.{inner_of};
ghost use Rattle.pc_model.specs.Files.{File};
ghost use Rattle.pc_model.specs.Replies.{Setting};
ghost use Rattle.pc_log.specs.Texts.{header_text};
ghost use Rattle.pc_recover.specs.Runs.{IsForeign};
ghost use Rattle.pc_server.specs.Answered.{LosesNoAnswer};
ghost use Rattle.pc_server.specs.Files.{HasOnlyFiles};
ghost use Rattle.pc_server.specs.Inputs.{EndsServed, HasStopped};
ghost use Rattle.pc_server.specs.declared.serve.Stopped.{Stopped};

use crate::serve::PointFiles;
use crate::service::Service;
use pc_restarts::every_cut_of_a_world_is_recovered;
use pc_turn::LogDevice;
use std::io::Write;

/// Of what `serve_input` leaves, wherever it ends, of a store whose log's device had a header alone at first, and whose `points` had no
/// file of the run: one history answers some first lines of the input, and of its answers a prefix was sent, and nothing else. Whatever
/// came back, a text of the base, any texts that `points` has, and of the log all that was kept and no more than was written: `recover`
/// gives the database after the first entries of the log, and each line `committed N` that was sent whole names a commit that is among
/// them, but for the last entries, as many as the lag. Only the entry limit refuses.
pub fn serving_loses_no_answer<L: LogDevice + Drop, W: Write + Drop, P: PointFiles>(
    service: &Service<L, W>,
    points: &P,
)
    ensures { (input left : Option (List ℕ)) (stopped : Stopped) (st : Setting) (lag : ℕ) (before sent : List ℕ) (files : List File) (first : P) → W.contents (inner_of service.now.out) ≡ Some (before ++ sent)
        → HasStopped L.written L.kept W.contents (Some (header_text st.run)) (Some before) input st lag left files service.now stopped ⊎ EndsServed L.written L.kept W.contents (Some (header_text st.run)) (Some before) input st lag files service.now.log (inner_of service.now.out)
        → HasOnlyFiles (P.holds first) (P.holds points.now) files → ((point : ℕ) (text : List ℕ) → P.holds first point text → IsForeign st.run text)
        → LosesNoAnswer (P.holds points.now) (L.written service.now.log) (L.kept service.now.log) sent input st lag }
{
    every_cut_of_a_world_is_recovered();
}

/// The same of a process that is killed, of whose log all that was written came back: then no commit of which a line `committed N` was
/// sent whole is lost, whatever the lag.
pub fn kills_lose_no_answer<L: LogDevice + Drop, W: Write + Drop, P: PointFiles>(
    service: &Service<L, W>,
    points: &P,
)
    ensures { (input left : Option (List ℕ)) (stopped : Stopped) (st : Setting) (lag : ℕ) (before sent : List ℕ) (files : List File) (first : P) → W.contents (inner_of service.now.out) ≡ Some (before ++ sent)
        → HasStopped L.written L.kept W.contents (Some (header_text st.run)) (Some before) input st lag left files service.now stopped ⊎ EndsServed L.written L.kept W.contents (Some (header_text st.run)) (Some before) input st lag files service.now.log (inner_of service.now.out)
        → HasOnlyFiles (P.holds first) (P.holds points.now) files → ((point : ℕ) (text : List ℕ) → P.holds first point text → IsForeign st.run text)
        → LosesNoAnswer (P.holds points.now) (L.written service.now.log) (L.written service.now.log) sent input st 0 }
{
    every_cut_of_a_world_is_recovered();
}

//! The views of the store that a script asks for; they change nothing.
ghost use Rattle.std.specs.Prelude.{◌≡◌};
ghost use Rattle.pc_model.specs.History.{History};
ghost use Rattle.pc_engine.specs.Stands.{Stands};
ghost use Rattle.pc_engine.specs.Store.{setting_of};
ghost use Rattle.pc_script.specs.Views.{AnswersView, ShowsCheck, ShowsItsCheck, ShowsState, ShowsText};
ghost use Rattle.pc_lines.specs.declared.lines.View.TheVariants as view;

use crate::script::{LineAnswer, refusal_answer};
use pc_bases::{Base, lay};
use pc_engine::World;
use pc_io::Tally;
use pc_lines::View;
use pc_part::Part;
use pc_types::{Items, Refusal};
use std::alloc::Global;

/// Shows what the line asks for.
pub(crate) fn answer_view(alloc: Global, world: &World, view: View) -> LineAnswer
    ensures answer { (history : History) → Stands world.now history → AnswersView (setting_of world.now) history view result }
    ensures check { ShowsItsCheck world.now view result }
{
    match view {
        View::State(number) => match world.file(number) {
            Some(file) => shown_state(alloc, world.base(), file),
            None => refusal_answer(Refusal::NoFile),
        },
        View::Text(number) => match world.file(number) {
            Some(file) => shown_text(alloc, file),
            None => refusal_answer(Refusal::NoFile),
        },
        View::Check => shown_check(world),
    }
}

// The base with the file applied to it.
fn shown_state(alloc: Global, base: &Base, file: &Part) -> LineAnswer
    ensures { ShowsState base.now result file.now }
{
    match lay(alloc, base, file) {
        Ok(laid) => LineAnswer::State(laid),
        Err(why) => refusal_answer(why),
    }
}

// Whether the store is what its log says.
fn shown_check(world: &World) -> LineAnswer
    ensures check { ShowsCheck world.now result }
    ensures always { (history : History) → Stands world.now history → AnswersView (setting_of world.now) history view.Check result }
{
    match world.check() {
        Ok(sound) => LineAnswer::Check(sound),
        Err(_) => refusal_answer(Refusal::OutOfMemory),
    }
}

// The bytes of the file.
fn shown_text(alloc: Global, file: &Part) -> LineAnswer
    ensures { ShowsText result file.now }
{
    let mut out = Tally::new(Vec::new(alloc));
    match file.encode(&mut out) {
        Ok(()) => LineAnswer::Text(Items::from_vec(out.into_inner())),
        // Bytes in memory fail only for want of it.
        Err(_) => refusal_answer(Refusal::OutOfMemory),
    }
}

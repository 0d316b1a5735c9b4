//! The gate that the loops of a run pass.
use pc_progress::Progress;
use pc_types::{Gate, GatePlace, Refusal, SessionNo};
use pc_workers::ClientGate;

/// Counts the places that the loops pass, and the refusals of clients.
#[derive(Drop)]
pub struct RunGate<'a> {
    pub progress: &'a Progress<'a>,
}

impl<'a> Gate for RunGate<'a> {
    fn pass(&self, place: GatePlace) {
        let progress = self.progress;
        progress.pass(place);
    }
}

impl<'a> ClientGate for RunGate<'a> {
    fn refused(&self, session: SessionNo, why: Refusal) {
        let progress = self.progress;
        progress.note_refusal(session, why);
    }
}

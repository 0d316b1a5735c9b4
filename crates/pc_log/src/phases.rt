//! The numbers that represent phases in a text.
ghost use Rattle.std.specs.Prelude.{◌≡◌};
ghost use Rattle.pc_io.specs.Fields.{Reads};
ghost use Rattle.pc_log.specs.Texts.{phase_number};
ghost use Rattle.pc_log.specs.Reading.{phase_numbered};

use pc_types::{Phase, Refusal};

/// The number of the phase in a token's text, from rest, which is 0, to complete, which is 4.
pub fn number(phase: Phase) -> u8
    ensures { result ≡ phase_number phase }
{
    match phase {
        Phase::Rest => 0,
        Phase::Prepare => 1,
        Phase::Resolve => 2,
        Phase::Capture => 3,
        Phase::Complete => 4,
    }
}

/// The phase of this number. Returns `BadKind` if and only if it is above 4.
pub fn numbered(number: u8) -> Result<Phase, Refusal>
    ensures { Reads (λ phase. phase) result (phase_numbered number) }
{
    match number {
        0 => Ok(Phase::Rest),
        1 => Ok(Phase::Prepare),
        2 => Ok(Phase::Resolve),
        3 => Ok(Phase::Capture),
        4 => Ok(Phase::Complete),
        _ => Err(Refusal::BadKind),
    }
}

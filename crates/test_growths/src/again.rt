//! Calls that are made a second time if an allocation failed.
use pc_types::Refusal;

/// The answer to the call; if an allocation failed, the answer to the second one.
pub(crate) fn again<T, F: FnMut() -> Result<T, Refusal>>(mut call: F) -> Result<T, Refusal>
    requires { F.IsAlwaysCallable call }
{
    match call() {
        Err(Refusal::OutOfMemory) => call(),
        told => told,
    }
}

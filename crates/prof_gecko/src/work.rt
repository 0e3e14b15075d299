//! What is left to check.

use crate::gathered::GeckoProcess;
use prof_raw::ListFault;

/// A process with those below it, or the fault of a list of processes.
#[derive(Drop)]
pub(crate) enum Work {
    Process(GeckoProcess),
    Fault(ListFault),
}

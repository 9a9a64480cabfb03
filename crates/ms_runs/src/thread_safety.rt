//! What a run is given and what it returns may be sent to another thread, and shared with one.

use crate::runs::{RunResult, Setup};
use ms_bits::thread_safety::law_shared;

/// Both may cross threads, so each type of their parts may.
pub fn law_run_is_shared() {
    law_shared::<Setup>();
    law_shared::<RunResult>();
}

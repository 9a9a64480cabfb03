//! A law: a checked module, and why there is none, may be sent to another thread, and shared with one.

use crate::checked::CheckedModule;
use crate::errors::CheckError;
use ms_bits::thread_safety::law_shared;

/// A checked module, and the reason why there is none, may cross threads.
pub fn law_checks_are_shared() {
    law_shared::<CheckedModule>();
    law_shared::<CheckError>();
}

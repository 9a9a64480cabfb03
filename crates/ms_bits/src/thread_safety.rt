//! Laws: the types of this crate may be sent to another thread, and shared with one, where what they hold may. Work on modules is
//! split between threads.

use crate::boxes::Boxed;
use crate::lists::{Bytes, List};
use crate::operations::{BinOp, CastOp, Flags, Pred};
use crate::small_bytes::SmallBytes;
use crate::texts::Text;
use crate::traps::Trap;
use crate::word_functions::{BitMove, WordFn, WordWidth};
use crate::words::Word;

/// A call of it stands only where `T` may cross threads.
pub fn law_shared<T: Send + Sync>() {}

/// A list may cross threads where its items may.
pub fn law_list_is_shared<T: Send + Sync>() {
    law_shared::<List<T>>();
}

/// A box may cross threads where its value may.
pub fn law_boxed_is_shared<T: Send + Sync>() {
    law_shared::<Boxed<T>>();
}

/// Each other type of this crate may cross threads.
pub fn law_all_shared() {
    law_shared::<Bytes>();
    law_shared::<SmallBytes>();
    law_shared::<Text>();
    law_shared::<BinOp>();
    law_shared::<Pred>();
    law_shared::<CastOp>();
    law_shared::<Flags>();
    law_shared::<Trap>();
    law_shared::<WordFn>();
    law_shared::<WordWidth>();
    law_shared::<BitMove>();
    law_shared::<Word>();
}

//! One touch as it is read.

use marks::MarkedUser;
use tuple_text::SetRef;

/// A touch: its timestamp, whether it adds, the userset and the user of its tuple, and the place of the touch of the
/// same tuple before it. Places count from 1, and 0 is no place.
#[derive(Clone, Copy, Drop)]
pub struct TouchRef<'a> {
    pub at: u64,
    pub live: bool,
    pub set: SetRef<'a>,
    pub user: MarkedUser<'a>,
    pub older: usize,
}

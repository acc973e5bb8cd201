//! Why a text is no zookie.

use thiserror::Error;

/// Why a text is no zookie. Of the faults that apply, the first one here is answered.
#[derive(Clone, Copy, Debug, PartialEq, Eq, Error)]
pub enum ZookieFault {
    /// A text that begins with `z2-` has not 20 bytes, or any other has not 19.
    #[error("bad zookie, length")]
    Length,
    /// The text begins neither with `z1-` nor with `z2-`.
    #[error("bad zookie, prefix")]
    Prefix,
    /// The first byte that is no digit where one should stand, counted from 0 in the text.
    #[error("bad zookie, digit at {at}")]
    Digit { at: usize },
    /// The byte behind `z2-` is no kind.
    #[error("bad zookie, kind")]
    KindByte,
}

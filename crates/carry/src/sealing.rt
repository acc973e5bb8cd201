//! The first line of a carry and the last.

ghost use Rattle.std.specs.Prelude.{◌≡◌, ◌≤◌, ◌+◌, ◌++◌, length, nat_eq, option_map};
ghost use Rattle.std.specs.List.{starts_with};
ghost use Rattle.carry.specs.Fields.{word_at};
ghost use Rattle.carry.specs.Opening.{behind_first, may_be_seal, opened, text_in, unsealed_at};
ghost use Rattle.carry.specs.Refused.{Tells};
ghost use Rattle.carry.specs.Texts.{first_line, seal};

use crate::fault::CarryFault;
use sha2::{Digest, Sha256};
use simdutf8::compat::from_utf8;

/// The format and its version.
const FIRST_LINE: [u8; 18] = *b"new_enemy carry 1\n";

/// How long the last line is.
const SEAL: usize = 72;

/// What stands behind the first line.
fn after_first_line(bytes: &[u8]) -> Option<&[u8]>
    ensures { option_map (λ s. s.now) result ≡ word_at first_line bytes.now }
{
    bytes.strip_prefix(&FIRST_LINE)
}

/// Whether the bytes end within the first line.
fn begins_first_line(bytes: &[u8]) -> bool
    ensures { result ≡ starts_with nat_eq first_line bytes.now }
{
    FIRST_LINE.starts_with(bytes)
}

/// The last line of a carry that has this body.
#[tactic(auto, unfolding(crate::specs::Texts::seal))]
fn seal(body: &[u8]) -> [u8; SEAL]
    ensures { result ≡ seal (first_line ++ body.now) }
{
    let mut hasher = Sha256::new();
    hasher.update(FIRST_LINE.as_slice());
    hasher.update(body);
    let digest = hasher.finalize();
    let mut line = [b'\n'; SEAL];
    line[..7].copy_from_slice(b"sha256 ");
    let written = hex::encode_to_slice(digest, &mut line[7..71]);
    prove!(written.is_ok());
    line
}

/// Whether a line of that length may be a seal.
fn may_be_seal(line: &[u8]) -> bool
    requires { length line.now ≡ SEAL }
    ensures { result ≡ may_be_seal line.now }
{
    line.starts_with(b"sha256 ") && line[71] == b'\n'
}

/// The body, where the line behind it is its seal.
#[tactic(auto, unfolding(crate::specs::Opening::unsealed_at))]
fn unsealed<'a>(body: &'a [u8], line: &[u8]) -> Result<&'a [u8], CarryFault>
    requires { length line.now ≡ SEAL }
    ensures { Tells (λ s. s.now) result (unsealed_at body.now line.now) }
{
    if !may_be_seal(line) {
        return Err(CarryFault::Cut);
    }
    let wanted = seal(body);
    if line == wanted.as_slice() {
        Ok(body)
    } else {
        Err(CarryFault::Changed)
    }
}

/// The body, before its seal.
#[tactic(auto, unfolding(crate::specs::Opening::behind_first))]
fn behind_first(rest: &[u8]) -> Result<&[u8], CarryFault>
    ensures { Tells (λ s. s.now) result (behind_first rest.now) }
{
    if rest.len() < SEAL {
        return Err(CarryFault::Cut);
    }
    let (body, line) = rest.split_at(rest.len() - SEAL);
    unsealed(body, line)
}

/// What stands between the first line and the last.
#[tactic(auto, unfolding(crate::specs::Opening::opened))]
fn opened(bytes: &[u8]) -> Result<&[u8], CarryFault>
    ensures { Tells (λ s. s.now) result (opened bytes.now) }
{
    if let Some(rest) = after_first_line(bytes) {
        return behind_first(rest);
    }
    if begins_first_line(bytes) {
        Err(CarryFault::Cut)
    } else {
        Err(CarryFault::Foreign)
    }
}

/// The fault of a body that is UTF-8 up to this place.
fn malformed(body: &[u8], valid: usize) -> CarryFault
    requires { valid ≤ length body.now }
    ensures { result ≡ CarryFault.Malformed (18 + valid) }
{
    CarryFault::Malformed { at: 18 + valid }
}

/// The same, as a text.
#[tactic(auto, unfolding(crate::specs::Opening::text_in))]
pub(crate) fn text_in(bytes: &[u8]) -> Result<&str, CarryFault>
    ensures { Tells (λ s. s.now) result (text_in bytes.now) }
{
    let body = opened(bytes)?;
    match from_utf8(body) {
        Ok(text) => Ok(text),
        Err(fault) => Err(malformed(body, fault.valid_up_to())),
    }
}

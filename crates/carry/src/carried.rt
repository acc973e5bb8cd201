//! A carry from its bytes, and its text.

ghost use Rattle.std.specs.Prelude.{◌≡◌, ◌++◌, IsUtf8, IfOk, OnOk, Ok, length, string_bytes};
ghost use Rattle.carry.specs.Opening.{carry_at};
ghost use Rattle.carry.specs.Refused.{Gives, fault_placed};
ghost use Rattle.carry.specs.Texts.{IsCarry, IsInForm, carry_text, seal, unsealed};
ghost use Rattle.carry.specs.Values.{CarryValue, carry_value};

use crate::fault::{CarryFault, FieldFault};
use crate::reading::whole_body;
use crate::sealing::text_in;
use crate::value::Carry;
use crate::writing::push_body;
use sha2::{Digest, Sha256};
use std::alloc::{AllocError, Global};

/// Where the fault of a field is in the bytes of a carry.
fn placed(text: &str, fault: FieldFault) -> CarryFault
    ensures { result ≡ fault_placed (length text.now) fault }
{
    match fault {
        FieldFault::OutOfMemory => CarryFault::OutOfMemory,
        FieldFault::Left(left) => CarryFault::Malformed {
            at: 18 + text.len().saturating_sub(left),
        },
    }
}

#[tactic(auto, unfolding(crate::specs::Opening::carry_at))]
fn carry_at(alloc: Global, bytes: &[u8]) -> Result<Carry<'_>, CarryFault>
    ensures { Gives carry_value result (carry_at bytes.now) }
{
    let text = text_in(bytes)?;
    match whole_body(alloc, text) {
        Ok(carry) => Ok(carry),
        Err(fault) => Err(placed(text, fault)),
    }
}

/// Reads a carry. Its texts borrow from the bytes.
pub fn read_carry(alloc: Global, bytes: &[u8]) -> Result<Carry<'_>, CarryFault>
    // What is read is spelled so, each byte of it.
    ensures found { IfOk result (λ c. IsCarry (carry_value c) × (bytes.now ≡ carry_text (carry_value c))) }
    // What is spelled so is read, unless memory runs out.
    ensures only { (c : CarryValue) → IsCarry c → bytes.now ≡ carry_text c → Gives carry_value result (Ok c) }
    // Which refusal it is.
    ensures exact { Gives carry_value result (carry_at bytes.now) }
{
    carry_at(alloc, bytes)
}

/// The text of a carry up to its seal.
fn unsealed(alloc: Global, carry: &Carry<'_>) -> Result<String, AllocError>
    ensures text { IfOk result (λ s. string_bytes s ≡ unsealed (carry_value carry.now)) }
    ensures form { OnOk result (IsInForm (carry_value carry.now)) }
{
    let mut text = String::from_str(alloc, "new_enemy carry 1\n")?;
    push_body(carry, &mut text)?;
    Ok(text)
}

/// Appends the seal of a text.
fn push_seal(text: &mut String) -> Result<(), AllocError>
    ensures text { OnOk result (string_bytes text.new ≡ string_bytes text.old ++ seal (string_bytes text.old)) }
    ensures utf8 { OnOk result (IsUtf8 (string_bytes text.old)) }
{
    let digest = Sha256::digest(text.as_str().as_bytes());
    let digits = hex::encode(*text.allocator(), digest)?;
    text.push_str("sha256 ")?;
    text.push_str(digits.as_str())?;
    text.push('\n')
}

/// The text of a carry, from which `read_carry` gives the same carry back.
pub fn write_carry(alloc: Global, carry: &Carry<'_>) -> Result<String, AllocError>
    ensures text { IfOk result (λ s. string_bytes s ≡ carry_text (carry_value carry.now)) }
    ensures form { OnOk result (IsCarry (carry_value carry.now)) }
{
    let mut text = unsealed(alloc, carry)?;
    push_seal(&mut text)?;
    Ok(text)
}

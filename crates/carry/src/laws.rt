//! Laws of a carry's text. The functions compute nothing: a law is its function's contract.

ghost use Rattle.std.specs.Prelude.{◌≡◌, ℕ, ◌++◌, [], List, Ok};
ghost use Rattle.carry.specs.Opening.{carry_at};
ghost use Rattle.carry.specs.Texts.{IsCarry, carry_text};
ghost use Rattle.carry.specs.Values.{CarryValue};

/// The text of a carry is read as that carry.
pub fn written_is_read()
    ensures { (c : CarryValue) → IsCarry c → carry_at (carry_text c) ≡ Ok c }
{}

/// What is read as a carry is its text.
pub fn read_is_written()
    ensures { (bytes : List ℕ) (c : CarryValue) → carry_at bytes ≡ Ok c → IsCarry c × (bytes ≡ carry_text c) }
{}

/// No carry's text begins another's: a carry that was cut anywhere is none.
pub fn no_front_is_a_carry()
    ensures { (c d : CarryValue) (rest : List ℕ) → IsCarry c → IsCarry d → carry_text c ≡ carry_text d ++ rest
        → (c ≡ d) × (rest ≡ []) }
{}

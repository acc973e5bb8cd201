//! The parts of a text, and where each ends.

ghost use Rattle.std.specs.Prelude.{◌≡◌, ◌↔◌, ◌<◌, ◌≤◌, ◌+◌, ◌++◌, ◌^◌, IfSome, IsTrue, false, true, length, slice_index, take, drop, Some, None, if◌then◌else◌};
ghost use Rattle.std.specs.Char.{is_ascii_digit};
ghost use Rattle.std.specs.Fmt.{decimal};
ghost use Rattle.std.specs.List.{list_all, prefix_len};
ghost use Rattle.std.specs.Str.Parse.{digits_value};
ghost use Rattle.tuple_text.specs.Classes.{may_stand};
ghost use Rattle.tuple_text.specs.Forms.{is_name_byte, is_name, is_id_byte, is_object_id, is_user_relation, begins_plainly, plain_number};
ghost use Rattle.tuple_text.specs.Quoted.{IsSplit, is_plain_id_byte};
ghost use Rattle.tuple_text.specs.Faults.{Tells};
ghost use Rattle.tuple_text.specs.Reading.{part_at};
ghost use Rattle.tuple_text.specs.declared.forms.TheConstants.{FEW_DIGITS};

use crate::fault::TupleFault;
use fast_float::parse_u64;

const NAME: u8 = 1;

const ID: u8 = 2;

const PLAIN: u8 = 4;

// For each byte a digit, whose low bits are the flags above. Names and ids are most of what is read, and comparisons
// of a byte whose outcome no processor can guess took twice as long.
static CLASS: [u8; 256] = *b"\
    00000000000000000000000000000000\
    06206666666666667777777777666666\
    06666666666666666666666666662667\
    67777777777777777777777777766660\
    66666666666666666666666666666666\
    66666666666666666666666666666666\
    66666666666666666666666666666666\
    66666666666666666666666666666666";

/// What a part is.
#[derive(Clone, Copy)]
enum Part {
    Name,
    Id,
    // an object id of bytes that stand for themselves in JSON
    PlainId,
}

#[inline(always)]
fn may_stand(part: Part, b: u8) -> bool
    ensures { result ≡ may_stand part b }
{
    let flag = match part {
        Part::Name => NAME,
        Part::Id => ID,
        Part::PlainId => PLAIN,
    };
    CLASS[b as usize] & flag != 0
}

#[inline(always)]
fn all_may_stand(part: Part, bytes: &[u8]) -> bool
    ensures { result ≡ list_all (may_stand part) bytes.now }
{
    bytes.iter().all(|b| may_stand(part, *b))
}

/// Whether a text is the name of a namespace or of a relation: 1 to 64 bytes, the first `a-z`, the others `a-z`,
/// `0-9` or `_`.
pub fn is_name(text: &str) -> bool
    ensures { result ≡ is_name text.now }
{
    match text.as_bytes() {
        [] => false,
        [first, rest @ ..] => first.is_ascii_lowercase()
            && rest.len() < 64
            && all_may_stand(Part::Name, rest),
    }
}

pub fn is_object_id(text: &str) -> bool
    ensures { result ≡ is_object_id text.now }
{
    !text.is_empty() && text.len() <= 128 && all_may_stand(Part::Id, text.as_bytes())
}

/// A relation as it may stand in a user.
pub fn is_user_relation(text: &str) -> bool
    ensures { result ≡ is_user_relation text.now }
{
    is_name(text) || text == "..."
}

/// Whether neither a plus nor a zero stands before other digits.
fn begins_plainly(bytes: &[u8]) -> bool
    ensures { result ≡ begins_plainly bytes.now }
{
    match bytes {
        [b'+', ..] | [b'0', _, ..] => false,
        _ => true,
    }
}

/// Up to how many digits every number fits 64 bits.
const FEW_DIGITS: usize = 19;

/// The number that the digits in front write, of which it takes no more than fit, and how many they are. Most numbers
/// of a line are so short that to look for eight digits at once does not pay.
fn digits_before(bytes: &[u8]) -> (u64, usize)
    ensures digits { list_all is_ascii_digit (take result.1 bytes.now) ≡ true }
    ensures within { (result.1 ≤ length bytes.now) × (result.1 ≤ FEW_DIGITS) }
    ensures stops { result.1 < length bytes.now → result.1 < FEW_DIGITS
        → is_ascii_digit (slice_index bytes.now result.1) ≡ false }
    ensures value { result.0 ≡ digits_value 10 (take result.1 bytes.now) }
{
    let most = bytes.len().min(FEW_DIGITS);
    let mut number = 0;
    for place in 0..most {
        let digit = bytes[place];
        if !digit.is_ascii_digit() {
            return (number, place);
        }
        number = number * 10 + u64::from(digit - b'0');
    }
    (number, most)
}

/// The number that a few digits write; None where another byte stands among them.
fn short_number(digits: &[u8]) -> Option<u64>
    requires { length digits.now ≤ FEW_DIGITS }
    ensures { result ≡ (if list_all is_ascii_digit digits.now then Some (digits_value 10 digits.now) else None) }
{
    let (number, len) = digits_before(digits);
    if len == digits.len() {
        Some(number)
    } else {
        None
    }
}

/// A number in decimal digits, with no zero in front.
pub fn plain_number(text: &str) -> Option<u64>
    ensures { result ≡ plain_number text.now }
{
    let bytes = text.as_bytes();
    if bytes.is_empty() || !begins_plainly(bytes) {
        return None;
    }
    if bytes.len() <= FEW_DIGITS {
        return short_number(bytes);
    }
    parse_u64(bytes).ok()
}

/// How many of four bytes, from the front, may stand in the part.
#[inline(always)]
fn len_in_four(part: Part, four: &[u8; 4]) -> usize
    ensures { result ≡ prefix_len (may_stand part) four.now }
{
    if !may_stand(part, four[0]) {
        return 0;
    }
    if !may_stand(part, four[1]) {
        return 1;
    }
    if !may_stand(part, four[2]) {
        return 2;
    }
    if !may_stand(part, four[3]) {
        return 3;
    }
    4
}

/// How many bytes from the front may stand in the part, of a few.
#[inline(always)]
fn len_in_few(part: Part, bytes: &[u8]) -> usize
    ensures len { result ≡ prefix_len (may_stand part) bytes.now }
    ensures within { result ≤ length bytes.now }
{
    for (i, b) in bytes.iter().enumerate() {
        if !may_stand(part, *b) {
            return i;
        }
    }
    bytes.len()
}

/// How many bytes from the front may stand in the part. It goes over four bytes at a time, which takes a third fewer
/// instructions.
#[inline(always)]
fn part_len(part: Part, bytes: &[u8]) -> usize
    ensures { result ≡ prefix_len (may_stand part) bytes.now }
{
    let mut rest = bytes;
    while let Some((four, behind)) = rest.split_first_chunk::<4>() {
        let len = len_in_four(part, four);
        if len < 4 {
            return bytes.len() - rest.len() + len;
        }
        rest = behind;
    }
    bytes.len() - rest.len() + len_in_few(part, rest)
}

/// How many bytes from the front may stand in a name.
fn name_len(bytes: &[u8]) -> usize
    ensures { result ≡ prefix_len is_name_byte bytes.now }
{
    part_len(Part::Name, bytes)
}

/// How many bytes from the front may stand in an object id.
fn id_len(bytes: &[u8]) -> usize
    ensures { result ≡ prefix_len is_id_byte bytes.now }
{
    part_len(Part::Id, bytes)
}

/// Whether the delimiter stands at `len`.
fn ends_at(bytes: &[u8], len: usize, delimiter: u8) -> bool
    ensures { IsTrue result ↔ ((len < length bytes.now) × (slice_index bytes.now len ≡ delimiter)) }
{
    len < bytes.len() && bytes[len] == delimiter
}

/// What stands before the delimiter at `len`, and what after it.
fn split_around(text: &str, len: usize) -> (&str, &str)
    requires within { len < length text.now }
    requires ascii { slice_index text.now len < 128 }
    ensures front { result.0.now ≡ take len text.now }
    ensures rest { result.1.now ≡ drop (len + 1) text.now }
{
    (&text[..len], &text[len + 1..])
}

/// The name before the delimiter, and what stands after it.
pub fn name_before(text: &str, delimiter: u8, fault: TupleFault) -> Result<(&str, &str), TupleFault>
    requires ascii { delimiter < 128 }
    requires ends { is_name_byte delimiter ≡ false }
    ensures { Tells (λ x. (x.0.now, x.1.now)) result (part_at is_name delimiter fault text.now) }
{
    let bytes = text.as_bytes();
    let len = name_len(bytes);
    if !ends_at(bytes, len, delimiter) {
        return Err(fault);
    }
    if len == 0 || len > 64 || !bytes[0].is_ascii_lowercase() {
        return Err(fault);
    }
    Ok(split_around(text, len))
}

/// The object id before the delimiter, and what stands after it.
pub fn id_before(text: &str, delimiter: u8, fault: TupleFault) -> Result<(&str, &str), TupleFault>
    requires ascii { delimiter < 128 }
    requires ends { is_id_byte delimiter ≡ false }
    ensures { Tells (λ x. (x.0.now, x.1.now)) result (part_at is_object_id delimiter fault text.now) }
{
    let bytes = text.as_bytes();
    let len = id_len(bytes);
    if !ends_at(bytes, len, delimiter) {
        return Err(fault);
    }
    if len == 0 || len > 128 {
        return Err(fault);
    }
    Ok(split_around(text, len))
}

/// The object id before a `#`, where each of its bytes stands for itself in JSON, and what stands after it.
pub fn plain_id_before(text: &str) -> Option<(&str, &str)>
    ensures form { IfSome result (λ p. is_object_id p.0.now ≡ true) }
    ensures parts { IfSome result (λ p. IsSplit 35 text.now p.0.now p.1.now) }
{
    let bytes = text.as_bytes();
    let len = part_len(Part::PlainId, bytes);
    if !ends_at(bytes, len, b'#') || len == 0 || len > 128 {
        return None;
    }
    Some(split_around(text, len))
}

/// Whether these are digits of which none is a zero before another, and so few that they fit.
fn are_few(bytes: &[u8], len: usize) -> bool
    requires { len ≤ length bytes.now }
    ensures { IsTrue result → (0 < len) × (len < length bytes.now) × (slice_index bytes.now 0 ≡ 48 → len ≡ 1)
        × (slice_index bytes.now len < 128) }
{
    0 < len && len < bytes.len() && (bytes[0] != b'0' || len == 1) && bytes[len] < 128
}

/// The number in front, of up to nineteen decimal digits with no zero before another, and what stands behind it,
/// which has to be ASCII.
pub fn number_before(text: &str) -> Option<(u64, &str)>
    ensures text { IfSome result (λ p. text.now ≡ decimal p.0 ++ p.1.now) }
    ensures fits { IfSome result (λ p. p.0 < 2 ^ 64) }
{
    let bytes = text.as_bytes();
    let (number, len) = digits_before(bytes);
    if !are_few(bytes, len) {
        return None;
    }
    Some((number, &text[len..]))
}

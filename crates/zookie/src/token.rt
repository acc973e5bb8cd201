//! Zookies and their texts.

ghost use Rattle.std.specs.Prelude.{◌≡◌, ℕ, ◌<◌, ◌^◌, ◌-◌, ◌++◌, Some, None, IfOk, length, replicate, not, position, Ok, take, MatchOption};
ghost use Rattle.zookie.specs.Reading.{is_digit, kind_of, first_version, second_version, read_token, token_at, Spells};
ghost use Rattle.zookie.specs.Tokens.{Token, token_text, sixteen_digits};

use crate::fault::ZookieFault;
use hex::FromHex;
use std::marker::Model;

/// What a token of version 2 was issued for.
#[derive(Clone, Copy, Debug, PartialEq, Eq)]
pub enum TokenKind {
    /// A write of access rights, byte `w`.
    AclWrite,
    /// A version of content, byte `c`.
    ContentVersion,
    /// A snapshot that was read, byte `r`.
    ReadSnapshot,
}

/// A timestamp in an opaque text, with its kind where the text is of version 2.
#[derive(Clone, Copy, Debug, PartialEq, Eq)]
pub struct Zookie {
    kind: Option<TokenKind>,
    at: u64,
}

impl Model for Zookie {
    ghost use Rattle.zookie.specs.Tokens.{Token};

    ghost Value = { Token };

    ghost view = { λ z. record { kind = z.kind; at = z.at } };

    ghost inverse = { λ t. record { kind = t.kind; at = t.at } };
}

/// The text of a zookie: the first `len` of its bytes. The others are 0.
#[derive(Clone, Copy, Debug, PartialEq, Eq)]
pub struct TokenText {
    pub bytes: [u8; 20],
    pub len: usize,
}

fn is_digit(b: u8) -> bool
    ensures { result ≡ is_digit b }
{
    b.is_ascii_digit() || (b'a' <= b && b <= b'f')
}

fn kind_of(b: u8) -> Option<TokenKind>
    ensures { result ≡ kind_of b }
{
    match b {
        b'w' => Some(TokenKind::AclWrite),
        b'c' => Some(TokenKind::ContentVersion),
        b'r' => Some(TokenKind::ReadSnapshot),
        _ => None,
    }
}

fn kind_byte(kind: TokenKind) -> u8
    ensures { kind_of result ≡ Some kind }
{
    match kind {
        TokenKind::AclWrite => b'w',
        TokenKind::ContentVersion => b'c',
        TokenKind::ReadSnapshot => b'r',
    }
}

/// The number that sixteen digits write.
fn number_of(digits: &[u8]) -> u64
    requires sixteen { length digits.now ≡ 16 }
    requires digits { position (λ b. not (is_digit b)) digits.now ≡ None }
    ensures { sixteen_digits result ≡ digits.now }
{
    match <[u8; 8]>::from_hex(digits) {
        Ok(bytes) => u64::from_be_bytes(bytes),
        Err(_) => unreachable!(),
    }
}

fn first_no_digit(digits: &[u8]) -> Option<usize>
    ensures { result ≡ position (λ b. not (is_digit b)) digits.now }
{
    digits.iter().position(|b| !is_digit(*b))
}

/// Reads what stands behind `z1-`.
fn first_version(rest: &[u8]) -> Result<Zookie, ZookieFault>
    ensures spells { Spells result (first_version rest.now) }
    ensures fits { IfOk result (λ z. z.at < 2 ^ 64) }
{
    if rest.len() != 16 {
        return Err(ZookieFault::Length);
    }
    match first_no_digit(rest) {
        Some(place) => Err(ZookieFault::Digit { at: 3 + place }),
        None => Ok(Zookie::of(number_of(rest))),
    }
}

/// Reads what stands behind `z2-`.
fn second_version(rest: &[u8]) -> Result<Zookie, ZookieFault>
    ensures spells { Spells result (second_version rest.now) }
    ensures fits { IfOk result (λ z. z.at < 2 ^ 64) }
{
    let Some((kind, digits)) = rest.split_first() else {
        return Err(ZookieFault::Length);
    };
    if digits.len() != 16 {
        return Err(ZookieFault::Length);
    }
    if let Some(place) = first_no_digit(digits) {
        return Err(ZookieFault::Digit { at: 4 + place });
    }
    match kind_of(*kind) {
        Some(kind) => Ok(Zookie::of_kind(kind, number_of(digits))),
        None => Err(ZookieFault::KindByte),
    }
}

#[tactic(auto, unfolding(crate::specs::Reading::read_token))]
fn read(text: &[u8]) -> Result<Zookie, ZookieFault>
    ensures spells { Spells result (read_token text.now) }
    ensures fits { IfOk result (λ z. z.at < 2 ^ 64) }
{
    if text.starts_with(b"z2-") {
        return second_version(&text[3..]);
    }
    if text.starts_with(b"z1-") {
        return first_version(&text[3..]);
    }
    if text.len() == 19 {
        Err(ZookieFault::Prefix)
    } else {
        Err(ZookieFault::Length)
    }
}

impl Zookie {
    /// The zookie of version 1 that carries a timestamp.
    pub fn of(at: u64) -> Zookie
        ensures { result ≡ record { kind = None; at = at } }
    {
        Zookie { kind: None, at }
    }

    /// The zookie of version 2 that carries a timestamp and a kind.
    pub fn of_kind(kind: TokenKind, at: u64) -> Zookie
        ensures { result ≡ record { kind = Some kind; at = at } }
    {
        Zookie {
            kind: Some(kind),
            at,
        }
    }

    /// Reads a zookie of either version.
    pub fn parse(text: &str) -> Result<Zookie, ZookieFault>
        // What is read is spelled so.
        ensures found { IfOk result (λ z. text.now ≡ token_text z) }
        // What is spelled so is read.
        ensures only { (t : Token) → t.at < 2 ^ 64 → text.now ≡ token_text t → result ≡ Ok t }
        // Which fault it is.
        ensures exact { result ≡ token_at text.now }
    {
        read(text.as_bytes())
    }

    /// The timestamp that the zookie carries.
    pub fn at(&self) -> u64
        ensures { result ≡ self.now.at }
    {
        self.at
    }

    /// What the zookie was issued for; None in version 1, which does not say it.
    pub fn kind(&self) -> Option<TokenKind>
        ensures { result ≡ self.now.kind }
    {
        self.kind
    }

    /// The text of the zookie, from which `parse` gives the same zookie back. It has 19 bytes, and one more where it
    /// says the kind.
    pub fn text(&self) -> TokenText
        ensures text { take result.len result.bytes ≡ token_text self.now }
        ensures len { MatchOption self.now.kind (result.len ≡ 19) (λ _. result.len ≡ 20) }
        ensures rest { result.bytes ≡ token_text self.now ++ replicate (20 - result.len) 0 }
    {
        let mut bytes = [0; 20];
        let from = match self.kind {
            None => {
                bytes[..3].copy_from_slice(b"z1-");
                3
            }
            Some(kind) => {
                bytes[..3].copy_from_slice(b"z2-");
                bytes[3] = kind_byte(kind);
                4
            }
        };
        let len = from + 16;
        let written = hex::encode_to_slice(self.at.to_be_bytes(), &mut bytes[from..len]);
        prove!(written.is_ok());
        TokenText { bytes, len }
    }
}

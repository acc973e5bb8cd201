//! Worked tokens.

use zookie::{TokenKind, Zookie};

const GREATEST: u64 = 18446744073709551615;

const TOKENS: [(&str, Option<TokenKind>, u64); 7] = [
    ("z1-0000000000000000", None, 0),
    ("z1-0000000000000005", None, 5),
    ("z1-ffffffffffffffff", None, GREATEST),
    ("z2-c0000000000000008", Some(TokenKind::ContentVersion), 8),
    ("z2-w0000000000000000", Some(TokenKind::AclWrite), 0),
    (
        "z2-rffffffffffffffff",
        Some(TokenKind::ReadSnapshot),
        GREATEST,
    ),
    (
        "z2-r0123456789abcdef",
        Some(TokenKind::ReadSnapshot),
        81985529216486895,
    ),
];

/// Whether these are the bytes of the text, and zeros behind it.
fn are_of(bytes: &[u8], text: &str) -> bool {
    for (i, byte) in bytes.iter().enumerate() {
        if *byte != text.as_bytes().get(i).copied().unwrap_or(0) {
            return false;
        }
    }
    true
}

/// Whether the token of this kind and time is read from the text, and written so.
fn is_token(text: &str, kind: Option<TokenKind>, at: u64) -> bool {
    let made = match kind {
        None => Zookie::of(at),
        Some(kind) => Zookie::of_kind(kind, at),
    };
    let written = made.text();
    Zookie::parse(text) == Ok(made)
        && made.kind() == kind
        && made.at() == at
        && written.len == text.len()
        && are_of(&written.bytes, text)
}

#[test]
fn tokens_are_read_and_written_back(rt: HostRuntime) {
    for (text, kind, at) in TOKENS {
        assert!(rt; is_token(text, kind, at), "{text}");
    }
}

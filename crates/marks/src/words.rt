//! A hash of words.

ghost use Rattle.std.specs.Prelude.{◌≡◌, ◌<◌, ◌-◌, ◌++◌, length, replicate, fold};
ghost use Rattle.std.specs.Int.{w32, w64, from_le_bytes};
ghost use Rattle.std.specs.Hash.DefaultHasher.{round, with_keys, write_word};
ghost use Rattle.marks.specs.Words.{finished, state_of, words};

/// The bytes of a word.
const WORD: usize = 8;

/// SipHash-1-3 of whole words. std's hasher takes bytes one by one where they end inside a word, and so costs twice
/// as much for short texts; and it takes one word more at the end, for how many bytes there were, which the key tells
/// here.
#[derive(Clone, Copy, Drop)]
pub(crate) struct WordHasher {
    v0: u64,
    v1: u64,
    v2: u64,
    v3: u64,
}

/// The half of a word.
const HALF: usize = 4;

/// Up to three bytes, as a number of 32 bits. Each length has a case of its own: a copy of a length that is not known
/// took as long as three of the rounds below.
#[inline(always)]
fn few_bytes(bytes: &[u8]) -> u32
    requires { length bytes.now < 4 }
    ensures { result ≡ from_le_bytes w32 (bytes.now ++ replicate (4 - length bytes.now) 0) }
{
    match bytes {
        [a] => u32::from_le_bytes([*a, 0, 0, 0]),
        [a, b] => u32::from_le_bytes([*a, *b, 0, 0]),
        [a, b, c] => u32::from_le_bytes([*a, *b, *c, 0]),
        _ => u32::from_le_bytes([0; HALF]),
    }
}

/// A word of up to seven bytes, filled with zeros.
#[inline(always)]
fn last_word(bytes: &[u8]) -> u64
    requires { length bytes.now < 8 }
    ensures { result ≡ from_le_bytes w64 (bytes.now ++ replicate (8 - length bytes.now) 0) }
{
    match bytes.split_first_chunk::<HALF>() {
        Some((low, rest)) => {
            u64::from(u32::from_le_bytes(*low)) + u64::from(few_bytes(rest)) * (1 << 32)
        }
        None => u64::from(few_bytes(bytes)),
    }
}

impl WordHasher {
    /// No words, by a key.
    pub(crate) fn keyed(key: u64) -> WordHasher
        ensures { state_of result ≡ with_keys key 0 }
    {
        WordHasher {
            v0: key ^ 0x736f_6d65_7073_6575,
            v1: 0x646f_7261_6e64_6f6d,
            v2: key ^ 0x6c79_6765_6e65_7261,
            v3: 0x7465_6462_7974_6573,
        }
    }

    fn round(self) -> WordHasher
        ensures { state_of result ≡ round (state_of self) }
    {
        let v0 = self.v0.wrapping_add(self.v1);
        let v2 = self.v2.wrapping_add(self.v3);
        let v1 = self.v1.rotate_left(13) ^ v0;
        let v3 = self.v3.rotate_left(16) ^ v2;
        let mixed = v2.wrapping_add(v1);
        let v0 = v0.rotate_left(32).wrapping_add(v3);
        WordHasher {
            v0,
            v1: v1.rotate_left(17) ^ mixed,
            v2: mixed.rotate_left(32),
            v3: v3.rotate_left(21) ^ v0,
        }
    }

    /// One word more.
    pub(crate) fn with(self, word: u64) -> WordHasher
        ensures { state_of result ≡ write_word (state_of self) word }
    {
        let mut state = self;
        state.v3 ^= word;
        let mut state = state.round();
        state.v0 ^= word;
        state
    }

    /// The words of a text, the last filled with zeros.
    #[inline(always)]
    pub(crate) fn with_text(self, text: &str) -> WordHasher
        ensures { state_of result ≡ fold write_word (state_of self) (words text.now) }
    {
        let mut state = self;
        let mut rest = text.as_bytes();
        while let Some((word, behind)) = rest.split_first_chunk::<WORD>() {
            state = state.with(u64::from_le_bytes(*word));
            rest = behind;
        }
        if rest.is_empty() {
            return state;
        }
        state.with(last_word(rest))
    }

    /// The hash of the words so far.
    pub(crate) fn finish(self) -> u64
        ensures { result ≡ finished (state_of self) }
    {
        let mut state = self;
        state.v2 ^= 0xFF;
        let state = state.round().round().round();
        state.v0 ^ state.v1 ^ state.v2 ^ state.v3
    }
}

//! What a reader or a writer did so far. Only contracts read it, and it takes no memory.

ghost use Rattle.std.specs.Prelude.{◌≡◌, ◌+◌, ◌++◌, ◌∷◌, [], length};
ghost use Rattle.std.specs.Io.{WritesAtMost};
ghost use Rattle.devices.specs.Moved.{moved_so_far, failures_so_far, stops_so_far, flushes_so_far, since_so_far};
ghost use Rattle.devices.specs.Moves.{moved, failure_count, stops_after, since_after, since_flush};

use boxcar::tag::{Names, Tag};
use std::io;

/// The bytes that went through, and lists by whose lengths calls are counted.
#[derive(Drop)]
pub(crate) struct Moved {
    bytes: Tag,
    failed: Tag,
    stopped: Tag,
    flushed: Tag,
    since: Tag,
}

#[derive(Drop)]
struct More<'a> {
    before: &'a Tag,
    bytes: &'a [u8],
}

struct Then;

impl<'a> Names<More<'a>> for Then {
    ghost numbers = { λ m. m.before.now.numbers ++ m.bytes.now };
}

impl Names<Tag> for Then {
    ghost numbers = { λ t. 0 ∷ t.numbers };
}

/// The bytes before, and then these.
fn with_bytes(before: &Tag, bytes: &[u8]) -> Tag
    ensures { result.numbers ≡ before.now.numbers ++ bytes.now }
{
    Tag::of::<More, Then>(&More { before, bytes })
}

fn one_longer(before: &Tag) -> Tag
    ensures { length result.numbers ≡ length before.now.numbers + 1 }
{
    Tag::of::<Tag, Then>(before)
}

impl Moved {
    /// Nothing was done.
    pub(crate) fn new() -> Moved
        ensures moved { moved_so_far result ≡ [] }
        ensures failures { failures_so_far result ≡ 0 }
        ensures stops { stops_so_far result ≡ 0 }
        ensures flushes { flushes_so_far result ≡ 0 }
        ensures since { since_so_far result ≡ 0 }
    {
        Moved {
            bytes: Tag::empty(),
            failed: Tag::empty(),
            stopped: Tag::empty(),
            flushed: Tag::empty(),
            since: Tag::empty(),
        }
    }

    /// One call more, which moved bytes of `buf`, failed, or stopped.
    pub(crate) fn add(&mut self, call: &io::Result<usize>, buf: &[u8])
        requires { WritesAtMost call.now buf.now }
        ensures moved { moved_so_far self.new ≡ moved_so_far self.old ++ moved call.now buf.now }
        ensures failures { failures_so_far self.new ≡ failures_so_far self.old + failure_count call.now }
        ensures stops { stops_so_far self.new ≡ stops_after call.now (length buf.now) (stops_so_far self.old) }
        ensures flushes { flushes_so_far self.new ≡ flushes_so_far self.old }
        ensures since { since_so_far self.new ≡ since_after call.now (length buf.now) (since_so_far self.old) }
    {
        match *call {
            Ok(0) if !buf.is_empty() => {
                self.stopped = one_longer(&self.stopped);
                self.since = Tag::empty();
            }
            Ok(n) => {
                self.bytes = with_bytes(&self.bytes, &buf[..n]);
                self.since = one_longer(&self.since);
            }
            Err(_) => {
                self.failed = one_longer(&self.failed);
                self.since = Tag::empty();
            }
        }
    }

    /// One flush more.
    pub(crate) fn add_flush(&mut self, call: &io::Result<()>)
        ensures moved { moved_so_far self.new ≡ moved_so_far self.old }
        ensures failures { failures_so_far self.new ≡ failures_so_far self.old + failure_count call.now }
        ensures stops { stops_so_far self.new ≡ stops_so_far self.old }
        ensures flushes { flushes_so_far self.new ≡ flushes_so_far self.old + 1 }
        ensures since { since_so_far self.new ≡ since_flush call.now (since_so_far self.old) }
    {
        self.flushed = one_longer(&self.flushed);
        self.since = one_longer(&self.since);
        if call.is_err() {
            self.failed = one_longer(&self.failed);
            self.since = Tag::empty();
        }
    }
}

//! Entries as a trace keeps them.

ghost use Rattle.std.specs.Prelude.{◌≡◌, ◌==◌, ◌<◌, ◌++◌, ◌∷◌, [], List, Some, length, slice_get, string_bytes, option_map, IfOk, OnOk, OnErr, true};
ghost use Rattle.tuple_text.specs.FactRefs.{fact_value};
ghost use Rattle.tuple_text.specs.Refs.{set_value};
ghost use Rattle.trace_lines.specs.Issued.{version_value};
ghost use Rattle.trace_lines.specs.KeptEntries.{IsEntryIn, label_in, number_at, piece, recorded_in, zookie_in};
ghost use Rattle.trace_lines.specs.Recorded.{Recorded};
ghost use Rattle.trace_lines.specs.EntryViews.{entry_value};
ghost use Rattle.trace_lines.specs.Versions.{entry_version, is_version, version_of};
ghost use Rattle.version_chains.specs.Texts.{GoesOn, IsSpan};

use crate::entry::{Entry, EntryKind};
use crate::version_ref::VersionRef;
use std::alloc::{AllocError, Global};
use std::marker::Model;
use tuple_text::{FactRef, SetRef};
use version_chains::{Span, push_set, set_at};
use zookie::{TokenKind, Zookie};

/// Which zookie an entry has, but for its timestamp.
#[derive(Clone, Copy, Drop)]
pub(crate) enum ZookieShape {
    Absent,
    First,
    Write,
    Version,
    Read,
}

/// An entry as it is kept: places in the text of all, and numbers of 32 bits where no input of the greatest length has
/// more. Its line may be that of a log of many inputs. The fields stand so that no byte between them is lost.
#[derive(Clone, Copy, Drop)]
pub(crate) struct KeptEntry {
    user: u64,
    snapshot: u64,
    zookie_at: u64,
    line: u64,
    goal: Span,
    before: u32,
    // the place of the entry that issued the version which this one names, which counts from 1; 0 where there is none
    content: u32,
    label_at: u32,
    label_len: u32,
    has_label: bool,
    zookie: ZookieShape,
    kind: EntryKind,
    reply: bool,
}

/// Entries, and for each that names a version the entry that issued that. Their texts stand one behind the other in
/// one, so that an entry wants no memory of its own.
#[derive(Drop)]
pub(crate) struct Entries {
    text: String,
    kept: Vec<KeptEntry>,
}

impl Model for Entries {
    ghost use Rattle.std.specs.Prelude.{List, map, string_bytes};
    ghost use Rattle.trace_lines.specs.KeptEntries.{AreEntriesIn, recorded_in};
    ghost use Rattle.trace_lines.specs.Recorded.{Recorded};

    ghost Value = { List Recorded };

    ghost view = { λ e. map (recorded_in (string_bytes e.text)) e.kept.items };

    ghost invariant = { λ e. AreEntriesIn (string_bytes e.text) e.kept.items };
}

/// The number, where it has 32 bits. So has whatever there are fewer of than lines in an input.
fn small(number: u64) -> Result<u32, AllocError>
    ensures { IfOk result (λ n. n ≡ number) }
{
    if number <= u32::MAX as u64 {
        Ok(number as u32)
    } else {
        Err(AllocError)
    }
}

fn shape_of(zookie: Option<Zookie>) -> (ZookieShape, u64)
    ensures { zookie_in result.0 result.1 ≡ zookie }
{
    let Some(zookie) = zookie else {
        return (ZookieShape::Absent, 0);
    };
    let shape = match zookie.kind() {
        None => ZookieShape::First,
        Some(TokenKind::AclWrite) => ZookieShape::Write,
        Some(TokenKind::ContentVersion) => ZookieShape::Version,
        Some(TokenKind::ReadSnapshot) => ZookieShape::Read,
    };
    (shape, zookie.at())
}

fn zookie_in(shape: ZookieShape, at: u64) -> Option<Zookie>
    ensures { result ≡ zookie_in shape at }
{
    match shape {
        ZookieShape::Absent => None,
        ZookieShape::First => Some(Zookie::of(at)),
        ZookieShape::Write => Some(Zookie::of_kind(TokenKind::AclWrite, at)),
        ZookieShape::Version => Some(Zookie::of_kind(TokenKind::ContentVersion, at)),
        ZookieShape::Read => Some(Zookie::of_kind(TokenKind::ReadSnapshot, at)),
    }
}

fn label_in<'a>(text: &'a str, kept: &KeptEntry) -> Option<&'a str>
    requires { kept.now.has_label ≡ true → IsSpan text.now (piece kept.now.label_at kept.now.label_len) }
    ensures { option_map (λ s. s.now) result
        ≡ label_in text.now kept.now.has_label kept.now.label_at kept.now.label_len }
{
    if !kept.has_label {
        return None;
    }
    let at = kept.label_at as usize;
    Some(&text[at..at + kept.label_len as usize])
}

fn is_version(version: VersionRef<'_>, object: SetRef<'_>, label: Option<&str>) -> bool
    ensures { result ≡ is_version (version_value version.entry)
        (option_map (version_of (set_value object.entry)) (option_map (λ s. s.now) label.entry)) }
{
    match label {
        Some(label) => {
            version.object.namespace == object.namespace
                && version.object.id == object.id
                && version.label == label
        }
        None => false,
    }
}

/// The entry that is kept so.
fn read<'a>(text: &'a str, kept: &KeptEntry) -> Entry<'a>
    requires { IsEntryIn text.now kept.now }
    ensures { entry_value result ≡ (recorded_in text.now kept.now).entry }
{
    Entry {
        kind: kept.kind,
        reply: kept.reply,
        line: kept.line,
        goal: FactRef::from_parts(set_at(text, kept.goal), kept.user),
        snapshot: kept.snapshot,
        zookie: zookie_in(kept.zookie, kept.zookie_at),
        version: label_in(text, kept),
        before: kept.before as usize,
    }
}

/// Where a label stands, and whether there is one.
#[derive(Clone, Copy, Drop)]
struct Label {
    at: u32,
    len: u32,
    is_there: bool,
}

/// Adds a label at the end, where there is one.
fn push_label(text: &mut String, label: Option<&str>) -> Result<Label, AllocError>
    ensures goes_on { GoesOn (string_bytes text.old) (string_bytes text.new) }
    ensures span { IfOk result (λ l. l.is_there ≡ true → IsSpan (string_bytes text.new) (piece l.at l.len)) }
    ensures label { IfOk result (λ l. label_in (string_bytes text.new) l.is_there l.at l.len
        ≡ option_map (λ s. s.now) label.entry) }
{
    let Some(label) = label else {
        return Ok(Label {
            at: 0,
            len: 0,
            is_there: false,
        });
    };
    let at = small(text.len() as u64)?;
    let len = small(label.len() as u64)?;
    text.push_str(label)?;
    Ok(Label {
        at,
        len,
        is_there: true,
    })
}

/// The place of an entry's number, which counts from 1; 0 of none.
fn place_of(content: Option<usize>) -> Result<u32, AllocError>
    ensures { IfOk result (λ place. number_at place ≡ content) }
{
    match content {
        None => Ok(0),
        Some(number) => {
            let before = small(number as u64)?;
            before.checked_add(1).ok_or(AllocError)
        }
    }
}

/// Adds the texts of an entry at the end, and says how it is kept.
fn push_texts(
    text: &mut String,
    entry: &Entry<'_>,
    content: Option<usize>,
) -> Result<KeptEntry, AllocError>
    ensures goes_on { GoesOn (string_bytes text.old) (string_bytes text.new) }
    ensures is { IfOk result (IsEntryIn (string_bytes text.new)) }
    ensures kept { IfOk result (λ k. recorded_in (string_bytes text.new) k
        ≡ record { entry = entry_value entry.now; content = content }) }
{
    let before = small(entry.before as u64)?;
    let content = place_of(content)?;
    let goal = push_set(text, entry.goal.set())?;
    let label = push_label(text, entry.version)?;
    let (zookie, zookie_at) = shape_of(entry.zookie);
    Ok(KeptEntry {
        user: entry.goal.user(),
        snapshot: entry.snapshot,
        zookie_at,
        line: entry.line,
        goal,
        before,
        content,
        label_at: label.at,
        label_len: label.len,
        has_label: label.is_there,
        zookie,
        kind: entry.kind,
        reply: entry.reply,
    })
}

/// An entry with its texts.
#[derive(Drop)]
pub(crate) struct OwnedEntry {
    text: String,
    kept: KeptEntry,
}

impl Model for OwnedEntry {
    ghost use Rattle.std.specs.Prelude.{string_bytes};
    ghost use Rattle.trace_lines.specs.KeptEntries.{IsEntryIn, recorded_in};
    ghost use Rattle.trace_lines.specs.Values.{EntryValue};

    ghost Value = { EntryValue };

    ghost view = { λ e. (recorded_in (string_bytes e.text) e.kept).entry };

    ghost invariant = { λ e. IsEntryIn (string_bytes e.text) e.kept };
}

impl OwnedEntry {
    /// The entry, copied.
    pub(crate) fn of(alloc: Global, entry: &Entry<'_>) -> Result<OwnedEntry, AllocError>
        ensures { IfOk result (λ e. e ≡ entry_value entry.now) }
    {
        let mut text = String::new(alloc);
        let kept = push_texts(&mut text, entry, None)?;
        Ok(OwnedEntry { text, kept })
    }

    pub(crate) fn goal(&self) -> FactRef<'_>
        ensures { fact_value result ≡ self.now.goal }
    {
        FactRef::from_parts(set_at(&self.text, self.kept.goal), self.kept.user)
    }

    /// The entry, borrowed.
    pub(crate) fn as_entry(&self) -> Entry<'_>
        ensures { entry_value result ≡ self.now }
    {
        read(&self.text, &self.kept)
    }
}

impl Entries {
    pub(crate) fn new(alloc: Global) -> Entries
        ensures { result ≡ [] }
    {
        Entries {
            text: String::new(alloc),
            kept: Vec::new(alloc),
        }
    }

    pub(crate) fn len(&self) -> usize
        ensures { result ≡ length self.now }
    {
        self.kept.len()
    }

    pub(crate) fn is_empty(&self) -> bool
        ensures { result ≡ (length self.now == 0) }
    {
        self.kept.is_empty()
    }

    /// Entry `i`.
    pub(crate) fn entry(&self, i: usize) -> Entry<'_>
        requires { i < length self.now }
        ensures { (r : Recorded) → slice_get self.now i ≡ Some r → entry_value result ≡ r.entry }
    {
        read(&self.text, &self.kept[i])
    }

    /// The number of the entry that issued the version which entry `i` names.
    pub(crate) fn content(&self, i: usize) -> Option<usize>
        requires { i < length self.now }
        ensures { (r : Recorded) → slice_get self.now i ≡ Some r → result ≡ r.content }
    {
        match self.kept[i].content {
            0 => None,
            place => Some(place as usize - 1),
        }
    }

    /// Whether the version stands in entry `i`.
    pub(crate) fn has_version(&self, i: usize, version: VersionRef<'_>) -> bool
        requires { i < length self.now }
        ensures { (r : Recorded) → slice_get self.now i ≡ Some r
            → result ≡ is_version (version_value version.entry) (entry_version r.entry) }
    {
        let kept = &self.kept[i];
        is_version(
            version,
            set_at(&self.text, kept.goal),
            label_in(&self.text, kept),
        )
    }

    /// Puts an entry last, with the one that issued the version which it names. Where memory runs out, nothing changes.
    pub(crate) fn push(
        &mut self,
        entry: &Entry<'_>,
        content: Option<usize>,
    ) -> Result<(), AllocError>
        ensures ok { OnOk result (self.new
            ≡ self.old ++ record { entry = entry_value entry.now; content = content } ∷ []) }
        ensures err { OnErr result (self.new ≡ self.old) }
    {
        let kept = push_texts(&mut self.text, entry, content)?;
        self.kept.push(kept)?;
        Ok(())
    }

    /// Takes the last entry away, where there is one.
    pub(crate) fn pop(&mut self)
        ensures last { (rs : List Recorded) (r : Recorded) → self.old ≡ rs ++ r ∷ [] → self.new ≡ rs }
        ensures none { self.old ≡ [] → self.new ≡ [] }
    {
        self.kept.pop();
    }
}

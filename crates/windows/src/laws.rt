//! What a cut in time keeps. Each function computes nothing: what it ensures is the law.

ghost use Rattle.std.specs.Prelude.{◌≡◌, ℕ, ◌<◌, ◌≤◌, Bool, true, List, [], ◌∷◌, ◌++◌, length, map, All, Option, Some, Ok, option_map, slice_get, ◌↔◌};
ghost use Rattle.tuple_text.specs.Tuples.{TupleValue, FactValue};
ghost use Rattle.version_chains.specs.Commits.{Commit, store_at};
ghost use Rattle.json_lines.specs.Reading.{parts};
ghost use Rattle.trace_lines.specs.Traces.{trace_of};
ghost use Rattle.trace_lines.specs.Values.{TraceValue, EntryValue};
ghost use Rattle.token_order.specs.Found.{order_of};
ghost use Rattle.evidence_check.specs.Evidences.{steps_of};
ghost use Rattle.evidence_check.specs.Judged.{judged};
ghost use Rattle.evidence_check.specs.Members.{IsMemberAt};
ghost use Rattle.evidence_check.specs.Steps.{StepValue};
ghost use Rattle.findings.specs.Findings.{found_on, on_line, findings_from, findings_of};
ghost use Rattle.findings.specs.Headline.{IsRightAndFresh};
ghost use Rattle.findings.specs.NewEnemy.{HasNoNewEnemy};
ghost use Rattle.findings.specs.Parts.{findings_on_part_from};
ghost use Rattle.findings.specs.WellFormed.{IsWellFormed};
ghost use Rattle.findings.specs.WrongReplies.{HasOnlyWrongRepliesNamed};
ghost use Rattle.windows.specs.Alike.{AreSameTuples, IsSameAt, AsksTheSame};
ghost use Rattle.windows.specs.Compaction.{AreRising, above, up_to, StandsFor, snapshot_commit};
ghost use Rattle.windows.specs.Cuts.{lines_between, window_of};
ghost use Rattle.windows.specs.Growth.{GoesOn, HasRisingLines, IsSettled, Stands};
ghost use Rattle.windows.specs.Merged.{of_part, merged};
ghost use Rattle.windows.specs.Nearest.{commit_before, commit_behind, content_entry, order_by};
ghost use Rattle.windows.specs.Together.{Window, told, told_of_part, IsShown, ShowAll, all_told};
ghost use Rattle.windows.specs.Windows.{IsWindow, IsWithin, IsCopy, NamesTheSame, Carries, relined, IsSeenClean};

use findings::laws::{right_and_fresh_without_findings, wrong_replies_are_wrong};
use trace_lines::Trace;
use trace_lines::laws::{commits_of_bytes, entries_of_bytes_rise, entries_rise};

/// A changelog whose commits up to a timestamp are replaced by others, which store the same there, stores the same
/// from there on, up to where it ends.
pub fn compaction()
    ensures { (commits : List Commit) (b h : ℕ) → AreRising commits → (front : List Commit) → StandsFor front b commits
        → (s : ℕ) → b ≤ s → s ≤ h
        → AreSameTuples (store_at (front ++ above b (up_to h commits)) s) (store_at commits s) }
{}

/// One commit that adds what is stored at a timestamp stands for all commits up to there.
pub fn snapshot_stands()
    ensures { (commits : List Commit) (b : ℕ) (ts : List TupleValue) → AreSameTuples ts (store_at commits b)
        → StandsFor (snapshot_commit b ts ∷ []) b commits }
{}

/// Who is a member at a timestamp rests on the rules in force and the tuples stored there, and on nothing else of a
/// trace.
pub fn same_members()
    ensures { (s : ℕ) (t u : TraceValue) → IsSameAt s t u → (f : FactValue) → (IsMemberAt t s f ↔ IsMemberAt u s f) }
{}

/// So does the judgement of an entry by given steps.
pub fn same_judgement()
    ensures { (t u : TraceValue) (d e : EntryValue) → IsSameAt d.snapshot t u → AsksTheSame d e
        → (steps : Option (List StepValue)) → judged t d steps ≡ judged u e steps }
{}

/// What is found on the tokens of an entry rests on the entry, on the content check that it names, on the last commit
/// before it and on the first behind it.
pub fn order_by_nearest()
    ensures { (t : TraceValue) (i : ℕ) (e : EntryValue) → AreRising t.commits → slice_get t.entries i ≡ Some e
        → order_of t i e ≡ order_by e (content_entry t i) (commit_before t e) (commit_behind t e) }
{}

/// A window says what the whole says at each timestamp that it knows; so `same_members` holds there.
pub fn same_in_window()
    ensures { (g : ℕ → ℕ) (n b h : ℕ) (t w : TraceValue) → IsWindow g n b h t w → AreRising t.commits
        → (s : ℕ) → b ≤ s → s ≤ h → IsSameAt s t w }
{}

/// A reply is right in a window where it is right in the whole.
pub fn same_replies()
    ensures { (g : ℕ → ℕ) (n b h : ℕ) (t w : TraceValue) → IsWindow g n b h t w → AreRising t.commits
        → (e d : EntryValue) → IsCopy g e d → b ≤ e.snapshot → e.snapshot ≤ h
        → (IsMemberAt t e.snapshot e.goal ↔ IsMemberAt w d.snapshot d.goal) }
{}

/// What is found on an entry of a window is what is found on it in the whole, on the whole's lines, where the window
/// has what judges the entry and the content check that it names.
pub fn found_in_window()
    ensures { (g : ℕ → ℕ) (n b h : ℕ) (t w : TraceValue) → IsWindow g n b h t w → AreRising t.commits
        → AreRising w.commits
        → (i j : ℕ) (e d : EntryValue) → slice_get t.entries i ≡ Some e → slice_get w.entries j ≡ Some d
        → IsCopy g e d → n ≤ d.line → IsWithin b h t e → NamesTheSame g t i w j
        → (evidence own : List (Option (List StepValue))) → steps_of own j ≡ steps_of evidence i
        → map (option_map (relined g)) (found_on w own j d) ≡ found_on t evidence i e }
{}

/// A cut that keeps all lines where they are is a window.
pub fn cut_is_window()
    ensures { (b h n : ℕ) (t : TraceValue) (front : List Commit) (front_lines : List ℕ) (entries : List EntryValue)
        → StandsFor front b t.commits → length front_lines ≡ length front
        → All (λ l. l < n) front_lines → All (λ l. n ≤ l) (lines_between b h t)
        → IsWindow (λ l. l) n b h t (window_of b h front front_lines entries t) }
{}

/// A whole trace is a window of itself, where timestamps b and h enclose all its commits: what is clean on an entry
/// is seen clean.
pub fn whole_is_window()
    ensures { (b h : ℕ) (t : TraceValue) → AreRising t.commits
        → All (λ c. b < c.at) t.commits → All (λ c. c.at ≤ h) t.commits
        → (i : ℕ) (e : EntryValue) → slice_get t.entries i ≡ Some e → b ≤ e.snapshot → e.snapshot ≤ h
        → (evidence : List (Option (List StepValue))) → on_line e.line (found_on t evidence i e) ≡ []
        → IsSeenClean t i e }
{}

/// Where some commits stand for a window's up to a timestamp, they stand for the whole's, so that each window gives
/// the next its front.
pub fn handed_on()
    ensures { (g : ℕ → ℕ) (n b h : ℕ) (t w : TraceValue) → IsWindow g n b h t w → AreRising t.commits
        → (c : ℕ) → b ≤ c → c ≤ h
        → (front : List Commit) → StandsFor front c w.commits → StandsFor front c t.commits }
{}

/// A window into which the content checks are carried that its entries name, names what the whole names.
pub fn carried_names()
    ensures { (g : ℕ → ℕ) (t w : TraceValue) (i j : ℕ) (e d : EntryValue)
        → slice_get t.entries i ≡ Some e → slice_get w.entries j ≡ Some d
        → IsCopy g e d → Carries g t i e w j → NamesTheSame g t i w j }
{}

/// What is told of a window is what is found in the whole on the entries that the window shows, on the whole's lines.
pub fn findings_of_window()
    ensures { (t : TraceValue) → AreRising t.commits → (evidence : List (Option (List StepValue)))
        (before seen after : List EntryValue) → t.entries ≡ before ++ (seen ++ after)
        → (w : Window) → IsShown t evidence before seen w → told w ≡ findings_from t evidence (length before) seen }
{}

/// A window may be cut by object: what is told of its part with the entries of some objects is what is found in the
/// whole on those of the entries that the window shows.
pub fn findings_of_part_of_window()
    ensures { (t : TraceValue) → AreRising t.commits → (evidence : List (Option (List StepValue)))
        (before seen after : List EntryValue) → t.entries ≡ before ++ (seen ++ after)
        → (w : Window) → IsShown t evidence before seen w → (objects : List ℕ → List ℕ → Bool)
        → told_of_part objects w ≡ findings_on_part_from objects t evidence (length before) seen }
{}

/// Windows that show all entries of a trace, one behind the other, tell together what is found in the whole, no more
/// and no less.
pub fn findings_of_windows()
    ensures { (t : TraceValue) → AreRising t.commits → (evidence : List (Option (List StepValue)))
        (ws : List Window) → ShowAll t evidence ws → all_told ws ≡ findings_of t evidence }
{}

/// Where windows show a whole trace and nothing is told of any, whoever made the evidence, each reply of the whole is
/// what the rules mean, and no check is older than its zookie or than its version's content check.
pub fn right_and_fresh_by_windows(trace: &Trace)
    ensures { (evidence : List (Option (List StepValue))) (ws : List Window) → ShowAll trace.now evidence ws
        → all_told ws ≡ [] → IsRightAndFresh trace.now }
{
    let _ = trace.chains().commits();
    right_and_fresh_without_findings(trace);
}

/// The same of a trace as a value, of which no bytes are asked for: so the whole may be longer than an input may be.
/// And each check of a version saw all changes before that version's content check.
pub fn right_and_fresh_of_windows()
    ensures { (t : TraceValue) → IsWellFormed t → AreRising t.commits → (evidence : List (Option (List StepValue)))
        (ws : List Window) → ShowAll t evidence ws → all_told ws ≡ [] → IsRightAndFresh t × HasNoNewEnemy t }
{}

/// Whatever is told of windows that show a whole trace: a reply that a finding F10 calls wrong is wrong.
pub fn wrong_replies_by_windows(trace: &Trace)
    ensures { (evidence : List (Option (List StepValue))) (ws : List Window) → ShowAll trace.now evidence ws
        → HasOnlyWrongRepliesNamed trace.now (all_told ws) }
{
    let _ = trace.chains().commits();
    wrong_replies_are_wrong(trace);
}

/// Where each entry of a trace is seen in some window, however the windows were cut, and nothing is found on it
/// there, whoever made the evidence, each reply of the whole is what the rules mean, and no check is older than its
/// zookie or than its version's content check.
pub fn right_and_fresh_in_windows(trace: &Trace)
    ensures { ((i : ℕ) (e : EntryValue) → slice_get trace.now.entries i ≡ Some e → IsSeenClean trace.now i e)
        → IsRightAndFresh trace.now }
{
    let _ = trace.chains().commits();
    right_and_fresh_without_findings(trace);
}

/// A log that grows: where bytes that end in a newline are followed by others and say a trace together, they say one
/// alone, which is the beginning of it. What was found on its entries stands: the same on their tokens, but for an
/// open snapshot; and the same judgement by the same steps, where no commit that came later is at or below the
/// entry's snapshot.
pub fn grown_log()
    ensures { (a b : List ℕ) (t : TraceValue) → trace_of true ((a ++ 10 ∷ []) ++ b) ≡ Ok t
        → (u : TraceValue) × (trace_of true (a ++ 10 ∷ []) ≡ Ok u)
        × (goes : GoesOn (length (parts a)) u t) × Stands u t goes }
{
    commits_of_bytes();
    entries_of_bytes_rise();
}

/// What is found on an entry that is settled stays: in each longer log the same ten findings are found on it, by the
/// same steps. An entry is settled once a commit at or above its snapshot stands in the log, on whatever line.
pub fn settled_stays()
    ensures { (k : ℕ) (t u : TraceValue) → GoesOn k t u → HasRisingLines t → HasRisingLines u
        → (i : ℕ) (e : EntryValue) → slice_get t.entries i ≡ Some e → IsSettled t e
        → (evidence more : List (Option (List StepValue))) → steps_of more i ≡ steps_of evidence i
        → found_on u more i e ≡ found_on t evidence i e }
{}

/// The same of bytes: whatever is appended to lines that came whole, so that all together is a trace.
pub fn settled_stays_in_bytes()
    ensures { (a b : List ℕ) (u : TraceValue) → trace_of true ((a ++ 10 ∷ []) ++ b) ≡ Ok u
        → (t : TraceValue) × (trace_of true (a ++ 10 ∷ []) ≡ Ok t)
        × ((i : ℕ) (e : EntryValue) → slice_get t.entries i ≡ Some e → IsSettled t e
        → (evidence more : List (Option (List StepValue))) → steps_of more i ≡ steps_of evidence i
        → (slice_get u.entries i ≡ Some e) × (found_on u more i e ≡ found_on t evidence i e)) }
{
    commits_of_bytes();
    entries_of_bytes_rise();
}

/// The report of a whole is the merge of its parts' by line: entry by entry, what is found on its line in the part of
/// its object, however the objects were dealt to parts.
pub fn merged_by_line(trace: &Trace)
    ensures { (part : List ℕ → List ℕ → ℕ) (evidence : List (Option (List StepValue)))
        → findings_of trace.now evidence ≡ merged part (of_part part trace.now evidence) trace.now.entries }
{
    entries_rise(trace);
}

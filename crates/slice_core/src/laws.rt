//! Laws of the machine, which compute nothing.
ghost use Rattle.std.specs.Prelude.{◌≡◌, ◌<◌, ◌==◌, ℕ, List, if◌then◌else◌};
ghost use Rattle.slice_core.specs.declared.machine.Event.{Event};
ghost use Rattle.slice_core.specs.Places.{State, weight, run, Drains, start_state};
ghost use Rattle.slice_core.specs.Runs.{IsOneRun};

/// After every list of events each slice number stands in just one place, once.
pub fn each_once()
    ensures { (slices lanes workers : ℕ) (events : List Event) (k : ℕ) → 0 < lanes → k < slices
        → weight (λ j. if j == k then 1 else 0) (run (start_state slices lanes workers) events) ≡ 1 }
{}

/// After every list of events the slices that stand anywhere are those that were there before.
pub fn none_lost()
    ensures { (h : ℕ → ℕ) (s : State) (events : List Event) → weight h (run s events) ≡ weight h s }
{}

/// What has left a lane is the front of it.
pub fn in_order()
    ensures { (s : State) (events : List Event) → Drains s (run s events) }
{}

/// The runs of the lanes, one after another, are one run.
pub fn one_run()
    ensures { IsOneRun }
{}

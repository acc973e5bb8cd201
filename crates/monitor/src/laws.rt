//! What holds of a monitor. Each function computes nothing: what it ensures is the law.

ghost use Rattle.std.specs.Prelude.{ℕ};
ghost use Rattle.trace_lines.specs.Placed.{AreInPlace};
ghost use Rattle.trace_lines.specs.Values.{TraceValue};
ghost use Rattle.windows.specs.Growth.{GoesOn};
ghost use Rattle.monitor.specs.Standing.{Stands};
ghost use Rattle.monitor.specs.declared.monitor.Monitor.{Monitor};

/// Where a monitor stands in a log so far, it stands in each longer one: so it goes on there when more lines have come.
pub fn stands_on()
    ensures { (k : ℕ) (t u : TraceValue) → GoesOn k t u → AreInPlace t → AreInPlace u
        → (m : Monitor) → Stands t m → Stands u m }
{}

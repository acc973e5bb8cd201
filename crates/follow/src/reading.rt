//! The lines of a run, as they are read.

ghost use Rattle.std.specs.Prelude.{◌+◌, ◌≤◌};
ghost use Rattle.json_lines.specs.declared.reading.TheConstants.{MAX_INPUT};
ghost use Rattle.runs.specs.Kept.{next_kept};
ghost use Rattle.follow.specs.Reading.{TakesLine};

use audit::AuditFault;
use devices::Source;
use json_lines::LineReader;
use runs::KeptLog;
use trace_lines::TraceFault;

/// Takes the next line of a run, and says whether a further one follows. The reader is asked for more only where no
/// whole line is at hand. It is refused as [`audit_made`](audit::audit_made) refuses a trace, by the line of the run.
pub(crate) fn take_line<R: Source>(
    lines: &mut LineReader,
    reader: &mut R,
    log: &mut KeptLog,
) -> Result<bool, AuditFault>
    requires next { next_kept log.old ≤ lines.old.number }
    requires room { lines.old.number + lines.old.room ≤ MAX_INPUT + 1 }
    ensures { TakesLine R.given R.ends R.failures R.remaining reader.old reader.new log.old log.new
        lines.old lines.new result }
{
    match lines.take_next(reader, log) {
        Ok(more) => Ok(more),
        Err(fault) => Err(AuditFault::from(TraceFault {
            line: fault.line,
            cause: fault.cause(),
        })),
    }
}

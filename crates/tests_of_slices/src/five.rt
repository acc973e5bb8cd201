//! Five checks, of which two find something.

ghost use Rattle.std.specs.Prelude.{◌≡◌, ◌==◌, if◌then◌else◌};

use audit_slices::{Board, Check, Names};
use std::alloc::AllocError;

/// Five checks: of the first there is no evidence, finding 7, and that of the last is silent, finding 9. Entries after
/// them have no finding. Each finding raises an alert.
pub(crate) struct FiveChecks;

impl Check for FiveChecks {
    type Report = Option<u8>;

    ghost use Rattle.std.specs.Prelude.{◌≡◌, ◌==◌, Some, None, if◌then◌else◌, is_some};

    ghost entries = { λ _. 1000 };

    ghost gives = { λ _ entry report. report ≡ (if entry == 0 then Some 7 else (if entry == 4 then Some 9 else None)) };

    ghost raises = { λ _ report. is_some report };

    ghost use Rattle.std.proofs.Common.{rules};

    ghost entries_fit = { Prim.search rules };

    fn check(&self, entry: usize) -> Result<Option<u8>, AllocError> {
        Ok(finding(entry))
    }

    fn alerts(&self, report: &Option<u8>) -> bool {
        report.is_some()
    }
}

pub(crate) struct FiveNamed;

impl Names<Option<u8>> for FiveNamed {
    ghost use Rattle.std.specs.Prelude.{◌≡◌, ◌==◌, Some, None, if◌then◌else◌, is_some};

    ghost gives = { λ entry report. report ≡ (if entry == 0 then Some 7 else (if entry == 4 then Some 9 else None)) };

    ghost alerts = { λ report. is_some report };
}

pub(crate) type FiveBoard = Board<Option<u8>, FiveNamed>;

pub(crate) fn finding(entry: usize) -> Option<u8>
    ensures { result ≡ (if entry == 0 then Some 7 else (if entry == 4 then Some 9 else None)) }
{
    if entry == 0 {
        return Some(7);
    }
    if entry == 4 {
        return Some(9);
    }
    None
}

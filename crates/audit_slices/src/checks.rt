//! What a check of an entry gives, of entries in a row, and of a slice.
ghost use Rattle.std.specs.Prelude.{◌≡◌, ◌+◌, ◌<◌, ◌≤◌, ◌^◌, ℕ, Bool, IfOk, IfErr};
ghost use Rattle.std.specs.List.{AllZip, range_with_len};
ghost use Rattle.slice_yard.specs.Cut.{slice_number, IsWithin};
ghost use Rattle.audit_slices.specs.Reports.{report_slice, report_items, IsReported};

use slice_yard::Slice;
use std::alloc::{AllocError, Global};

/// It gives each of its entries a report, and says which reports raise an alert.
pub trait Check {
    type Report;

    // How many entries it covers.
    ghost entries: { Self → ℕ };

    // Whether it may give an entry this report.
    ghost gives: { Self → ℕ → Self.Report → Type 0 };

    // Whether a report raises an alert.
    ghost raises: { Self → Self.Report → Bool };

    /// A report of the entry. Refused only where memory runs out.
    fn check(&self, entry: usize) -> Result<Self::Report, AllocError>
        requires { entry < entries self.now }
        ensures { IfOk result (gives self.now entry) };

    /// A report of each of `count` entries in a row, in order. Refused only where memory runs out.
    ///
    /// An implementation may keep between them what it needs for several.
    fn check_run(
        &self,
        alloc: Global,
        from: usize,
        count: usize,
    ) -> Result<Vec<Self::Report>, AllocError>
    where
        Self::Report: Drop,
        requires { from + count ≤ entries self.now }
        ensures { IfOk result (λ v. AllZip (gives self.now) (range_with_len from count) v.items) }
    {
        let mut reports = Vec::new(alloc);
        // bounded by the entries of a slice, where a pool calls it
        for k in 0..count {
            reports.push(self.check(from + k)?)?;
        }
        Ok(reports)
    }

    /// Whether the report raises an alert.
    fn alerts(&self, report: &Self::Report) -> bool
        ensures { result ≡ raises self.now report.now };

    // They are numbered by a usize.
    ghost entries_fit: { (c : Self) → entries c < 2 ^ 64 };
}

/// A worker calls it between taking a slice and checking it.
pub trait Gate {
    fn before(&self, worker: usize, slice: usize);
}

/// It does nothing.
#[derive(Drop)]
pub struct Free;

impl Gate for Free {
    fn before(&self, _worker: usize, _slice: usize) {}
}

/// The reports of a slice.
#[derive(Drop)]
pub struct SliceReport<X> {
    pub(crate) slice: Slice,
    pub(crate) reports: Vec<X>,
}

impl<X> SliceReport<X> {
    /// The number of its slice.
    pub fn number(&self) -> usize
        ensures { result ≡ slice_number (report_slice self.now) }
    {
        self.slice.number()
    }

    /// The reports of the slice's entries, in order.
    pub fn reports(&self) -> &[X]
        ensures { result.now ≡ report_items self.now }
    {
        self.reports.as_slice()
    }
}

/// Reports of the slice's entries, in order, or the slice back where memory ran out.
pub fn check_slice<C: Check>(
    alloc: Global,
    check: &C,
    slice: Slice,
) -> Result<SliceReport<C::Report>, Slice>
where
    C::Report: Drop,
    requires { IsWithin (C.entries check.now) slice }
    ensures slice { IfOk result (λ r. report_slice r ≡ slice) }
    ensures reports { IfOk result (IsReported (C.gives check.now)) }
    ensures back { IfErr result (λ s. s ≡ slice) }
{
    match check.check_run(alloc, slice.first(), slice.len()) {
        Ok(reports) => Ok(SliceReport { slice, reports }),
        Err(_) => Err(slice),
    }
}

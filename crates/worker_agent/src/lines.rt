//! The paths of requests.

ghost use Rattle.std.specs.Prelude.{◌≡◌};
ghost use Rattle.worker_agent.specs.Requests.{lease_path, report_end, runs_path};

pub(crate) fn lease_path<'p>() -> &'p [u8]
    ensures { result.now ≡ lease_path }
{
    b"/v1/leases"
}

/// The path of a report, up to the number of its run.
pub(crate) fn runs_path<'p>() -> &'p [u8]
    ensures { result.now ≡ runs_path }
{
    b"/v1/runs/"
}

/// The path of a report, behind the number of its run.
pub(crate) fn report_end<'p>() -> &'p [u8]
    ensures { result.now ≡ report_end }
{
    b"/report"
}

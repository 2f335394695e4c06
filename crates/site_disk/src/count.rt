//! Counts of failures.

ghost use Rattle.std.specs.Prelude.{◌≡◌, IsErr, MatchResult};
ghost use Rattle.site_disk.specs.Model.{CountsFailure};

use crate::DiskFailed;

/// The result of a device call, whose failure is counted. At its last value the count stays.
pub(crate) fn counted<T: Drop, E: Drop>(
    answer: Result<T, E>,
    failures: &mut u64,
) -> Result<T, DiskFailed>
    ensures same { MatchResult answer (λ x. result ≡ Ok x) (λ _. IsErr result) }
    ensures cause { CountsFailure result failures.old failures.new }
{
    match answer {
        Ok(x) => Ok(x),
        Err(_) => {
            *failures = failures.saturating_add(1);
            Err(DiskFailed)
        }
    }
}

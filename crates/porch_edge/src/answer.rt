//! What a call answers by what the system answered.
ghost use Rattle.std.specs.Prelude.{◌≡◌, IsErr, MatchResult};
ghost use Rattle.porch_edge.specs.Causes.{HasCause, faults_after};

use crate::Failed;
use std::io;

/// What the system gave, or `Failed` and one more fault, up to the last value.
pub(crate) fn answer<T>(faults: &mut u64, given: io::Result<T>) -> Result<T, Failed>
    ensures same { MatchResult given (λ x. result ≡ Ok x) (λ _. IsErr result) }
    ensures cause { HasCause faults.old faults.new result }
    ensures counted { faults.new ≡ faults_after faults.old result }
{
    match given {
        Ok(x) => Ok(x),
        Err(_) => refuse(faults),
    }
}

/// `Failed`, and one more fault, up to the last value.
pub(crate) fn refuse<T>(faults: &mut u64) -> Result<T, Failed>
    ensures failed { IsErr result }
    ensures cause { HasCause faults.old faults.new result }
    ensures counted { faults.new ≡ faults_after faults.old result }
{
    *faults = faults.saturating_add(1);
    Err(Failed)
}

// Errors of the system as faults.
ghost use Rattle.station_api.specs.Causes.{HasCause};
ghost use Rattle.station_real.specs.Real.{real_counts, SameValue};

use station_api::Failed;
use std::io;

/// Answers an error as a fault, and counts it.
pub fn counted<T>(faults: &mut u64, answer: io::Result<T>) -> Result<T, Failed>
    ensures cause { HasCause (real_counts faults.old) (real_counts faults.new) result }
    ensures value { SameValue answer result }
{
    match answer {
        Ok(value) => Ok(value),
        Err(_) => {
            *faults = faults.saturating_add(1);
            Err(Failed)
        }
    }
}

//! The part of a state key that says how many operations the processes have begun.
ghost use Rattle.std.specs.Prelude.{◌≡◌, ◌++◌, OnOk};

use std::alloc::AllocError;

/// Appends how many operations each process has begun.
pub fn push_counts(key: &mut Vec<u64>, counts: &[usize]) -> Result<(), AllocError>
    ensures { OnOk result (key.new.items ≡ key.old.items ++ counts.now) }
{
    for count in counts {
        key.push(*count as u64)?;
    }
    Ok(())
}

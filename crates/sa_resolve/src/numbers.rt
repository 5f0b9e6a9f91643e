ghost use Rattle.std.specs.Prelude.{◌≡◌, IfOk};

use sa_value::OutOfMemory;

/// A position as a tree holds it. So many tables, columns, items or slots that it can't be are more
/// than memory holds.
pub(crate) fn small(position: usize) -> Result<u32, OutOfMemory>
    ensures { IfOk result (λ number. number ≡ position) }
{
    match u32::try_from(position) {
        Ok(number) => Ok(number),
        Err(_) => Err(OutOfMemory),
    }
}

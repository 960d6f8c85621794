//! What stands under names, where the first of a name counts.

ghost use Rattle.std.specs.Prelude.{◌≡◌, OnOk, if◌then◌else◌, bytes_eq, Some, None};
ghost use Rattle.ecd_cast.specs.Memory.{Name};
ghost use Rattle.ecd_cast.specs.ByName.{under};
ghost use Rattle.ecd_cscope.specs.Surroundings.{or_first};

use ecd_list::OutOfMemory;
use std::alloc::Global;
use std::collections::BTreeMap;

/// Puts a value under a name that has none.
pub(crate) fn put_first<T: Drop>(
    alloc: Global,
    values: &mut BTreeMap<Vec<u8>, T>,
    name: &[u8],
    value: T,
) -> Result<(), OutOfMemory>
    ensures { OnOk result ((x : Name) → under values.new x ≡ or_first (under values.old x) (if bytes_eq name.now x then Some value else None)) }
{
    if !values.contains_key(name) {
        let key = Vec::from_slice(alloc, name)?;
        match values.insert(key, value) {
            Ok(_) => {}
            Err(_) => return Err(OutOfMemory),
        }
    }
    Ok(())
}

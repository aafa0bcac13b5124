ghost use Rattle.std.specs.Prelude.{◌≡◌, ◌<◌, length, true, IfOk, nat_lt};
ghost use Rattle.std.specs.List.{list_all};
ghost use Rattle.meaning.specs.Order.{IsOrder};

use crate::walk::Walk;
use scheme_data::{List, OutOfMemory};
use std::alloc::Global;

/// The numbers of the modules that are reached from a module, in the order in which they are initialised: depth first, each after those that it imports but for cycles. `imports` has for each module the numbers of those that it imports, in clause order (Bigloo manual, modules).
pub fn initialization_order(
    alloc: Global,
    imports: &List<List<usize>>,
    root: usize,
) -> Result<List<usize>, OutOfMemory>
    requires within { list_all (λ ns. list_all (λ n. nat_lt n (length imports.now)) ns) imports.now ≡ true }
    requires root_is_one { root < length imports.now }
    ensures { IfOk result (λ order. IsOrder imports.now root order) }
{
    let imports = imports.as_slice();
    let mut walk = Walk::new(alloc, imports.len(), root)?;
    while let Some(task) = walk.next() {
        walk.follow(imports, task)?;
    }
    Ok(walk.into_order())
}

//! What several runs make, once more if memory ran out.
ghost use Rattle.std.specs.Prelude.{◌≡◌, [], IfOk};

use crate::again::again;
use anyhow::Result;
use kern_core::call::Call;
use kern_core::kernel::Kernel;
use kern_desk::desks::MOST_ENTRIES;
use kern_test_kit::actions::{Action, call_of};
use std::alloc::Global;

/// A new kernel.
pub fn new_kernel(rt: &impl Print, alloc: Global) -> Result<Kernel>
    ensures { IfOk result (λ kernel. kernel.entries ≡ []) }
{
    Ok(again!(rt, "Kernel::new", Kernel::new(alloc, MOST_ENTRIES)))
}

/// The call of an action.
pub fn new_call(rt: &impl Print, alloc: Global, action: Action, unix_seconds: u64) -> Result<Call> {
    Ok(again!(rt, "a call's parts", call_of(alloc, action, unix_seconds)))
}

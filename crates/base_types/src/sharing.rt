// Values with several owners.
ghost use Rattle.std.specs.Prelude.{◌≡◌, IfOk};

use crate::collections::NoMemory;
use std::alloc::Global;
use std::rc::Rc;

/// Shares a value.
pub fn shared<T: Drop>(alloc: Global, value: T) -> Result<Rc<T>, NoMemory>
    ensures { IfOk result (λ one. one.value ≡ value) }
{
    match Rc::new(alloc, value) {
        Ok(one) => Ok(one),
        Err(_) => Err(NoMemory),
    }
}

/// The same value, for one more owner.
pub fn another_owner<T: Drop>(value: &Rc<T>) -> Result<Rc<T>, NoMemory>
    ensures { IfOk result (λ more. more.value ≡ value.now.value) }
{
    match value.clone() {
        Ok(more) => Ok(more),
        Err(_) => Err(NoMemory),
    }
}

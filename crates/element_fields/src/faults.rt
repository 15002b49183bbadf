// Faults that name their place.
ghost use Rattle.std.specs.Prelude.{◌≡◌, Some, IfOk};
ghost use Rattle.element_fields.specs.Answers.{Tells};
ghost use Rattle.file_faults.specs.declared.outline.FileFault.TheVariants as fault;

use base_types::{Name, NoMemory};
use std::alloc::Global;
use tag_outline::FileFault;

// The two names of a place, as texts of their own.
fn place(alloc: Global, element: &str, name: &str) -> Result<(Name, Name), NoMemory>
    ensures { IfOk result (λ p. p ≡ (element.now, name.now)) }
{
    Ok((Name::of(alloc, element)?, Name::of(alloc, name)?))
}

/// What an element must have is absent.
pub fn missing(alloc: Global, element: &str, name: &str) -> FileFault
    ensures { Tells result (Some (fault.Missing element.now name.now)) }
{
    match place(alloc, element, name) {
        Ok((element, name)) => FileFault::Missing { element, name },
        Err(_) => FileFault::NoMemory,
    }
}

/// A name or a number that isn't one.
pub fn bad_value(alloc: Global, element: &str, name: &str) -> FileFault
    ensures { Tells result (Some (fault.BadValue element.now name.now)) }
{
    match place(alloc, element, name) {
        Ok((element, name)) => FileFault::BadValue { element, name },
        Err(_) => FileFault::NoMemory,
    }
}

/// A unit that isn't one of the quantity's sort.
pub fn bad_unit(alloc: Global, element: &str, name: &str) -> FileFault
    ensures { Tells result (Some (fault.BadUnit element.now name.now)) }
{
    match place(alloc, element, name) {
        Ok((element, name)) => FileFault::BadUnit { element, name },
        Err(_) => FileFault::NoMemory,
    }
}

/// A value outside its limits.
pub fn too_large(alloc: Global, element: &str, name: &str) -> FileFault
    ensures { Tells result (Some (fault.TooLarge element.now name.now)) }
{
    match place(alloc, element, name) {
        Ok((element, name)) => FileFault::TooLarge { element, name },
        Err(_) => FileFault::NoMemory,
    }
}

/// A word that isn't one of those that may stand there.
pub fn bad_word(alloc: Global, element: &str, name: &str) -> FileFault
    ensures { Tells result (Some (fault.BadWord element.now name.now)) }
{
    match place(alloc, element, name) {
        Ok((element, name)) => FileFault::BadWord { element, name },
        Err(_) => FileFault::NoMemory,
    }
}

/// An attribute that may not stand there.
pub fn unknown_attribute(alloc: Global, element: &str, name: &str) -> FileFault
    ensures { Tells result (Some (fault.UnknownAttribute element.now name.now)) }
{
    match place(alloc, element, name) {
        Ok((element, name)) => FileFault::UnknownAttribute { element, name },
        Err(_) => FileFault::NoMemory,
    }
}

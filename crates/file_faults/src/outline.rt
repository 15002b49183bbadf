// Why bytes have no outline, and a file no rows.
ghost use Rattle.std.specs.Prelude.{◌≡◌};
ghost use Rattle.file_faults.specs.Held.{held};
ghost use Rattle.file_faults.specs.declared.outline.FileFault.TheVariants as file_fault;
ghost use Rattle.file_faults.specs.declared.outline.OutlineFault.TheVariants as outline_fault;

use base_types::{Name, NoMemory};

/// Why bytes have no outline. A place is that of a byte, from 0.
#[derive(Clone, Copy, Debug, PartialEq, Eq)]
pub enum OutlineFault {
    /// The bytes aren't UTF-8; the place is the length of the longest front that is.
    NotUtf8 { at: u64 },
    /// What stands at this place may not stand there, or an end tag or the root is missing and the
    /// place is the length of the file.
    NotOutline { at: u64 },
    /// A document type stands at this place.
    Doctype { at: u64 },
    /// A section of unparsed text stands at this place.
    Cdata { at: u64 },
    /// A start tag within 64 open elements stands at this place.
    TooDeep { at: u64 },
    /// Memory could not be had.
    NoMemory,
}

/// Why a network, scenario or decision file has no rows.
///
/// Where a variant names a place, `element` is the id of the element, or its word where it has no
/// good id, and `name` the attribute, the quantity or the child that is at fault.
#[derive(Debug, Drop)]
pub enum FileFault {
    /// The bytes have no outline. This fault is never its `NoMemory`.
    Outline(OutlineFault),
    /// The root has another word than the file's.
    WrongRoot,
    /// A child, an attribute, or the value or unit of a quantity is absent.
    Missing { element: Name, name: Name },
    /// An id that isn't one, or a value that isn't a decimal or has too many digits.
    BadValue { element: Name, name: Name },
    /// The unit isn't one of the quantity's sort.
    BadUnit { element: Name, name: Name },
    /// The rounded value lies outside its limits.
    TooLarge { element: Name, name: Name },
    /// A word that isn't one of those that may stand there.
    BadWord { element: Name, name: Name },
    /// An attribute that may not stand there.
    UnknownAttribute { element: Name, name: Name },
    /// Memory could not be had.
    NoMemory,
}

impl From<NoMemory> for OutlineFault {
    ghost from_gives = { λ _ e. e ≡ outline_fault.NoMemory };

    fn from(_e: NoMemory) -> OutlineFault {
        OutlineFault::NoMemory
    }
}

impl From<NoMemory> for FileFault {
    ghost from_gives = { λ _ e. e ≡ file_fault.NoMemory };

    fn from(_e: NoMemory) -> FileFault {
        FileFault::NoMemory
    }
}

impl From<OutlineFault> for FileFault {
    ghost from_gives = { λ o e. e ≡ held o };

    fn from(fault: OutlineFault) -> FileFault {
        match fault {
            OutlineFault::NoMemory => FileFault::NoMemory,
            other => FileFault::Outline(other),
        }
    }
}

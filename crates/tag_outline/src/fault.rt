// Why what begins with `<` is no item.
ghost use Rattle.std.specs.Prelude.{◌≡◌};
ghost use Rattle.tag_outline.specs.declared.fault.ItemFault.TheVariants as item_fault;

use base_types::{Name, NoMemory};

#[derive(Clone, Copy, Debug, PartialEq, Eq)]
pub enum ItemFault {
    NotOutline,
    Doctype,
    Cdata,
    NoMemory,
}

impl From<NoMemory> for ItemFault {
    ghost from_gives = { λ _ e. e ≡ item_fault.NoMemory };

    fn from(_e: NoMemory) -> ItemFault {
        ItemFault::NoMemory
    }
}

// What is known while a range is narrowed.
ghost use Rattle.std.specs.Prelude.{◌≡◌, Some};

use crate::found::{RangeEnd, RangeFound, Refused};
use gas_model::Setting;

/// A draw that is carried, with its setting, and the draws above it that are refused.
#[derive(Drop)]
pub struct Bracket {
    pub carried: i64,
    pub setting: Setting,
    pub refused: Refused,
}

/// What a search in the middle comes to: a narrower bracket, or the range.
#[derive(Drop)]
pub enum Turn {
    Narrower(Bracket),
    Over(RangeFound),
}

impl Bracket {
    /// The range that ends so.
    pub fn ended(self, end: RangeEnd) -> RangeFound
        ensures { result ≡ record { carried = self.carried; setting = self.setting; refused = Some self.refused; end = end } }
    {
        RangeFound {
            carried: self.carried,
            setting: self.setting,
            refused: Some(self.refused),
            end,
        }
    }

    /// The same where more is carried.
    pub fn raised(self, carried: i64, setting: Setting) -> Bracket
        ensures { result ≡ record { carried = carried; setting = setting; refused = self.refused } }
    {
        Bracket {
            carried,
            setting,
            refused: self.refused,
        }
    }

    /// The same where more is refused.
    pub fn lowered(self, refused: Refused) -> Bracket
        ensures { result ≡ record { carried = self.carried; setting = self.setting; refused = refused } }
    {
        Bracket {
            carried: self.carried,
            setting: self.setting,
            refused,
        }
    }
}

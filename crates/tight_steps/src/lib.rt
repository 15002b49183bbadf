//! The tightest step that a rule gives, where it shrinks a width by an eighth; and which variables a law mentions.
#![tactic(auto)]

mod best;
mod frame;
mod law;
mod shrinking;

pub use best::{NewEnd, best_to, cut, loosest};
pub use frame::{boxes_still_fit, ends_stay_limited, other_laws_stay_quiet};
pub use law::Law;
pub use shrinking::{own_ends, shrinks_by};

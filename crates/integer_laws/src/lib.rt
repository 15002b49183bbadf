//! The laws of whole numbers that the other crates' proofs use: products, order and sizes.
//!
//! The crate is its lemmas. Its functions do nothing, and carry by their contracts the two laws that the rest
//! stands on.
#![tactic(auto)]

ghost use Rattle.integer_laws.specs.Products.{SizesMultiply, PositiveFactorsCancel};

/// The size of a product is at most the product of the sizes of its factors.
#[tactic(auto, using(crate::proofs::SizeLemmas::sizes_multiply))]
pub fn sizes_multiply()
    ensures { SizesMultiply }
{}

/// Two products by one factor of at least 1 are in the same order as what it multiplies.
#[tactic(auto, using(crate::proofs::SizeLemmas::positive_factors_cancel))]
pub fn positive_factors_cancel()
    ensures { PositiveFactorsCancel }
{}

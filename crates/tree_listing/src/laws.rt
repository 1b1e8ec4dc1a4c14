//! A law of listings: an empty function whose contract is the law.

ghost use Rattle.tree_listing.specs.Listing.{ListingsAreOne};

/// An image has at most one listing with a raw key, and at most one without.
pub fn listings_are_one()
    ensures { ListingsAreOne }
{}

//! A listing may be sent to any thread and read by all at once.
use crate::Listing;
use pack_util::is_shared;

fn is_listing_shared(listing: &Listing) {
    is_shared(listing);
}

//! The laws of listings. Their lines, and that `asm` gives their bytes back, are tested by the clients.

use i80_listings_laws::listing::{lines_are, listing_assembles};

// They have nothing to run.
#[test]
fn laws_stand() {
    lines_are();
    listing_assembles();
}

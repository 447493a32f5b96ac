//! The gaps that are narrow at a width: the regions that no member holds, that are not outer and that have no room for the width.
//!
//! Its promise, that of [`narrow_gaps`]: the ascending list of exactly these regions (`IsNarrowGap` of `region_owners`).
//!
//! The files of `proofs/`: `Gaps`, what makes a region a gap; `Listing`, the list while it grows.
#![tactic(auto)]

mod narrow;

pub use narrow::narrow_gaps;

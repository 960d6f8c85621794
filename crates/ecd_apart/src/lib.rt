//! When two shapes share no item: boxes, counts, and shapes that are apart. It is a test by the shapes alone, sound and not complete. RFC 8610 leaves choices
//! whose alternatives overlap to a first match (appendix A); this project refuses them by this test.
#![tactic(auto)]

pub mod laws;

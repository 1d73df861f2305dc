// How a guest's tables are laid out.

// The level of the root's entries, and the bound on region end, moved region end, ranges and new spans.
#[derive(Clone, Copy)]
pub struct Geometry {
    pub top: u64,
    pub limit: u64,
}

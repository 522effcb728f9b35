//! Holds the numbers of a problem as 64-bit numbers. A bundle is checked for shape before range, and a position above
//! 32 bits is out of range, the later fault. So the rules of shape apply to drafts, which are shared by bundles and
//! parts.

/// The numbers of a chain.
#[derive(Drop)]
pub struct ChainDraft {
    pub item: u64,
    pub writers: Vec<u64>,
    pub costs: Vec<u64>,
}

/// The numbers of a problem.
#[derive(Drop)]
pub struct ProblemDraft {
    pub updates: Vec<u64>,
    pub before: Vec<(u64, u64)>,
    pub chains: Vec<ChainDraft>,
    pub must: Vec<u64>,
}

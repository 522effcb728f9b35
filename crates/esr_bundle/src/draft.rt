//! The numbers of a certificate as they were read, before any rule was tried.

/// A certificate as it was read.
#[derive(Drop)]
pub struct CertificateDraft {
    pub set: Vec<u64>,
    pub chain_flow: Vec<Vec<u64>>,
    pub back_flow: Vec<u64>,
    pub must_flow: Vec<u64>,
    pub worth: u64,
    pub augmentations: Option<u64>,
}

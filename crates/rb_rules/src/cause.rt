//! Why a run ends before its last frame.

/// How the fault premise fails: the good nodes among the trusted ones of a kind do not outnumber
/// those that are symmetric or asymmetric, or both kinds have a trusted asymmetric node.
#[derive(Clone, Copy, Debug, PartialEq, Eq)]
pub enum Cause {
    FewGoodBiu,
    FewGoodRmu,
    TwoSided,
}

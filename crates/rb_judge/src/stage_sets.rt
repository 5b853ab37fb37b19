//! The nodes of one kind in a stage.
use rb_base::NodeSet;

/// Sets of nodes of one kind in a stage: those that are good, those that are trusted, those from
/// which some good node of the other kind accepted something, and those that two good nodes of the
/// other kind saw unlike.
#[derive(Clone, Copy, Debug, PartialEq, Eq)]
pub struct StageSets<K> {
    pub good: NodeSet<K>,
    pub trusted: NodeSet<K>,
    pub taken: NodeSet<K>,
    pub unlike: NodeSet<K>,
}

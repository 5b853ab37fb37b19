//! The classes of the nodes of one kind.
use rb_base::NodeSet;

/// The trusted nodes of one kind by their behavior in a frame so far: the good ones; of the others
/// the benign, of which no good receiver took anything, the asymmetric, which two good receivers
/// saw unlike in one stage, and the symmetric.
#[derive(Clone, Copy, Debug, PartialEq, Eq)]
pub struct Classes<K> {
    pub good: NodeSet<K>,
    pub benign: NodeSet<K>,
    pub symmetric: NodeSet<K>,
    pub asymmetric: NodeSet<K>,
}

//! The numbers of a run.

/// The four numbers of a run: its frames, what was delivered (Fault too), how many nodes the first
/// line of the last block says are convicted, and the greatest difference of the reference times of
/// first ticks within one block.
#[derive(Clone, Copy, Debug, PartialEq, Eq)]
pub struct Totals {
    pub frames: u32,
    pub deliveries: u64,
    pub convicted: u8,
    pub spread: u64,
}

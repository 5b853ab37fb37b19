//! What nodes hear, see and deliver.

/// A value as votes and deliveries know it: a word, or the mark that there is none.
#[derive(Clone, Copy, Debug, PartialEq, Eq, Default)]
pub enum Heard {
    Word(u32),
    #[default]
    Fault,
}

/// A stage of a slot of a frame. Frames and slots are counted from 0. The stages of a slot are 1 to
/// 3, and the tail of the sync slot counts as its stage 4.
#[derive(Clone, Copy, Debug, PartialEq, Eq, Default)]
pub struct Place {
    pub frame: u32,
    pub slot: u16,
    pub stage: u8,
}

/// What a slot of a frame brought to a BIU: the number of the BIU that had the slot, and the value.
#[derive(Clone, Copy, Debug, PartialEq, Eq, Default)]
pub struct Delivery {
    pub frame: u32,
    pub slot: u16,
    pub sender: u8,
    pub value: Heard,
}

/// What a receiver saw of one source in a window: nothing, a value, or the time of a call to
/// resynchronize. That time is in the receiver's own ticks where one node speaks of itself, and in
/// reference units where nodes are compared.
#[derive(Clone, Copy, Debug, PartialEq, Eq, Default)]
pub enum See {
    #[default]
    Nothing,
    Value(Heard),
    Time(u64),
}

//! The stored applications.
ghost use Rattle.std.specs.Prelude.{◌≡◌, ◌<◌};
ghost use Rattle.rb_rules.specs.Ports.{learned_by, offered_by};
ghost use Rattle.rb_port.specs.Answering.{LearnsAs, OffersAs};

/// Answers the word that an application with this state offers for a slot.
pub type Offer = Box<dyn Fn(u64, u16) -> u32>;

/// Answers the state of an application that had this state before, after the slot's delivery from
/// that sender. None stands for Fault.
pub type Learn = Box<dyn Fn(u64, u16, u8, Option<u32>) -> u64>;

/// An application, as what it offers and what it learns.
#[derive(Drop)]
pub struct App {
    pub offer: Offer,
    pub learn: Learn,
}

// An application that answers as the one with this number.
#[derive(Drop)]
struct Stored {
    app: u8,
    offer: Offer,
    learn: Learn,
    ghost offers: { OffersAs app (Offer.pre offer) (Offer.post offer) },
    ghost learns: { LearnsAs app (Learn.pre learn) (Learn.post learn) },
}

fn call_offer(offer: &Offer, state: u64, slot: u16) -> u32
    requires { Offer.pre offer.now state slot }
    ensures { Offer.post offer.now state slot result }
{
    offer(state, slot)
}

fn call_learn(learn: &Learn, state: u64, slot: u16, sender: u8, value: Option<u32>) -> u64
    requires { Learn.pre learn.now state slot sender value }
    ensures { Learn.post learn.now state slot sender value result }
{
    learn(state, slot, sender, value)
}

impl Stored {
    fn offer(&self, state: u64, slot: u16) -> u32
        ensures { result ≡ offered_by self.now.app state slot }
    {
        call_offer(&self.offer, state, slot)
    }

    fn learn(&self, state: u64, slot: u16, sender: u8, value: Option<u32>) -> u64
        ensures { result ≡ learned_by self.now.app state value }
    {
        call_learn(&self.learn, state, slot, sender, value)
    }
}

/// The three applications, kept beside the fact that they answer as such:
///
/// | number | name | offers for a slot | state after a delivery |
/// |---|---|---|---|
/// | 0 | `table` | state mod 2^32 | state |
/// | 1 | `counter` | state mod 2^32 | (state + 1) mod 2^64 |
/// | 2 | `follow` | (state + slot) mod 2^32 | (31 state + word) mod 2^64, with word 0 for Fault |
#[derive(Drop)]
pub struct Apps {
    table: Stored,
    counter: Stored,
    follow: Stored,
    ghost is_table: { table.app ≡ 0 },
    ghost is_counter: { counter.app ≡ 1 },
    ghost is_follow: { follow.app ≡ 2 },
}

impl Apps {
    /// Keeps the three. On all arguments within the ranges of their types each entry may be called
    /// and answers its row.
    pub fn new(table: App, counter: App, follow: App) -> Apps
        requires table_offers { OffersAs 0 (Offer.pre table.offer) (Offer.post table.offer) }
        requires table_learns { LearnsAs 0 (Learn.pre table.learn) (Learn.post table.learn) }
        requires counter_offers { OffersAs 1 (Offer.pre counter.offer) (Offer.post counter.offer) }
        requires counter_learns { LearnsAs 1 (Learn.pre counter.learn) (Learn.post counter.learn) }
        requires follow_offers { OffersAs 2 (Offer.pre follow.offer) (Offer.post follow.offer) }
        requires follow_learns { LearnsAs 2 (Learn.pre follow.learn) (Learn.post follow.learn) }
    {
        Apps {
            table: Stored {
                app: 0,
                offer: table.offer,
                learn: table.learn,
            },
            counter: Stored {
                app: 1,
                offer: counter.offer,
                learn: counter.learn,
            },
            follow: Stored {
                app: 2,
                offer: follow.offer,
                learn: follow.learn,
            },
        }
    }

    /// The word that the application with this number, below 3, offers for the slot.
    pub fn offer(&self, app: u8, state: u64, slot: u16) -> u32
        requires { app < 3 }
        ensures { result ≡ offered_by app state slot }
    {
        match app {
            0 => self.table.offer(state, slot),
            1 => self.counter.offer(state, slot),
            _ => self.follow.offer(state, slot),
        }
    }

    /// The application's state after the slot's delivery from that sender. None stands for Fault.
    pub fn learn(&self, app: u8, state: u64, slot: u16, sender: u8, value: Option<u32>) -> u64
        requires { app < 3 }
        ensures { result ≡ learned_by app state value }
    {
        match app {
            0 => self.table.learn(state, slot, sender, value),
            1 => self.counter.learn(state, slot, sender, value),
            _ => self.follow.learn(state, slot, sender, value),
        }
    }
}

/// The three applications, in boxes that this allocator gives; if it gives none, its error leaves
/// by `?`. They are made in the function that calls this, since a function may not hand out a boxed
/// closure.
#[macro_export]
macro_rules! applications {
    ($alloc:expr) => {
        $crate::Apps::new(
            $crate::App {
                offer: Box::new($alloc, |state: u64, _slot: u16| (state % 4294967296) as u32)?,
                learn: Box::new(
                    $alloc,
                    |state: u64, _slot: u16, _sender: u8, _value: Option<u32>| state,
                )?,
            },
            $crate::App {
                offer: Box::new($alloc, |state: u64, _slot: u16| (state % 4294967296) as u32)?,
                learn: Box::new(
                    $alloc,
                    |state: u64, _slot: u16, _sender: u8, _value: Option<u32>| state.wrapping_add(1),
                )?,
            },
            $crate::App {
                offer: Box::new($alloc, |state: u64, slot: u16| {
                    ((u128::from(state) + u128::from(slot)) % 4294967296) as u32
                })?,
                learn: Box::new(
                    $alloc,
                    |state: u64, _slot: u16, _sender: u8, value: Option<u32>| {
                        ((31 * u128::from(state) + u128::from(value.unwrap_or(0)))
                            % 18446744073709551616) as u64
                    },
                )?,
            },
        )
    };
}

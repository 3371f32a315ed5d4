//! The steps of one seat on one stripe, each on one word, and what they take or leave in the stripe's slot.
mod all;
mod exclusive;
mod journal;
mod latch;
mod narrow;
mod seats;
mod shared;
mod stripe;
mod work;

pub(crate) use all::{give_all, take_all};
pub(crate) use journal::{lock_journal, put_journal, put_longer};
pub(crate) use latch::{look_exclusive, look_shared};
pub(crate) use narrow::narrow_all;
pub(crate) use seats::{join_seats, split_seat};
use std::{hint, thread};
pub(crate) use stripe::take_stripe;
pub(crate) use work::{apply_all, reserve_all};

/// Waits a little: up to 50 turns by a hint, and then by giving the processor away. It answers the turns so far.
fn pause(turns: u8) -> u8 {
    if turns < 50 {
        hint::spin_loop();
        return turns + 1;
    }
    thread::yield_now();
    turns
}

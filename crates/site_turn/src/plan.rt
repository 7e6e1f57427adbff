// What of a site stays as it is in a run.

ghost use Rattle.std.specs.Prelude.{◌≡◌, ◌≤◌, length};
ghost use Rattle.dispatch_model.specs.Code.{Linked};

use lock::Sizes;

// The pauses of a site, and its warm-up in turns.
#[derive(Clone, Copy)]
pub struct Pace {
    pub hold: u8,
    pub think: u8,
    pub warm: usize,
}

// A site's sizes and its pace, the threads and the orders of its wanted calls, the place of each thread's first call,
// and for each call the place of its thread's call behind it.
#[derive(Clone, Copy)]
pub struct Plan<'a> {
    pub sizes: Sizes,
    pub pace: Pace,
    pub threads: &'a [u8],
    pub orders: &'a [u8],
    pub first: &'a [u16; 64],
    pub later: &'a [u16; 4096],
    pub ghost few: { length threads.now ≤ 4096 },
    pub ghost same: { length orders.now ≡ length threads.now },
    pub ghost linked: { Linked threads.now first.now later.now 0 },
}

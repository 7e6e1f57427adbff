// The ticket lock of document 02, Eleven: the types, its definitions (specs/), and what is proved of every run
// (proofs/).
#![tactic(auto)]

ghost use Rattle.std.specs.Prelude.{◌≡◌};
ghost use Rattle.ticket_model.specs.Machine.{idle};

// What a thread is to the lock: it has no ticket, waits with one, or holds.
#[derive(Clone, Copy)]
pub enum Standing {
    Idle,
    Waiting,
    Holding,
}

// A thread, and the ticket that it took; an idle thread's is 0 and means nothing.
// Kept: the ticket beside the standing, and not inside it: specs/Claims speaks of `own` of every thread (`numbered`).
#[derive(Clone, Copy)]
pub struct Thread {
    pub standing: Standing,
    pub own: u16,
}

impl Thread {
    pub fn fresh() -> Self
        ensures { result ≡ idle }
    {
        Thread {
            standing: Standing::Idle,
            own: 0,
        }
    }
}

// The lock: the ticket that is taken next, the one that may hold, and the threads.
#[derive(Clone, Copy)]
pub struct Lock {
    pub ticket: u16,
    pub grant: u16,
    pub threads: [Thread; 64],
}

// What a row comes to: 0 and the ticket, the grant and its thread after it, or the refusal number and these as they
// were.
// Kept: a number for the answer, as the definitions have it (specs/Machine `refuse`); no code makes such a value
// (`ticket_lock::row` gives a Result).
#[derive(Clone, Copy)]
pub struct Made {
    pub answer: u8,
    pub ticket: u16,
    pub grant: u16,
    pub me: Thread,
}

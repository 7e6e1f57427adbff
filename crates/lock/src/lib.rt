#![tactic(auto)]

ghost use Rattle.std.specs.Prelude.{◌≡◌, Err};
ghost use Rattle.lock.specs.Refusal.{number_of, answer_number};
ghost use Rattle.lock.specs.File.{ran_after};

// The types of the lock bench, which the definitions of specs/ use. The crates above share sizes, entries and a run's
// numbers; words, groups, phases and threads they hold as numbers in place, and the crate `cells` says which of these
// values the numbers stand for.

// A word of the lock: word 0 is the root, word n is node n of the tree. `direct` counts the arrivals straight at the
// root, `tree` those from nodes, and is a node's one count. It is closed where the flag is 1; a node's word is always
// open, and nobody arrives there directly.
// Kept: the flag is a number, as in the definitions, whose `word_of` (`cells` specs/View) computes it; no code has one.
#[derive(Clone, Copy)]
pub struct Word {
    pub direct: usize,
    pub tree: usize,
    pub closed: usize,
}

// A group of threads that leave the queue together: thread t is bit t of the set. A group with the flag 1 is one
// writer; the others are readers.
// Kept: the flag is a number, as in the definitions (specs/Queue `readers`, `writer`); no code has one.
#[derive(Clone, Copy)]
pub struct Group {
    pub exclusive: usize,
    pub members: u64,
}

// What follows a departure by the tree: the end of an unlock, the look of an upgrade, or, inside an arrival, the way on
// down to node n from node c.
#[derive(Clone, Copy)]
pub enum Then {
    Leaving,
    Upgrading,
    Inside(usize, usize), // n, c
}

// Where a thread is: outside calls (idle, or holding with its ticket), asleep, or at a row of a call. A constructor of
// a call is the row that the thread makes next, with what it remembers. n is the route of a read-lock, c and d are
// nodes, v is a word that was read.
#[derive(Clone, Copy)]
pub enum Phase {
    Idle,
    Writing,
    Asleep,
    Reading(usize), // its ticket
    // read-lock by n
    Look(usize), // n: read the root
    Enter(Word), // v: swap the root
    Climb(usize, usize), // c, n: not yet arrived above: read c
    ClimbSwap(usize, usize, Word), // c, n, v: swap c
    Descend(usize, usize), // c, n: arrived above: swap c from the 0 read on the way up
    Again(usize, usize), // c, n: that swap failed: read c
    AgainSwap(usize, usize, Word), // c, n, v: swap c
    // depart from d
    Depart(usize, Then), // d: read d
    DepartSwap(usize, Then, Word), // d, v: swap d
    // unlock with ticket 0: depart directly
    Leave, // read the root
    LeaveSwap(Word), // v: swap it
    // the queue, for a reader
    QueueTake(usize), // n: take the mutex
    QueueRead(usize), // n: read the root
    QueueBack(usize), // n: open: release, and look again
    QueueJoin, // closed: join
    Sleep, // release, and sleep
    // write-lock
    WriteLook, // read the root
    WriteEnter, // swap it from (0, open)
    WriteTake, // take the mutex
    WriteRead, // read the root
    WriteClose(Word), // v: swap it to closed
    WriteHold, // release, and hold
    WriteJoin, // join
    // unlock by a writer
    UnlockTake, // take the mutex
    UnlockNext, // take the next group
    UnlockOpen, // none: store (0, open)
    UnlockEnd, // release
    UnlockStore(u64), // readers: store their number
    // unlock by the last reader
    LastTake, // take the mutex
    LastNext, // take the writer who has waited longest
    // hand-over to a group
    HandRelease(Group), // release
    HandWake(Group), // wake
    // upgrade
    UpgradeTrade(usize), // n: another ticket than 0: read the root
    UpgradeEnter(usize, Word), // n, v: swap it: arrive directly, then depart from n
    UpgradeLook, // with ticket 0: read the root
    UpgradeSwap(Word), // v: alone: swap it to closed
    // downgrade
    DowngradeTake, // take the mutex
    DowngradeNext, // take the sleeping readers, if any
    DowngradeStore(u64), // store 1 and their number
    DowngradeRelease(u64), // release; where there are none, and read
    DowngradeWake(u64), // wake them, and read
}

// What the sheet shows of a thread: document 01's "standing".
#[derive(Clone, Copy)]
pub enum Standing {
    Idle,
    Reading(usize), // its ticket
    Writing,
    Calling,
    Asleep,
}

#[derive(Clone, Copy)]
pub struct Thread {
    pub phase: Phase,
    pub failures: usize,
}

// The sizes of a run: N, F and T of the schedule file, and the number of items E of the till, 0 where there is none.
#[derive(Clone, Copy)]
pub struct Sizes {
    pub nodes: usize,
    pub fan: usize,
    pub threads: usize,
    pub items: usize,
}

// An entry of the journal: what a row did, and on which word.
// Kept: both are numbers with associated constants, one of the forms that docs/PROVED.md lists; a word of the second lock
// is a word with 64 added.
#[derive(Clone, Copy)]
pub struct Entry {
    pub kind: u8,
    pub word: u8,
}

impl Entry {
    pub const BEGUN: u8 = 0;

    pub const READ: u8 = 1;

    pub const SWAPPED: u8 = 2;

    pub const FAILED: u8 = 3;

    pub const HELD_UP: u8 = 4;

    pub const STORED: u8 = 5;

    pub const TAKEN: u8 = 6;

    pub const RELEASED: u8 = 7;

    pub const QUEUED: u8 = 8;

    pub const WOKEN: u8 = 9;

    pub const UPGRADE_DENIED: u8 = 10;

    pub const BOOKED: u8 = 11;

    pub const REPEATED: u8 = 12;

    pub const BOOKING_DENIED: u8 = 13;

    // Words: the root; node n has its own number.
    pub const ROOT: u8 = 0;

    pub const MUTEX: u8 = 32;

    pub const NONE: u8 = 33;

    // What a word of the second lock has added.
    pub const SECOND: u8 = 64;
}

// Why a file or a row is refused: the table of refusals. Number 8 is unused, the till's is of document 02's request
// Twelve, the last two are of a record.
#[derive(Clone, Copy, PartialEq, Eq)]
pub enum Refusal {
    // Of a file: too short, a size out of its range, not of the length that its rows need.
    TooShort,
    SizeOutOfRange,
    WrongLength,
    // The journal, or the dispatcher's buffer for a schedule, is too small.
    JournalTooSmall,
    // Of a row: no such thread, no such order, an order that does not suit the thread.
    NoSuchThread,
    NoSuchOrder,
    Unsuitable,
    // The sheet's buffer is too small.
    SheetTooSmall,
    // The till file is none.
    NotATill,
    // Of a row of a record, which the bench takes: its kind or word is another than the record's, or only its value is.
    EntryDiffers,
    ValueDiffers,
}

impl Refusal {
    // Its number in the table, as the sheet prints it.
    pub fn number(self) -> u8
        ensures { result ≡ number_of self }
    {
        match self {
            Refusal::TooShort => 1,
            Refusal::SizeOutOfRange => 2,
            Refusal::WrongLength => 3,
            Refusal::JournalTooSmall => 4,
            Refusal::NoSuchThread => 5,
            Refusal::NoSuchOrder => 6,
            Refusal::Unsuitable => 7,
            Refusal::SheetTooSmall => 9,
            Refusal::NotATill => 10,
            Refusal::EntryDiffers => 11,
            Refusal::ValueDiffers => 12,
        }
    }
}

// An answer as the sheet prints it: 0, or the number of the refusal.
pub fn answer_number(answer: Result<(), Refusal>) -> u8
    ensures { result ≡ answer_number answer }
{
    match answer {
        Ok(()) => 0,
        Err(refusal) => refusal.number(),
    }
}

// What a run came to: its answer, which is the refusal that ended it, if one did, the rows taken, and the sizes of its
// file. The locks that it left are in the caller's arrays.
#[derive(Clone, Copy)]
pub struct Ran {
    pub answer: Result<(), Refusal>,
    pub taken: usize,
    pub sizes: Sizes,
}

impl Ran {
    // After this many rows.
    pub fn after(answer: Result<(), Refusal>, taken: usize, sizes: Sizes) -> Self
        ensures { result ≡ ran_after answer taken sizes }
    {
        Ran {
            answer,
            taken,
            sizes,
        }
    }

    // Refused before the first row.
    pub fn refused(refusal: Refusal, sizes: Sizes) -> Self
        ensures { result ≡ ran_after (Err refusal) 0 sizes }
    {
        Ran::after(Err(refusal), 0, sizes)
    }
}

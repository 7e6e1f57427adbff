// A record of a server's run, held to the bench row by row: what the code tells of that. specs/ has the record file and
// what it means that it is held, proofs/ that pieces of a record compose.
#![tactic(auto)]

ghost use Rattle.std.specs.Prelude.{◌≡◌, ltb};
ghost use Rattle.lock.specs.Refusal.{number_of};
ghost use Rattle.record_model.specs.declared.Reason.TheVariants.{Refused};
ghost use Rattle.record_model.specs.Told.{reason_number, effect_of};

use lock::{Entry, Refusal};

// What a row did: its entry, and the value of its word after it. The mutex with the queue has no value, and a server
// need not record one.
#[derive(Clone, Copy)]
pub struct Effect {
    pub entry: Entry,
    pub value: Option<u64>,
}

// Why a record, or a row of it, is not held.
#[derive(Clone, Copy)]
pub enum Reason {
    // Its first bytes or its length are refused, or the bench refuses the row.
    Refused(Refusal),
    // The bench takes the row, which does this: its entry is another than the record's, or only its value is.
    EntryDiffers(Effect),
    ValueDiffers(Effect),
}

impl Reason {
    // By the table of refusals.
    pub fn refusal(self) -> Refusal
        ensures { number_of result ≡ reason_number self }
    {
        match self {
            Reason::Refused(own) => own,
            Reason::EntryDiffers(_) => Refusal::EntryDiffers,
            Reason::ValueDiffers(_) => Refusal::ValueDiffers,
        }
    }

    // Whether the bench takes the row, which differs: 11 and 12.
    pub fn differs(self) -> bool
        ensures { result ≡ ltb 10 (reason_number self) }
    {
        10 < self.refusal().number()
    }

    // What the bench's row does where it differs. A refused row does nothing: kind 0, on word 0, without a value.
    pub fn effect(self) -> Effect
        ensures { result ≡ effect_of self }
    {
        match self {
            Reason::Refused(_) => Effect {
                entry: Entry { kind: 0, word: 0 },
                value: None,
            },
            Reason::EntryDiffers(effect) => effect,
            Reason::ValueDiffers(effect) => effect,
        }
    }
}

impl From<Refusal> for Reason {
    ghost from_gives = { λ refusal reason. reason ≡ Refused refusal };

    fn from(refusal: Refusal) -> Self {
        Reason::Refused(refusal)
    }
}

// The row that ended a record, or the record that is none: how many rows are held before it, and why it is not.
#[derive(Clone, Copy)]
pub struct NotHeld {
    pub held: usize,
    pub reason: Reason,
}

// A record whose bytes are refused: no row is held.
impl From<Refusal> for NotHeld {
    ghost from_gives = { λ refusal not_held. not_held ≡ record { held = 0; reason = Refused refusal } };

    fn from(refusal: Refusal) -> Self {
        NotHeld {
            held: 0,
            reason: Reason::from(refusal),
        }
    }
}

// What a call replies.
ghost use Rattle.std.specs.Prelude.{◌≡◌};
ghost use Rattle.numbers.specs.Faults.{number_of};

use numbers::Refusal;

// The refusal of a call, by its number. Any number will do, not only one that a call gives: the theorem `some-reply` finds a reply
// for every answer of the definitions.
#[derive(Clone, Copy)]
pub struct Refused {
    pub number: u64,
}

// What was done, in one number, or the refusal.
pub type Reply = Result<u64, Refused>;

// What a call refuses by itself, beside the faults of a file: a table that is too short, what is asked for, the room, the text.
impl Refused {
    pub const TABLE: Refused = Refused { number: 15 };

    pub const NO_TYPE: Refused = Refused { number: 16 };

    pub const NO_FIELD: Refused = Refused { number: 17 };

    pub const OTHER_KIND: Refused = Refused { number: 18 };

    pub const ROOM: Refused = Refused { number: 19 };

    pub const LISTING: Refused = Refused { number: 20 };
}

// A file's own refusal: a call tells its number, and not its place.
impl From<Refusal> for Refused {
    ghost from_gives = { λ e r. r ≡ record { number = number_of e.fault } };

    fn from(e: Refusal) -> Refused {
        Refused {
            number: u64::from(e.fault),
        }
    }
}

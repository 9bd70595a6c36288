// The places of a row, each once and each behind the one before; what the crate shares of them is WORDS.

// A set of seats is two words, the low one first; a word counts to WORD.
pub const SET: usize = 2;

pub const WORD: u64 = 4294967296;

pub const OWN: usize = 0;

pub const MODE: usize = OWN + 1;

pub const NET: usize = MODE + 1;

pub const MEMBERS: usize = NET + SET;

// The offices for which a proposal is stored, a bit for each.
pub const PRESENT: usize = MEMBERS + SET;

// What is stored for an office: sender, kind, members.
pub const SLOTS: usize = PRESENT + 1;

pub const KIND: usize = 1;

pub const SLOT_MEMBERS: usize = KIND + 1;

pub const SLOT: usize = SLOT_MEMBERS + SET;

// From here on all numbers, side by side.
pub const START: usize = SLOTS + SLOT * 16;

pub const NUMBER: usize = START + 1;

pub const VIEW: usize = NUMBER + 1;

pub const STARTS: usize = VIEW + 1;

pub const ACCEPTED: usize = STARTS + 16;

pub const USED: usize = ACCEPTED + 16;

// The numbers of what is stored for an office: start, number, used numbers.
pub const STORED_NUMBERS: usize = USED + 16;

pub const STORED_NUMBER: usize = 1;

pub const STORED_USED: usize = STORED_NUMBER + 1;

pub const STORED: usize = STORED_USED + 16;

pub const WORDS: usize = STORED_NUMBERS + STORED * 16;

/// The most stakes, counts or places of a case.
pub const STAKES: u64 = 4200;

/// The most words of a list.
pub const WORDS: u64 = 8192;

/// The most seats that are lent.
pub const SEATS: u64 = 1100;

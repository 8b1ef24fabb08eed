// The bounds of the scripts' page.

// The most bytes of a script.
pub const MOST_SCRIPT: usize = 2097152;

// The most bytes that are lent for pending records: of the narrow board, and of the wide one.
pub const MOST_PENDING: usize = 440100;

pub const MOST_WIDE_PENDING: usize = 44100;

// The most bytes that are lent for confirmed records, in the same order.
pub const MOST_RECENT: usize = 720100;

pub const MOST_WIDE_RECENT: usize = 72100;

// The most counts that are lent of each kind.
pub const MOST_COUNTS: usize = 3600;

// The most bytes that a history is written into, and that a word says in digits.
pub const MOST_HISTORY: usize = 1400000;

// The highest number of 32 bits.
pub const MOST_SHORT: u64 = 4294967295;

// The most ids of a block, but for a list given as bytes.
pub const MOST_IDS: usize = 4096;

// The numbers of documents 01 and 02, under the Rust's names where it has one.

// ---- a board

// How many columns a bucket has.
pub const MAX_CONF_TARGET: usize = 25;

// How many buckets there are.
pub const BUCKET_COUNT: usize = 142;

// The floor: the lowest bucket's rate, below which no transaction is admitted.
pub const MIN_FEE_RATE_SAT_PER_KVB: u64 = 1000;

// How many counts of each kind there are.
pub const COUNTS: usize = BUCKET_COUNT * MAX_CONF_TARGET;

// What every count of the base board is multiplied by at a height, and what those of the wide one are.
pub const DECAY_FACTOR: f64 = 0.998;

pub const WIDE_DECAY_FACTOR: f64 = 0.9995;

// How many blocks a column of the base board is wide, and one of the wide board.
pub const WIDTH: u32 = 1;

pub const WIDE_WIDTH: u32 = 6;

// ---- an estimate

// The least resolved sum that gives a rate.
pub const MIN_OBSERVATIONS: f64 = 1.0;

// The least share of confirmed in resolved that gives a rate.
pub const SUCCESS_THRESHOLD: f64 = 0.85;

// ---- a table

// The most pending and the most confirmed records.
pub const MAX_PENDING_ENTRIES: usize = 10000;

pub const MAX_CONFIRMED_RECORDS: usize = 1000000;

// How many bytes an id takes.
pub const ID_SIZE: usize = 32;

// Where the fields of a pending record stand after its id, and how many bytes it takes.
pub const BUCKET_AT: usize = ID_SIZE;

pub const ENTRY_AT: usize = BUCKET_AT + 4;

pub const THROUGH_AT: usize = ENTRY_AT + 4;

pub const PENDING_SIZE: usize = THROUGH_AT + 4;

// Where the height of a confirmed record stands after its id, and how many bytes it takes.
pub const HEIGHT_AT: usize = ID_SIZE;

pub const CONFIRMED_SIZE: usize = HEIGHT_AT + 4;

// ---- a block

// The widest gap between heights that is not refused.
pub const MAX_GAP: u32 = 4096;

// ---- a history file

// The number of its version: of the base board's files, and of the wide board's.
pub const HISTORY_VERSION: u32 = 1;

pub const WIDE_HISTORY_VERSION: u32 = 3;

// How many bytes a count takes, a row of them, a bucket (its rate and two rows), and all buckets.
pub const COUNT_SIZE: usize = 8;

pub const ROW_SIZE: usize = MAX_CONF_TARGET * COUNT_SIZE;

pub const BUCKET_SIZE: usize = 8 + 2 * ROW_SIZE;

pub const BUCKETS_SIZE: usize = BUCKET_COUNT * BUCKET_SIZE;

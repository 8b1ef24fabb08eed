// Why a call is refused: an error for each kind of call, whose cases are the answers of documents 01 and 02 but Done. A call that is done answers `Ok`.
ghost use Rattle.std.specs.Prelude.{◌≡◌, ◌<◌};
ghost use Rattle.kinds.specs.Answers.{Answer, answer_of, start_refusal, enter_refusal, leave_refusal, block_refusal, read_refusal, write_refusal};
ghost use Rattle.kinds.specs.Refusals.{start_refuses, enter_refuses, leave_refuses, block_refuses, read_refuses, write_refuses};

// An error of a call, as the answer that it is; none has the number of Done.
pub trait Refusal {
    ghost answer: { Self → Answer };

    // Its number, by documents 01 and 02.
    fn number(self) -> u32
        ensures { result ≡ (answer self).number };

    ghost refuses: { (e : Self) → 0 < (answer e).number };
}

// The number of a call's answer: 0 where it is done.
pub fn number_of<T: Drop, E: Refusal>(answered: Result<T, E>) -> u32
    ensures { result ≡ (answer_of E.answer answered).number }
{
    match answered {
        Ok(_) => 0,
        Err(refusal) => refusal.number(),
    }
}

// What was lent to a fresh start or for an estimate is not an estimator's.
#[derive(Clone, Copy, Debug, PartialEq, Eq)]
pub struct Damaged;

impl Refusal for Damaged {
    ghost answer = { start_refusal };

    ghost refuses = { start_refuses };

    fn number(self) -> u32 {
        1
    }
}

// Why an enter is refused.
#[derive(Clone, Copy, Debug, PartialEq, Eq)]
pub enum EnterError {
    Damaged,
    BelowFloor,
    AlreadyPending,
    PendingFull,
}

impl Refusal for EnterError {
    ghost answer = { enter_refusal };

    ghost refuses = { enter_refuses };

    fn number(self) -> u32 {
        match self {
            EnterError::Damaged => 1,
            EnterError::BelowFloor => 16,
            EnterError::AlreadyPending => 2,
            EnterError::PendingFull => 3,
        }
    }
}

// Why a leave is refused.
#[derive(Clone, Copy, Debug, PartialEq, Eq)]
pub enum LeaveError {
    Damaged,
    Absent,
}

impl Refusal for LeaveError {
    ghost answer = { leave_refusal };

    ghost refuses = { leave_refuses };

    fn number(self) -> u32 {
        match self {
            LeaveError::Damaged => 1,
            LeaveError::Absent => 4,
        }
    }
}

// Why a block is refused.
#[derive(Clone, Copy, Debug, PartialEq, Eq)]
pub enum BlockError {
    Damaged,
    BadList,
    GapTooWide,
    ConfirmedFull,
}

impl Refusal for BlockError {
    ghost answer = { block_refusal };

    ghost refuses = { block_refuses };

    fn number(self) -> u32 {
        match self {
            BlockError::Damaged => 1,
            BlockError::BadList => 5,
            BlockError::GapTooWide => 6,
            BlockError::ConfirmedFull => 7,
        }
    }
}

// Why a file is not read; an unknown version with its number.
#[derive(Clone, Copy, Debug, PartialEq, Eq)]
pub enum ReadError {
    Damaged,
    BadMagic,
    UnknownVersion(u32),
    Corrupt,
    NoRoom,
}

impl Refusal for ReadError {
    ghost answer = { read_refusal };

    ghost refuses = { read_refuses };

    fn number(self) -> u32 {
        match self {
            ReadError::Damaged => 1,
            ReadError::BadMagic => 8,
            ReadError::UnknownVersion(_) => 9,
            ReadError::Corrupt => 10,
            ReadError::NoRoom => 11,
        }
    }
}

// Why a file is not written; a short output with the length that is needed.
#[derive(Clone, Copy, Debug, PartialEq, Eq)]
pub enum WriteError {
    Damaged,
    ShortOutput(usize),
}

impl Refusal for WriteError {
    ghost answer = { write_refusal };

    ghost refuses = { write_refuses };

    fn number(self) -> u32 {
        match self {
            WriteError::Damaged => 1,
            WriteError::ShortOutput(_) => 12,
        }
    }
}

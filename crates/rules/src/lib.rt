// The limits, why a call is refused, and the types that several crates share. What each means stands in specs/.
#![tactic(auto)]

// How large things may be; specs/Limits.antt says what each limit bounds.
pub const RANK_LIMIT: usize = 4;

pub const LIST_LIMIT: usize = 16;

pub const ENTRY_LIMIT: usize = 128;

pub const PRODUCT_LIMIT: usize = 65536;

pub const COMPONENT_LIMIT: usize = 65535;

// How many numbers a lent result and a lent working buffer must have.
pub const RESULT_SIZE: usize = 1802;

pub const WORK_SIZE: usize = 10812;

// Why a call is refused; specs/Refusals.antt gives each its number.
#[derive(Clone, Copy)]
pub enum Refusal {
    OverCount,
    ShortBuffer,
    Unsound,
    Unordered,
    WrongArgument,
    ShapesDisagree,
    ScalarContracted,
    NoPermutation,
    SparseDivisor,
    Unjoinable,
    DenseAxes,
    MadeUnsound,
    MadeTooLarge,
}

// The kinds of layouts; specs/Layout.antt says which number of a record stands for which.
#[derive(Clone, Copy)]
pub enum Kind {
    // Every index.
    Dense,
    // The indices of equal components.
    Diagonal,
    // The indices that are listed.
    Sparse,
}

// What an operator byte asks of the layouts that are folded.
#[derive(Clone, Copy)]
pub enum Rule {
    Unite,
    Multiply,
    Divide,
}

// What a stretched dependency yields: every value on each stretched axis alone, or every combination of values on all of them together.
#[derive(Clone, Copy)]
pub enum Mode {
    Alone,
    Together,
}

// A shape or an index by value: as many of the numbers as the count says, zeros behind them.
#[derive(Clone, Copy)]
pub struct Tuple {
    pub count: usize,
    pub numbers: [usize; 4],
}

// The entries of a section: how many there are, where the first one starts and where the last one ends.
#[derive(Clone, Copy)]
pub struct Entries {
    pub count: usize,
    pub first: usize,
    pub next: usize,
}

// A walked record: its kind and dense-axis count as they stand there, its rank, the width of its rows, and its sections.
#[derive(Clone, Copy)]
pub struct Head {
    pub kind: i32,
    pub dense: i32,
    pub rank: usize,
    pub width: usize,
    pub rows: Entries,
    pub states: Entries,
    pub inputs: Entries,
}

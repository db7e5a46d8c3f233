// Definitions: specs/. The report's layout and the stops as constants of the code.
#![tactic(auto)]

// The report of a run: specs/Report.antt. The answer is at byte 0.
pub const REPORT_SIZE: usize = 48;

pub const REPORT_STOP: usize = 1;

pub const REPORT_LINE: usize = 8;

pub const REPORT_DETAILS: usize = 16;

// The second and the third of them.
pub const REPORT_DETAIL_2: usize = 24;

pub const REPORT_DETAIL_3: usize = 32;

pub const REPORT_STEPS: usize = 40;

// The stops: specs/RuntimeErr.antt.
pub const INVALID_NAME: u64 = 20;

pub const INVALID_INCR: u64 = 21;

pub const INVALID_INCR_TY: u64 = 22;

pub const INVALID_DECR: u64 = 23;

pub const INVALID_DECR_TY: u64 = 24;

pub const INVALID_JUMP: u64 = 25;

pub const REG_NO_CONTENTS: u64 = 26;

pub const TY_MISMATCH: u64 = 27;

pub const NOT_AN_ARRAY: u64 = 28;

pub const INVALID_FN_SYM: u64 = 29;

pub const EMPTY_CALL_STACK: u64 = 30;

pub const INDEX_OUT_OF_BOUNDS: u64 = 31;

pub const EMPTY_REGISTER: u64 = 32;

pub const KEY_ABSENT: u64 = 33;

pub const NESTED: u64 = 34;

pub const STACK_FULL: u64 = 35;

pub const TABLE_FULL: u64 = 36;

pub const NO_INDEX: u64 = 38;

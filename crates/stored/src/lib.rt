// Definitions: specs/. The state's layout as constants of the code.
#![tactic(auto)]

// The state: specs/StateBytes.antt. The registers are at byte 0.
pub const STATE_SIZE: usize = 65536;

// The bytes that have a field.
pub const STATE_USED: usize = 47360;

pub const STATE_NAMES: usize = 24576;

pub const STATE_STACK: usize = 40960;

pub const STATE_CALLS: usize = 47104;

pub const STATE_FUNCTIONS: usize = 47200;

pub const STATE_MARK: usize = 47328;

pub const STATE_COUNT: usize = 47336;

pub const STATE_POSITION: usize = 47344;

pub const STATE_STACK_DEPTH: usize = 47346;

pub const STATE_CALLS_DEPTH: usize = 47347;

pub const STATE_REST: usize = 47348;

// Registers, names and values of the stack, all slots.
pub const STATE_SLOTS: usize = 184;

// An entry of the call stack.
pub const FRAME_SIZE: usize = 4;

// How many values and calls the two stacks hold.
pub const VALUE_STACK: usize = 24;

pub const CALL_STACK: usize = 24;

// A list of calls, carried out.
#![tactic(auto)]

ghost use Rattle.std.specs.Prelude.{◌≡◌, ◌+◌, ◌*◌, ◌≤◌, ◌<◌, min, length, Some};
ghost use Rattle.std.proofs.Math.Option.{some};
ghost use Rattle.lent.specs.Bytes.{be_value, part};
ghost use Rattle.demand3.specs.CallList.{Run, ReadName, ending_in};
ghost use Rattle.call_list.specs.CallBytes.{call_of, last_of};
ghost use Rattle.call_list.specs.CarriedOut.{OneCall, CarriedOut};

// A list of calls: specs/CallBytes.antt. The kind is at byte 0 of an entry.
pub const CALL_SIZE: usize = 16;

pub const CALL_LENGTH: usize = 6;

pub const CALL_NUMBER: usize = 8;

// The longest buffer that is lent for an answer.
pub const CALL_LENT: usize = 256;

pub const CALL_RUN: u8 = 0;

pub const CALL_READ_NAME: u8 = 1;

// How steps given ended: the answer, and of a stop its number and details.
#[derive(Clone, Copy, PartialEq, Eq, Debug)]
pub struct Ending {
    pub answer: u8,
    pub number: u8,
    pub details: [u64; 3],
}

// The ending that a report tells.
fn ending_of(report: &[u8]) -> Ending
    requires { 48 ≤ length report.now }
    ensures { last_of (Some result) ≡ some (ending_in report.now) }
{
    Ending {
        answer: report[0],
        number: report[vm::REPORT_STOP],
        details: [
            lent::get_u64(report, vm::REPORT_DETAILS),
            lent::get_u64(report, vm::REPORT_DETAIL_2),
            lent::get_u64(report, vm::REPORT_DETAIL_3),
        ],
    }
}

fn run_next(
    program: &[u8],
    state: &mut [u8],
    steps: u64,
    out: &mut [u8],
    last: Option<Ending>,
) -> Option<Ending>
    ensures { OneCall program.now (some (Run steps out.old)) state.old last state.new result }
{
    if calls::run_call::run(program, state, steps, out).is_err() {
        return last;
    }
    if steps == 0 {
        return last;
    }
    Some(ending_of(out))
}

fn read_next(
    program: &[u8],
    state: &[u8],
    text: u64,
    out: &mut [u8],
    last: Option<Ending>,
) -> Option<Ending>
    ensures { OneCall program.now (some (ReadName text out.old)) state.now last state.now result }
{
    let _ = calls::read_call::read_name(state, text, out);
    last
}

// The length of the buffer that a call lends.
fn out_length(calls: &[u8], at: usize) -> usize
    requires { at + 16 ≤ length calls.now }
    ensures { result ≡ min (be_value (part calls.now (at + 6) 2)) 256 }
{
    (lent::get_u16(calls, at + CALL_LENGTH) as usize).min(CALL_LENT)
}

// The call at byte `at` of a list, by its kind.
fn call_next(
    program: &[u8],
    state: &mut [u8],
    calls: &[u8],
    at: usize,
    last: Option<Ending>,
) -> Option<Ending>
    requires { at + 16 ≤ length calls.now }
    ensures { OneCall program.now (call_of (part calls.now at 16)) state.old last state.new result }
{
    let mut out = [0u8; CALL_LENT];
    let len = out_length(calls, at);
    let number = lent::get_u64(calls, at + CALL_NUMBER);
    let kind = calls[at];
    if kind == CALL_RUN {
        return run_next(program, state, number, &mut out[0..len], last);
    }
    if kind == CALL_READ_NAME {
        return read_next(program, state, number, &mut out[0..len], last);
    }
    last
}

// Every call of the list, one after the other.
pub fn call_all(program: &[u8], state: &mut [u8], calls: &[u8]) -> Option<Ending>
    ensures { CarriedOut program.now calls.now state.old state.new result }
{
    let mut last = None;
    for i in 0..calls.len() / CALL_SIZE {
        last = call_next(program, state, calls, CALL_SIZE * i, last);
    }
    last
}

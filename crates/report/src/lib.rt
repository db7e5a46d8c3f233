// The report of a run.
#![tactic(auto)]

ghost use Rattle.std.specs.Prelude.{◌≡◌, ◌≤◌, ◌++◌, length, drop};
ghost use Rattle.lent.specs.Bytes.{be_bytes};
ghost use Rattle.vm.specs.Report.{signed_bytes};
ghost use Rattle.report.specs.inner.Fields.{line_at, report_fields, report_of};

use execute::Answer;

// A stop's line, in two's complement.
fn line(start: u64, pos: u64) -> u64
    requires { (start ≤ 1024) × (pos ≤ 1024) }
    ensures { be_bytes 8 result ≡ signed_bytes (line_at start pos) }
{
    std::num::wrapping_sub_u64(pos + 1, start)
}

// What stopped it as its number and its details; 0 where nothing did.
fn put_fields(
    out: &mut [u8],
    answer: u64,
    number: u64,
    line: u64,
    details: (u64, u64, u64),
    took: u64,
)
    requires { 48 ≤ length out.old }
    ensures { out.new ≡ report_fields answer number (be_bytes 8 line) details took ++ drop 48 out.old }
{
    lent::put_u8(out, 0, answer);
    lent::put_u8(out, vm::REPORT_STOP, number);
    lent::zero(out, 2, 6);
    lent::put_u64(out, vm::REPORT_LINE, line);
    lent::put_u64(out, vm::REPORT_DETAILS, details.0);
    lent::put_u64(out, vm::REPORT_DETAIL_2, details.1);
    lent::put_u64(out, vm::REPORT_DETAIL_3, details.2);
    lent::put_u64(out, vm::REPORT_STEPS, took);
}

// What a run of a program that starts at `start` came to at a position, after so many steps.
pub fn write_report(out: &mut [u8], start: u64, answer: Answer, pos: usize, took: u64)
    requires { (48 ≤ length out.old) × (start ≤ 1024) × (pos ≤ 1024) }
    ensures { out.new ≡ report_of start answer pos took ++ drop 48 out.old }
{
    match answer {
        Answer::Done => put_fields(out, 0, 0, 0, (0, 0, 0), took),
        Answer::Stopped(e) => put_fields(
            out,
            1,
            e.number(),
            line(start, pos as u64),
            e.details(),
            took,
        ),
        Answer::Spent => put_fields(out, 2, 0, 0, (0, 0, 0), took),
    }
}

// Replays the stored files and programs (cases/README.md) through the four calls, in one run and in portions, and prints counts.
#![tactic(auto)]

ghost use Rattle.std.specs.Prelude.{◌+◌, ◌*◌, ◌<◌, ◌≤◌, length};
ghost use Rattle.std.specs.Io.{ReadsAtMost};

use anyhow::Context;
use call_list::Ending;
use lent::refusal;
use std::fs::File;
use std::io;
use std::io::Read;
use std::rt::Files;

// The steps that a file's program is given.
const STEPS: u64 = 100000;

// The places of the counts: 0 done, 1 to 10 and 39 refused, 11 spent, 20 to 36 and 38 stopped, and room for every other number of a byte; then records, steps, names held, runs in portions and checksums that agree.
const RECORDS: usize = 256;

const TAKEN: usize = 257;

const HELD: usize = 258;

const PORTIONS: usize = 259;

const STORED: usize = 260;

fn count(counts: &mut [u64], at: usize, n: u64) {
    if at < counts.len() {
        counts[at] = counts[at].wrapping_add(n);
    }
}

// ---- the checksum of all that the calls answer

fn mix(sum: u64, word: u64) -> u64 {
    let a = sum.wrapping_add(word);
    let b = a ^ (a << 13);
    let c = b ^ (b >> 7);
    c ^ (c << 17)
}

fn mix_bytes(before: u64, s: &[u8]) -> u64 {
    let mut sum = before;
    for i in 0..s.len() / 8 {
        sum = mix(sum, lent::get_u64(s, 8 * i));
    }
    sum
}

// ---- reading the names

#[derive(Clone, Copy)]
struct Reading {
    sum: u64,
    held: u64,
}

// The name of a text: its value goes into the checksum, and counts where it is held.
fn name(state: &[u8], text: u64, before: Reading) -> Reading {
    let mut out = [0u8; 256];
    let number = refusal::number_of(calls::read_call::read_name(state, text, &mut out));
    let sum = mix_bytes(mix(before.sum, number), &out);
    let held = if out[0] == 0 { 0 } else { 1 };
    Reading {
        sum,
        held: before.held.wrapping_add(held),
    }
}

fn names(state: &[u8], sum: u64) -> Reading {
    let mut all = Reading { sum, held: 0 };
    for text in 0..64 {
        all = name(state, text, all);
    }
    all
}

// ---- running in portions

// Call i of a list: a run or a read, the length of the buffer lent, the steps or the text.
fn call(list: &mut [u8], i: usize, kind: u64, room: u64, number: u64)
    requires { 16 * i + 16 ≤ length list.old }
{
    lent::put_u8(list, 16 * i, kind);
    lent::put_u16(list, 16 * i + 6, room);
    lent::put_u64(list, 16 * i + 8, number);
}

// The steps in three portions, with reads and refused calls between.
fn in_portions(list: &mut [u8], steps: u64)
    requires { 112 ≤ length list.old }
{
    let a = steps / 7;
    let b = steps / 3;
    call(list, 0, 0, 48, a);
    call(list, 1, 1, 256, 5);
    call(list, 2, 0, 47, b);
    call(list, 3, 0, 256, b);
    call(list, 4, 1, 256, 64);
    call(list, 5, 0, 48, steps - a - b);
    call(list, 6, 0, 48, 0);
}

// Whether the last ending of the calls is the one that a report tells; there is one where steps were given.
fn same_answer(last: Option<Ending>, steps: u64, report: &[u8]) -> bool {
    let Some(last) = last else {
        return steps == 0;
    };
    if report.len() < 48 {
        return false;
    }
    let told = Ending {
        answer: report[0],
        number: report[1],
        details: [
            lent::get_u64(report, 16),
            lent::get_u64(report, 24),
            lent::get_u64(report, 32),
        ],
    };
    last == told
}

// Whether the steps in portions leave the state and the answer of one run, a stop's details with it.
fn portions(program: &[u8], steps: u64, state: &[u8], report: &[u8]) -> bool {
    let mut list = [0u8; 112];
    in_portions(&mut list, steps);
    let mut own = [0u8; 65536];
    let _ = calls::start_call::start(program, &mut own);
    let last = call_list::call_all(program, &mut own, &list);
    own.as_slice() == state && same_answer(last, steps, report)
}

// ---- one program

// The place of the count of an answer.
fn place(answer: u8, number: u8) -> usize {
    if answer == 0 {
        return 0;
    }
    if answer == 1 {
        return number as usize;
    }
    11
}

fn count_if(counts: &mut [u64], at: usize, held: bool) {
    if held {
        count(counts, at, 1);
        return;
    }
}

// Counts what a run left; `sum` is the checksum so far, `stored` the one that the record ends with.
fn count_run(
    program: &[u8],
    steps: u64,
    state: &[u8],
    report: &[u8],
    sum: u64,
    stored: u64,
    counts: &mut [u64],
)
    requires { 48 ≤ length report.now }
{
    let all = names(state, mix_bytes(mix_bytes(sum, report), state));
    count(counts, place(report[0], report[1]), 1);
    count(counts, TAKEN, lent::get_u64(report, 40));
    count(counts, HELD, all.held);
    count_if(counts, PORTIONS, portions(program, steps, state, report));
    count_if(counts, STORED, all.sum == stored);
}

// Starts a program, and runs it where it is accepted.
fn carry_out(program: &[u8], steps: u64, before: u64, stored: u64, counts: &mut [u64]) {
    let mut state = [0u8; 65536];
    let mut report = [0u8; 48];
    let number = refusal::number_of(calls::start_call::start(program, &mut state));
    let sum = mix(before, number);
    if number != 0 {
        count(counts, number as usize, 1);
        count_if(counts, STORED, sum == stored);
        return;
    }
    let ran = refusal::number_of(calls::run_call::run(program, &mut state, steps, &mut report));
    count_run(
        program,
        steps,
        &state,
        &report,
        mix(sum, ran),
        stored,
        counts,
    );
}

// A tree file: lowered, and run where it is accepted.
fn file(bytes: &[u8], stored: u64, counts: &mut [u64]) {
    let mut program = [0u8; 40960];
    let number = refusal::number_of(lower::lower(bytes, &mut program));
    let sum = mix_bytes(mix(0, number), &program);
    if number != 0 {
        count(counts, number as usize, 1);
        count_if(counts, STORED, sum == stored);
        return;
    }
    carry_out(&program, STEPS, sum, stored, counts);
}

// ---- stored programs

// Puts the part at byte `at` of a stored program in its place; answers where the next begins.
fn part(program: &mut [u8], bytes: &[u8], at: usize) -> usize
    requires { at < length bytes.now }
    ensures { (at < result) × (result ≤ length bytes.now) }
{
    if bytes.len() - at < 4 {
        return bytes.len();
    }
    let to = lent::get_u16(bytes, at) as usize;
    let n = lent::get_u16(bytes, at + 2) as usize;
    let from = at + 4;
    if bytes.len() - from < n {
        return bytes.len();
    }
    let end = from + n;
    if to + n <= program.len() {
        lent::copy(program, to, &bytes[from..end]);
        return end;
    }
    end
}

// The parts of a stored program from byte 8 on, over zeros.
fn parts(program: &mut [u8], bytes: &[u8]) {
    let mut at = 8;
    while at < bytes.len() {
        at = part(program, bytes, at);
    }
}

fn stored_program(bytes: &[u8], stored: u64, counts: &mut [u64]) {
    if bytes.len() < 8 {
        return;
    }
    let mut program = [0u8; 40960];
    parts(&mut program, bytes);
    carry_out(&program, lent::get_u64(bytes, 0), 0, stored, counts);
}

// ---- records

// Reads until the buffer is full or the list ends; answers how many bytes it put at the buffer's start. Each turn goes
// on by what a read gave.
fn read_full<R: Read>(from: &mut R, buffer: &mut [u8]) -> io::Result<usize>
    ensures { ReadsAtMost result buffer.new }
{
    let mut done = 0;
    while done < buffer.len() {
        let n = from.read(&mut buffer[done..])?;
        if n == 0 {
            return Ok(done);
        }
        done += n;
    }
    Ok(done)
}

// The next length in a list, where the list has not ended.
fn next_length(from: &mut File) -> io::Result<Option<usize>> {
    let mut head = [0u8; 4];
    if read_full(from, &mut head)? < head.len() {
        return Ok(None);
    }
    Ok(Some(lent::get_u32(&head, 0) as usize))
}

// Whether n bytes were there, and fit.
fn fill(from: &mut File, buffer: &mut [u8], n: usize) -> io::Result<bool> {
    if buffer.len() < n {
        return Ok(false);
    }
    Ok(read_full(from, &mut buffer[..n])? == n)
}

// Whether the n bytes of an answer in words were there.
fn skip(from: &mut File, n: usize) -> io::Result<bool> {
    let mut words = [0u8; 32768];
    fill(from, &mut words, n)
}

// The next checksum; 0 where the list has ended.
fn next_sum(from: &mut File) -> io::Result<u64> {
    let mut sum = [0u8; 8];
    if read_full(from, &mut sum)? < sum.len() {
        return Ok(0);
    }
    Ok(lent::get_u64(&sum, 0))
}

// A file or program.
fn given(bytes: &[u8], programs: bool, stored: u64, counts: &mut [u64]) {
    if programs {
        stored_program(bytes, stored, counts);
    } else {
        file(bytes, stored, counts);
    }
}

// The next record of a list, where there is one: the file or program, the answer in words, the checksum.
fn record(from: &mut File, programs: bool, counts: &mut [u64]) -> io::Result<bool> {
    let mut bytes = [0u8; 32768];
    let Some(n) = next_length(from)? else {
        return Ok(false);
    };
    if !fill(from, &mut bytes, n)? {
        return Ok(false);
    }
    let Some(words) = next_length(from)? else {
        return Ok(false);
    };
    if !skip(from, words)? {
        return Ok(false);
    }
    let sum = next_sum(from)?;
    count(counts, RECORDS, 1);
    if n <= bytes.len() {
        given(&bytes[..n], programs, sum, counts);
    }
    Ok(true)
}

fn records(from: &mut File, programs: bool, counts: &mut [u64]) -> io::Result<()> {
    for _ in 0..1000000u64 {
        if !record(from, programs, counts)? {
            return Ok(());
        }
    }
    Ok(())
}

// ---- printing

fn number_of(counts: &[u64], at: usize) -> u64 {
    if at < counts.len() {
        return counts[at];
    }
    0
}

// An answer in words.
fn words(rt: &impl Print, at: usize) -> io::Result<()> {
    if at == 0 {
        return print!(rt; "done");
    }
    if (at < 11) | (at == 39) {
        return print!(rt; "refused {at}");
    }
    if at == 11 {
        return print!(rt; "spent");
    }
    print!(rt; "stopped {at}")
}

fn line(rt: &impl Print, what: &str, counts: &[u64], at: usize) -> io::Result<()> {
    let n = number_of(counts, at);
    println!(rt; "{what}: {n}")
}

// The count of an answer, where it was given.
fn answer_line(rt: &impl Print, counts: &[u64], at: usize) -> io::Result<()> {
    if number_of(counts, at) == 0 {
        return Ok(());
    }
    words(rt, at)?;
    line(rt, "", counts, at)
}

fn answer_lines(rt: &impl Print, counts: &[u64]) -> io::Result<()> {
    for at in 0..RECORDS {
        answer_line(rt, counts, at)?;
    }
    Ok(())
}

fn say(rt: &impl Print, what: &str, counts: &[u64]) -> io::Result<()> {
    line(rt, what, counts, RECORDS)?;
    answer_lines(rt, counts)?;
    line(rt, "steps", counts, TAKEN)?;
    line(rt, "names held", counts, HELD)?;
    line(rt, "in portions as in one run", counts, PORTIONS)?;
    line(rt, "every byte as stored", counts, STORED)
}

fn all(
    rt: &(impl Files<File = File> + Print),
    path: &str,
    programs: bool,
    what: &str,
) -> anyhow::Result<()> {
    let mut from = File::open(rt, path).context(path)?;
    let mut counts = [0u64; 261];
    records(&mut from, programs, &mut counts).context(path)?;
    drop(from);
    say(rt, what, &counts)?;
    Ok(())
}

// The next file alone, by its name.
fn case(rt: &impl Print, from: &mut File, what: &str) -> io::Result<()> {
    let mut counts = [0u64; 261];
    record(from, false, &mut counts)?;
    print!(rt; "{what}, ")?;
    answer_lines(rt, &counts)
}

// Document 01's cases 9 to 11, which come first.
fn cases(rt: &(impl Files<File = File> + Print), path: &str) -> anyhow::Result<()> {
    let mut from = File::open(rt, path).context(path)?;
    case(rt, &mut from, "24 items")?;
    case(rt, &mut from, "25 items")?;
    case(rt, &mut from, "96 registers")?;
    case(rt, &mut from, "97 registers")?;
    case(rt, &mut from, "call depth 24")?;
    case(rt, &mut from, "call depth 25")?;
    Ok(())
}

fn main(rt: HostRuntime) -> anyhow::Result<()> {
    cases(&rt, "cases.bin")?;
    all(&rt, "cases.bin", false, "files")?;
    all(&rt, "programs.bin", true, "programs")
}

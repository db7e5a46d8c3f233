// The listing program (document 01): a tree file from standard input, its listing to standard output.
#![tactic(auto)]

ghost use Rattle.std.specs.Prelude.{◌≡◌, ◌<◌, ◌≤◌, IfOk, length, take};
ghost use Rattle.std.specs.Io.{ReadsAtMost};
ghost use Rattle.std.specs.Io.KnownBytes.{Consumes, IsAtEnd};
ghost use Rattle.ast.specs.Tree.{Stmts};
ghost use Rattle.ast.specs.Plain.{plain};
ghost use Rattle.ast.specs.File.{read_tree, Tree};
ghost use Rattle.tables.specs.Tables.{Program};
ghost use Rattle.compiler.specs.Lower.{lower, lowered};
ghost use Rattle.walk.specs.Bound.{bound};
ghost use Rattle.text.specs.Put.{Put};
ghost use Rattle.text.specs.inner.Appended.{Appended};
ghost use Rattle.listing_text.specs.Listing.{bound_line, listing};

use anyhow::Context;
use std::io;
use std::io::Read;
use text::Writer;

// The bound, of a plain script.
fn put_bound(w: &mut Writer, file: &[u8])
    ensures { (t : Stmts) (p : Program) → read_tree file.now ≡ Tree t → lower t ≡ lowered p → Appended w.old (bound_line (plain t) (bound t)) w.new }
{
    let n = bound::bound(file);
    if n == 0 {
        w.put_all(b"bound none\n");
    } else {
        w.put_line(b"bound", &[n]);
    }
}

// The listing of a file, in buffers for its program, its state and the report of 100,000 steps.
fn list(w: &mut Writer, file: &[u8], program: &mut [u8], state: &mut [u8], report: &mut [u8])
    requires { (40960 ≤ length program.old) × (65536 ≤ length state.old) × (48 ≤ length report.old) }
    ensures { Appended w.old (listing file.now) w.new }
{
    if let Err(refusal) = lower::lower(file, program) {
        w.put_line(b"refused", &[refusal.number()]);
        return;
    }
    let _ = calls::start_call::start(program, state);
    let _ = calls::run_call::run(program, state, 100000, report);
    ops::put_program(w, program);
    put_bound(w, file);
    ending::put_ran(w, state, report);
}

// The listing of a file, cut where the buffer ends.
fn listing(file: &[u8], out: &mut [u8]) -> usize
    ensures { Put out.old 0 (listing file.now) out.new result }
{
    let mut program = [0u8; tables::PROGRAM_SIZE];
    let mut state = [0u8; stored::STATE_SIZE];
    let mut report = [0u8; vm::REPORT_SIZE];
    let mut w = Writer::new(out);
    list(&mut w, file, &mut program, &mut state, &mut report);
    w.place()
}

// Reads until the buffer is full or the input ends, and answers how many bytes it put at the buffer's start. Each turn
// goes on by what a read gave.
fn read_full<R: Read>(from: &mut R, buffer: &mut [u8]) -> io::Result<usize>
    ensures within { ReadsAtMost result buffer.new }
    ensures bytes { IfOk result (λ n. Consumes (R.remaining from.old) (R.remaining from.new) (take n buffer.new)) }
    ensures end { IfOk result (λ n. n < length buffer.new → IsAtEnd (R.remaining from.new)) }
{
    let mut done = 0;
    while done < buffer.len() {
        let got = from.read(&mut buffer[done..])?;
        if got == 0 {
            return Ok(done);
        }
        done += got;
    }
    Ok(done)
}

// Reads on: at its end standard input can be read, behind a failed read it cannot.
fn reads_on<R: Read>(from: &mut R) -> io::Result<()> {
    let mut more = [0u8; 1];
    let _ = from.read(&mut more)?;
    Ok(())
}

fn main(rt: HostRuntime) -> anyhow::Result<()> {
    let mut file = [0u8; 16384];
    let mut out = [0u8; 131072];
    let mut input = rt.stdin();
    let n = read_full(&mut input, &mut file).context("listing: cannot read")?;
    reads_on(&mut input).context("listing: cannot read")?;
    let k = listing(&file[..n], &mut out);
    rt.write_all(&out[..k]).context("listing: cannot write")?;
    Ok(())
}

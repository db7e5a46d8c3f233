// Lowering of a tree file to a program buffer: compiler.rs, `compile`, and the call `lower`.
#![tactic(auto)]

ghost use Rattle.std.specs.Prelude.{◌≡◌, List, ℕ, ◌≤◌, length};
ghost use Rattle.lent.specs.Bytes.{part};
ghost use Rattle.opc.specs.Op.{Code};
ghost use Rattle.tables.specs.inner.Entries.{Records};
ghost use Rattle.ast.specs.Tree.{Stmts};
ghost use Rattle.ast.specs.File.{Tree, read_tree};
ghost use Rattle.ast.specs.inner.Answer.{answer_of};
ghost use Rattle.lent.specs.Answered.{answered};
ghost use Rattle.lent.specs.inner.Answers.{answer_number};
ghost use Rattle.compiler.specs.Lower.{Event, refusal};
ghost use Rattle.boundary.specs.LowerCall.{lower_call};
ghost use Rattle.lower.specs.inner.Compile.{Spelt, Cleared, Compiled, finished};
ghost use Rattle.lent.specs.Lists.{zeros};

use lent::refusal::Refusal;

// 6 as a pass has it.
const NO_REGISTER: u16 = Refusal::NoRegister as u16;

// The tables of the n records, their count and the code start.
fn finish(program: &mut [u8], n: usize, start: usize)
    requires in_bounds { (40960 ≤ length program.old) × (n ≤ 1024) × (part program.old 32768 2048 ≡ zeros 2048) × (part program.old 34816 128 ≡ zeros 128) }
    requires records { (cs : Code) × Records cs n program.old }
    ensures { (cs : Code) → Records cs n program.old → program.new ≡ finished cs n start program.old }
{
    tables::compute(program, n);
    lent::put_u16(program, tables::PROGRAM_COUNT, n as u64);
    lent::put_u16(program, tables::PROGRAM_START, start as u64);
}

// Whether a node declares a function.
fn declares(entries: &[u8]) -> bool {
    entries
        .chunks_exact(ast::NODE_SIZE)
        .any(|node| node[0] == ast::KIND_FN_DECL)
}

// What a pass left as refused: 0 for nothing, or 6 or 7.
fn passed(refused: u16) -> Result<(), Refusal>
    ensures { (es : List Event) (r k : ℕ) → refused ≡ refusal es r k → answer_number result ≡ refused }
{
    match refused {
        0 => Ok(()),
        NO_REGISTER => Err(Refusal::NoRegister),
        _ => Err(Refusal::ScriptTooLarge),
    }
}

// A tree with declarations: the first pass writes them and gives every refusal, the second writes the code.
fn compile_both(entries: &[u8], bodies: &[u8], program: &mut [u8]) -> Result<(), Refusal>
    requires spelt { (t : Stmts) × Spelt t entries.now bodies.now }
    requires by_index { (rest : List ℕ) × Cleared rest program.old }
    ensures { (t : Stmts) (rest : List ℕ) → Spelt t entries.now bodies.now → Cleared rest program.old → Compiled t rest (answer_number result) program.new }
{
    let decls = emit::Low {
        reg: 0,
        decls: true,
        count: 0,
        recs: 0,
        items: 0,
        refused: 0,
    };
    let d = stmt::lower_tree(entries, bodies, decls, program);
    passed(d.refused)?;
    let code = emit::Low {
        reg: 0,
        decls: false,
        count: 0,
        recs: d.recs,
        items: d.items,
        refused: 0,
    };
    let c = stmt::lower_tree(entries, bodies, code, program);
    finish(program, c.recs as usize, d.recs as usize);
    Ok(())
}

// The program of a tree in a buffer of zeros, or 6 or 7. Where all instructions are code, one pass writes them; where a
// function is declared, two.
fn compile(entries: &[u8], bodies: &[u8], program: &mut [u8]) -> Result<(), Refusal>
    requires spelt { (t : Stmts) × Spelt t entries.now bodies.now }
    requires by_index { (rest : List ℕ) × Cleared rest program.old }
    ensures { (t : Stmts) (rest : List ℕ) → Spelt t entries.now bodies.now → Cleared rest program.old → Compiled t rest (answer_number result) program.new }
{
    if declares(entries) {
        return compile_both(entries, bodies, program);
    }
    let alone = emit::Low {
        reg: 0,
        decls: false,
        count: 0,
        recs: 0,
        items: 0,
        refused: 0,
    };
    let c = stmt::lower_tree(entries, bodies, alone, program);
    passed(c.refused)?;
    if c.recs == c.count {
        finish(program, c.recs as usize, 0);
        return Ok(());
    }
    lent::clear(program, tables::PROGRAM_SIZE);
    compile_both(entries, bodies, program)
}

// A file that holds a tree: its entries and its nodes' bodies are lowered.
fn lower_read(file: &[u8], program: &mut [u8]) -> Result<(), Refusal>
    requires file_value { answer_of (read_tree file.now) ≡ 0 }
    requires by_index { (rest : List ℕ) × Cleared rest program.old }
    ensures { (t : Stmts) (rest : List ℕ) → read_tree file.now ≡ Tree t → Cleared rest program.old → Compiled t rest (answer_number result) program.new }
{
    let first = ast::FILE_LENGTHS + file[ast::FILE_TEXT_COUNT] as usize;
    let size = first + ast::NODE_SIZE * (lent::get_u16(file, 0) as usize);
    let total = ast::bodies::text_bytes(&file[ast::FILE_LENGTHS..first]);
    compile(&file[first..size], &file[size + total..], program)
}

// The first refusal, or none and the file's program in the buffer.
pub fn lower(file: &[u8], program: &mut [u8]) -> Result<(), Refusal>
    ensures { answered (answer_number result) program.new ≡ lower_call file.now program.old }
{
    if program.len() < tables::PROGRAM_SIZE {
        return Err(Refusal::BufferTooShort);
    }
    lent::clear(program, tables::PROGRAM_SIZE);
    ast::read(file)?;
    if let Err(refusal) = lower_read(file, program) {
        lent::clear(program, tables::PROGRAM_SIZE);
        return Err(refusal);
    }
    Ok(())
}

// A program as text: the listing from its start line to its fn lines. What does not fit is cut.
#![tactic(auto)]

ghost use Rattle.std.specs.Prelude.{◌≡◌, map, ℕ, ◌+◌, ◌*◌, ◌≤◌, ◌<◌, length};
ghost use Rattle.std.proofs.Math.Option.{some};
ghost use Rattle.lent.specs.Bytes.{concat};
ghost use Rattle.opc.specs.Op.{Ldc, Stc, Fn};
ghost use Rattle.opc.specs.inner.Fetch.{fields_told, record_at};
ghost use Rattle.tables.specs.ProgramBytes.{decode_program};
ghost use Rattle.text.specs.Text.{ascii, single_text, joined, value_text, number_fields};
ghost use Rattle.text.specs.inner.Appended.{Appended};
ghost use Rattle.listing_text.specs.ProgramText.{bin_text, un_text, jmp_text, op_words, op_line, program_text};
ghost use Rattle.ops.specs.inner.Told.{bin_in, un_in, jmp_in, item_told, param_at, literal_told, op_in, Within, PooledTold, instr_at, entry_line, table_entry};
ghost use Rattle.lent.specs.Lists.{tabulate};
ghost use Rattle.tables.specs.ProgramBytes.{program_in};

use text::Writer;

// ---- kinds of operators and jumps by number: another number is as the last; of opc's enums, which are made from a
// number too, it would be the first

fn binary_name(kind: u8) -> &'static [u8]
    ensures { result.now ≡ bin_text (bin_in kind) }
{
    match kind {
        1 => b"Add",
        2 => b"Sub",
        3 => b"Mul",
        4 => b"Div",
        5 => b"Modu",
        6 => b"Eq",
        7 => b"Neq",
        8 => b"LtEq",
        9 => b"Lt",
        10 => b"GtEq",
        11 => b"Gt",
        12 => b"Land",
        13 => b"Lnot",
        _ => b"Lor",
    }
}

fn unary_name(kind: u8) -> &'static [u8]
    ensures { result.now ≡ un_text (un_in kind) }
{
    match kind {
        1 => b"Lneg",
        _ => b"Nneg",
    }
}

fn jump_name(kind: u8) -> &'static [u8]
    ensures { result.now ≡ jmp_text (jmp_in kind) }
{
    match kind {
        1 => b"Jmpt",
        _ => b"Jmpf",
    }
}

// ---- the pool

// The number of entry k, which is also the parameter that it holds.
fn entry_number(program: &[u8], k: usize) -> u64
    requires { (32768 ≤ length program.now) × (k < 1024) }
    ensures { result ≡ param_at program.now k }
{
    lent::get_u64(
        program,
        opc::PROGRAM_POOL + opc::ENTRY_SIZE * k + opc::ENTRY_NUMBER,
    )
}

// The single value of entry k.
fn put_item(w: &mut Writer, program: &[u8], k: usize)
    requires { (32768 ≤ length program.now) × (k < 1024) }
    ensures { Appended w.old (single_text (item_told program.now k)) w.new }
{
    let kind = program[opc::PROGRAM_POOL + opc::ENTRY_SIZE * k] as u64;
    w.put_single(sifv::single(kind, entry_number(program, k)));
}

// The n items from entry first on, commas between.
fn put_items(w: &mut Writer, program: &[u8], first: usize, n: usize)
    requires { (32768 ≤ length program.now) × Within first n }
    ensures { Appended w.old (joined (ascii ",") (map single_text (tabulate first n (item_told program.now)))) w.new }
{
    for i in 0..n {
        w.put_gap(i);
        put_item(w, program, first + i);
    }
}

// The n parameters from entry first on, a blank before each.
fn put_params(w: &mut Writer, program: &[u8], first: usize, n: usize)
    requires { (32768 ≤ length program.now) × Within first n }
    ensures { Appended w.old (number_fields (tabulate first n (param_at program.now))) w.new }
{
    for i in 0..n {
        w.put_field(entry_number(program, first + i));
    }
}

// ---- instructions

// The literal in the fields of a record: an array's items are in the pool; a table is empty.
fn put_literal(w: &mut Writer, program: &[u8], f: opc::Fields)
    requires { (32768 ≤ length program.now) × ((f.kind ≡ 5) → Within f.word f.len) }
    ensures { Appended w.old (value_text (literal_told program.now f.kind f.len f.word)) w.new }
{
    match f.kind {
        opc::ARR => {
            w.put_all(b"Arr:[");
            put_items(w, program, f.word as usize, f.len as usize);
            w.put_all(b"]");
        }
        opc::TAB => w.put_all(b"Tab:[]"),
        _ => w.put_single(sifv::single(f.kind as u64, f.word)),
    }
}

fn put_ldc(w: &mut Writer, program: &[u8], f: opc::Fields)
    requires { (32768 ≤ length program.now) × ((f.kind ≡ 5) → Within f.word f.len) }
    ensures { Appended w.old (joined (ascii " ") (op_words (Ldc f.a (literal_told program.now f.kind f.len f.word)))) w.new }
{
    w.put_words(b"Ldc", &[f.a as u64]);
    w.put_all(b" ");
    put_literal(w, program, f);
}

fn put_stc(w: &mut Writer, program: &[u8], f: opc::Fields)
    requires { (32768 ≤ length program.now) × ((f.kind ≡ 5) → Within f.word f.len) }
    ensures { Appended w.old (joined (ascii " ") (op_words (Stc (literal_told program.now f.kind f.len f.word) f.a))) w.new }
{
    w.put_all(b"Stc ");
    put_literal(w, program, f);
    w.put_field(f.a as u64);
}

fn put_fn(w: &mut Writer, program: &[u8], f: opc::Fields)
    requires { (32768 ≤ length program.now) × Within f.word f.len }
    ensures { Appended w.old (joined (ascii " ") (op_words (Fn f.a (tabulate f.word f.len (param_at program.now))))) w.new }
{
    w.put_words(b"Fn", &[f.a as u64]);
    put_params(w, program, f.word as usize, f.len as usize);
}

// The operation that the fields of a record tell, by its number (docs/FORMATS.md), and its operands.
fn put_op(w: &mut Writer, program: &[u8], f: opc::Fields)
    requires { (32768 ≤ length program.now) × PooledTold f.word (op_in program.now (fields_told f)) }
    ensures { Appended w.old (joined (ascii " ") (op_words (op_in program.now (fields_told f)))) w.new }
{
    let a = f.a as u64;
    let b = f.b as u64;
    let c = f.c as u64;
    match f.code {
        opc::OP_BINARY => {
            w.put_all(b"Binary ");
            w.put_words(binary_name(f.kind), &[a, b, c]);
        }
        opc::OP_UNARY => {
            w.put_all(b"Unary ");
            w.put_words(unary_name(f.kind), &[a, b]);
        }
        opc::OP_LDC => put_ldc(w, program, f),
        opc::OP_LDN => w.put_words(b"Ldn", &[a, b]),
        opc::OP_MV => w.put_words(b"Mv", &[a, b]),
        opc::OP_LDAS => w.put_words(b"Ldas", &[a, b]),
        opc::OP_LDAV => w.put_words(b"Ldav", &[a, b, c]),
        opc::OP_UPDA => w.put_words(b"Upda", &[a, b, c]),
        opc::OP_STC => put_stc(w, program, f),
        opc::OP_STN => w.put_words(b"Stn", &[a, b]),
        opc::OP_STR => w.put_words(b"Str", &[a, b]),
        opc::OP_JMP_CND => {
            w.put_all(b"JmpCnd ");
            w.put_words(jump_name(f.kind), &[a, f.word]);
        }
        opc::OP_JMPA => w.put_words(b"Jmpa", &[f.word]),
        opc::OP_INCRR => w.put_words(b"Incrr", &[a]),
        opc::OP_DECRR => w.put_words(b"Decrr", &[a]),
        opc::OP_FN => put_fn(w, program, f),
        opc::OP_CALL => w.put_words(b"Call", &[a, f.word]),
        opc::OP_FN_RET => w.put_all(b"FnRet"),
        opc::OP_FN_STACK_PUSH => w.put_words(b"FnStackPush", &[a]),
        opc::OP_FN_STACK_POP => w.put_words(b"FnStackPop", &[a]),
        opc::OP_TBLI => w.put_words(b"Tbli", &[a, b, c]),
        opc::OP_TBLG => w.put_words(b"Tblg", &[a, b, c]),
        opc::OP_NOP => w.put_all(b"Nop"),
        _ => w.put_all(b"Stop"),
    }
}

// The line of instruction i: index, label, operation, operands.
fn put_instr(w: &mut Writer, program: &[u8], i: usize)
    requires { (40960 ≤ length program.now) × (i < 1024) × PooledTold (record_at program.now i).word (op_in program.now (record_at program.now i)) }
    ensures { Appended w.old (op_line i (instr_at program.now i)) w.new }
{
    let f = opc::fetch_fields(program, i);
    w.put_words(b"op", &[i as u64, f.lbl]);
    w.put_all(b" ");
    put_op(w, program, f);
    w.put_all(b"\n");
}

// The lines of the first n instructions.
fn put_code(w: &mut Writer, program: &[u8], n: usize)
    requires { (40960 ≤ length program.now) × (n ≤ 1024) × ((i : ℕ) → i < n → PooledTold (record_at program.now i).word (op_in program.now (record_at program.now i))) }
    ensures { Appended w.old (concat (tabulate 0 n (λ i. op_line i (instr_at program.now i)))) w.new }
{
    for i in 0..n {
        put_instr(w, program, i);
    }
}

// ---- tables

// The line of number i, where it has an index: entry is 0, or the index and 1.
fn put_entry(w: &mut Writer, name: &[u8], i: usize, entry: u64)
    ensures { Appended w.old (entry_line name.now i entry) w.new }
{
    if entry > 0 {
        w.put_line(name, &[i as u64, entry - 1]);
    }
}

// The lines of the table of n entries at byte base.
fn put_table(w: &mut Writer, program: &[u8], name: &[u8], base: usize, n: usize)
    requires { (n ≤ 1024) × (base + n * 2 ≤ length program.now) }
    ensures { Appended w.old (concat (tabulate 0 n (λ i. entry_line name.now i (table_entry program.now base i)))) w.new }
{
    for i in 0..n {
        let entry = lent::get_u16(program, base + i * tables::INDEX_SIZE);
        put_entry(w, name, i, entry);
    }
}

// ---- the whole

// Code start, instructions, labels, functions.
pub fn put_program(w: &mut Writer, program: &[u8])
    requires { (40960 ≤ length program.now) × (decode_program program.now ≡ some (program_in program.now)) }
    ensures { Appended w.old (program_text (program_in program.now)) w.new }
{
    w.put_line(b"start", &[program::start_of(program) as u64]);
    put_code(w, program, program::count_of(program));
    put_table(w, program, b"label", tables::PROGRAM_LABELS, tables::LABELS);
    put_table(w, program, b"fn", tables::PROGRAM_FUNCTIONS, lent::TEXTS);
}

// The program check (8): whether a buffer holds a program.
#![tactic(auto)]

ghost use Rattle.std.specs.Prelude.{◌≡◌, true, cond, ◌&&◌, ℕ, ◌+◌, ◌*◌, ◌/◌, ◌%◌, ◌≤◌, ◌<◌, leb, ltb, eqb, length, get_or, set};
ghost use Rattle.std.proofs.Math.Option.{some};
ghost use Rattle.lent.specs.Bytes.{be_value, part};
ghost use Rattle.tables.specs.Tables.{Program};
ghost use Rattle.tables.specs.ProgramBytes.{decode_program};
ghost use Rattle.records.specs.inner.Fits.{all_from, record_ok};
ghost use Rattle.program.specs.inner.Marked.{marked, lbl_of, few_label, enters, label_entry, name_of, is_fn, function_entry, same_table};
ghost use Rattle.lent.specs.Lists.{is_some};

// The labels of a short table.
const FEW: usize = 128;

// The label of record i.
fn label(program: &[u8], i: usize) -> u64
    requires { (40960 ≤ length program.now) × (i < 1024) }
    ensures { result ≡ lbl_of program.now i }
{
    lent::get_u16(program, opc::RECORD_SIZE * i + opc::RECORD_LABEL)
}

// The entry k of a table, while it is made, goes to index i, where it is new. An index is kept with
// 2 added; 1 is none. (Not 0: a large array of zeros is filled by a call of C's memset. No `Option`,
// which takes twice the bytes: the stored table is compared with it, many entries at once.)
fn mark(t: &mut [u16], new: bool, k: usize, i: usize)
    requires { (i < 1024) × (new ≡ true → k < length t.old) }
    ensures { t.new ≡ cond new (set t.old k (i + 2)) t.old }
{
    if new {
        t[k] = (i + 2) as u16;
        return;
    }
}

// Label 0 to index 0, then each label to the last index that enters it from another label.
fn fill_labels(program: &[u8], n: usize, t: &mut [u16])
    requires { (40960 ≤ length program.now) × (n ≤ 1024) × ((i : ℕ) → i < n → lbl_of program.now i < length t.old) × (0 < length t.old) }
    ensures { (length t.new ≡ length t.old) × ((l : ℕ) → l < length t.old → get_or t.new l 0 ≡ marked (enters program.now) (lbl_of program.now) l n 0 (cond (ltb 0 n && eqb 0 l) 2 (get_or t.old l 0))) }
{
    mark(t, 0 < n, 0, 0);
    let mut was = label(program, 0);
    for i in 0..n {
        let l = label(program, i);
        mark(t, l != was, l as usize, i);
        was = l;
    }
}

// Each function to the last index that declares it.
fn fill_functions(program: &[u8], n: usize, t: &mut [u16])
    requires { (40960 ≤ length program.now) × (n ≤ 1024) × (all_from n 0 (record_ok program.now) ≡ true) × (length t.old ≡ 64) }
    ensures { (length t.new ≡ 64) × ((x : ℕ) → x < 64 → get_or t.new x 0 ≡ marked (is_fn program.now) (name_of program.now) x n 0 (get_or t.old x 0)) }
{
    for i in 0..n {
        let at = opc::RECORD_SIZE * i;
        mark(
            t,
            program[at] == opc::OP_FN,
            program[at + opc::RECORD_A] as usize,
            i,
        );
    }
}

// An entry of a stored table.
fn entry_at(program: &[u8], at: usize) -> u16
    requires { at + 2 ≤ length program.now }
    ensures { result ≡ be_value (part program.now at 2) }
{
    u16::from_be_bytes([program[at], program[at + 1]])
}

// Whether the table at byte at is t. Numbers of 16 bits, so that many are compared at once.
fn same_table(program: &[u8], at: usize, t: &[u16]) -> bool
    requires { (at + 2 * length t.now ≤ length program.now) × ((l : ℕ) → l < length t.now → 1 ≤ get_or t.now l 0) }
    ensures { result ≡ same_table program.now at (length t.now) (λ l. get_or t.now l 0) }
{
    let mut ok = true;
    for (l, entry) in t.iter().enumerate() {
        ok = ok & (entry_at(program, at + tables::INDEX_SIZE * l) == *entry - 1);
    }
    ok
}

// Whether the first N entries of the table of labels are right, where each label is below N.
fn labels_agree<const N: usize>(program: &[u8], n: usize) -> bool
    requires { (40960 ≤ length program.now) × (n ≤ 1024) × ((i : ℕ) → i < n → lbl_of program.now i < N) × (0 < N) × (N ≤ 1024) }
    ensures { result ≡ same_table program.now 32768 N (label_entry program.now n) }
{
    let mut t = [1u16; N];
    fill_labels(program, n, &mut t);
    same_table(program, tables::PROGRAM_LABELS, &t)
}

// Whether a program is short, and its labels are below 128.
fn has_few(program: &[u8], n: usize) -> bool
    requires { (40960 ≤ length program.now) × (n ≤ 1024) }
    ensures { result ≡ (leb n 128 && all_from n 0 (few_label program.now)) }
{
    if FEW < n {
        return false;
    }
    let mut ok = true;
    for i in 0..n {
        ok = ok & ((label(program, i) as usize) < FEW);
    }
    ok
}

// Of a program with few labels the table is a short one, and zeros behind it.
fn labels_ok(program: &[u8], n: usize) -> bool
    requires { (40960 ≤ length program.now) × (n ≤ 1024) × (all_from n 0 (record_ok program.now) ≡ true) }
    ensures { result ≡ same_table program.now 32768 1024 (label_entry program.now n) }
{
    if has_few(program, n) {
        let rest = tables::PROGRAM_LABELS + tables::INDEX_SIZE * FEW;
        return labels_agree::<FEW>(program, n)
            & lent::all_zero(program, rest, tables::PROGRAM_FUNCTIONS - rest);
    }
    labels_agree::<{ tables::LABELS }>(program, n)
}

fn functions_ok(program: &[u8], n: usize) -> bool
    requires { (40960 ≤ length program.now) × (n ≤ 1024) × (all_from n 0 (record_ok program.now) ≡ true) }
    ensures { result ≡ same_table program.now 34816 64 (function_entry program.now n) }
{
    let mut t = [1u16; lent::TEXTS];
    fill_functions(program, n, &mut t);
    same_table(program, tables::PROGRAM_FUNCTIONS, &t)
}

// How many instructions a program has, and where its code starts.
pub fn count_of(program: &[u8]) -> usize
    requires { 40960 ≤ length program.now }
    ensures { (p : Program) → decode_program program.now ≡ some p → result ≡ length p.code }
{
    lent::get_u16(program, tables::PROGRAM_COUNT) as usize
}

pub fn start_of(program: &[u8]) -> usize
    requires { 40960 ≤ length program.now }
    ensures { (p : Program) → decode_program program.now ≡ some p → result ≡ p.code_start }
{
    lent::get_u16(program, tables::PROGRAM_START) as usize
}

// Whether the buffer holds a program. The tables are looked at where the records are in range, for
// their places.
pub fn program_ok(program: &[u8]) -> bool
    requires { 40960 ≤ length program.now }
    ensures { result ≡ is_some (decode_program program.now) }
{
    let n = lent::get_u16(program, tables::PROGRAM_COUNT) as usize;
    let start = lent::get_u16(program, tables::PROGRAM_START) as usize;
    if opc::INSTRUCTIONS < n {
        return false;
    }
    if n < start {
        return false;
    }
    if !records::records_ok(program, n) {
        return false;
    }
    if !records::pool_ok(program, n) {
        return false;
    }
    labels_ok(program, n) & functions_ok(program, n)
}

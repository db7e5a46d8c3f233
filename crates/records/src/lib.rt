// The records and the pool of a program, looked at one by one: what the program check (8) tests of them.
#![tactic(auto)]

ghost use Rattle.std.specs.Prelude.{◌≡◌, ◌+◌, ◌/◌, ◌%◌, ◌<◌, ◌≤◌, true, not, ◌&&◌, ◌||◌, [], ◌∷◌, length, if◌then◌else◌, ◌==◌, bit_and, Some, None};
ghost use Rattle.opc.specs.inner.Fetch.{record_at};
ghost use Rattle.records.specs.inner.Fits.{all_from, limits_of, is_literal, record_ok, is_array, entry_ok, span_fits, entries_fit, pooled, taken, pool_fits};
ghost use Rattle.lent.specs.inner.Words.{le_value, eight};
ghost use Rattle.records.specs.inner.Lanes.{limit_words, single_mask};

// Eight bytes as one number, the first the lowest, in a function of its own: the compiler makes one read of them here, and not where it is inlined with the tests.
fn eight_at(program: &[u8], at: usize) -> u64
    requires { at + 8 ≤ length program.now }
    ensures { result ≡ le_value (eight program.now at) }
{
    lent::low8(program, at)
}

// What an operation allows. A record's first eight bytes fit where no bit of the mask is set in
// them, nor in their sum with `add`: a byte of at most n, below 128, has bit 7 in the mask and
// 127 - n in `add`. The highest byte of `add` is the least kind. The other eight bytes fit where
// no bit of `word` is set in them. One `match` with values for each operation, and no `if` on what
// comes of it: so they are tables in read-only memory.
#[derive(Clone, Copy)]
struct Allowed {
    mask: u64,
    add: u64,
    word: u64,
}

fn limits(code: u8) -> Allowed
    ensures { (result.mask ∷ result.add ∷ result.word ∷ []) ≡ limit_words (limits_of code) }
{
    match code {
        opc::OP_BINARY => Allowed {
            mask: 0x0080_8080_0080_8000,
            add: 0x0120_2020_007c_7100,
            word: 0x0000_0000_0000_0000,
        },
        opc::OP_UNARY => Allowed {
            mask: 0x0000_8080_0080_8000,
            add: 0x0100_2020_007c_7d00,
            word: 0x0000_0000_0000_0000,
        },
        opc::OP_LDC => Allowed {
            mask: 0x0000_0080_0080_8000,
            add: 0x0100_0020_007c_7900,
            word: 0x0000_0000_0000_0000,
        },
        opc::OP_LDN => Allowed {
            mask: 0x0000_8080_0080_0000,
            add: 0x0000_4020_007c_0000,
            word: 0x0000_0000_0000_0000,
        },
        opc::OP_MV => Allowed {
            mask: 0x0000_8080_0080_0000,
            add: 0x0000_2020_007c_0000,
            word: 0x0000_0000_0000_0000,
        },
        opc::OP_LDAS => Allowed {
            mask: 0x0000_8080_0080_0000,
            add: 0x0000_2040_007c_0000,
            word: 0x0000_0000_0000_0000,
        },
        opc::OP_LDAV => Allowed {
            mask: 0x0080_8080_0080_0000,
            add: 0x0020_2040_007c_0000,
            word: 0x0000_0000_0000_0000,
        },
        opc::OP_UPDA => Allowed {
            mask: 0x0080_8080_0080_0000,
            add: 0x0020_2040_007c_0000,
            word: 0x0000_0000_0000_0000,
        },
        opc::OP_STC => Allowed {
            mask: 0x0000_0080_0080_8000,
            add: 0x0100_0040_007c_7900,
            word: 0x0000_0000_0000_0000,
        },
        opc::OP_STN => Allowed {
            mask: 0x0000_8080_0080_0000,
            add: 0x0000_4040_007c_0000,
            word: 0x0000_0000_0000_0000,
        },
        opc::OP_STR => Allowed {
            mask: 0x0000_8080_0080_0000,
            add: 0x0000_4020_007c_0000,
            word: 0x0000_0000_0000_0000,
        },
        opc::OP_JMP_CND => Allowed {
            mask: 0x0000_0080_0080_8000,
            add: 0x0100_0020_007c_7d00,
            word: 0x00fc_ffff_ffff_ffff,
        },
        opc::OP_JMPA => Allowed {
            mask: 0x0000_0000_0080_0000,
            add: 0x0000_0000_007c_0000,
            word: 0x00fc_ffff_ffff_ffff,
        },
        opc::OP_INCRR => Allowed {
            mask: 0x0000_0080_0080_0000,
            add: 0x0000_0020_007c_0000,
            word: 0x0000_0000_0000_0000,
        },
        opc::OP_DECRR => Allowed {
            mask: 0x0000_0080_0080_0000,
            add: 0x0000_0020_007c_0000,
            word: 0x0000_0000_0000_0000,
        },
        opc::OP_FN => Allowed {
            mask: 0x0000_0080_0080_0000,
            add: 0x0000_0040_007c_0000,
            word: 0x0000_0000_0000_0000,
        },
        opc::OP_CALL => Allowed {
            mask: 0x0000_0080_0080_0000,
            add: 0x0000_0040_007c_0000,
            word: 0x00ff_ffff_ffff_ffff,
        },
        opc::OP_FN_RET => Allowed {
            mask: 0x0000_0000_0080_0000,
            add: 0x0000_0000_007c_0000,
            word: 0x0000_0000_0000_0000,
        },
        opc::OP_FN_STACK_PUSH => Allowed {
            mask: 0x0000_0080_0080_0000,
            add: 0x0000_0020_007c_0000,
            word: 0x0000_0000_0000_0000,
        },
        opc::OP_FN_STACK_POP => Allowed {
            mask: 0x0000_0080_0080_0000,
            add: 0x0000_0020_007c_0000,
            word: 0x0000_0000_0000_0000,
        },
        opc::OP_TBLI => Allowed {
            mask: 0x0080_8080_0080_0000,
            add: 0x0020_4040_007c_0000,
            word: 0x0000_0000_0000_0000,
        },
        opc::OP_TBLG => Allowed {
            mask: 0x0080_8080_0080_0000,
            add: 0x0020_4040_007c_0000,
            word: 0x0000_0000_0000_0000,
        },
        opc::OP_NOP => Allowed {
            mask: 0x0000_0000_0080_0000,
            add: 0x0000_0000_007c_0000,
            word: 0x0000_0000_0000_0000,
        },
        opc::OP_STOP => Allowed {
            mask: 0x0000_0000_0080_0000,
            add: 0x0000_0000_007c_0000,
            word: 0x0000_0000_0000_0000,
        },
        _ => Allowed {
            mask: 0x0000_0000_0080_8000,
            add: 0x0100_0000_007c_7f00,
            word: 0x0000_0000_0000_0000,
        },
    }
}

// What no number of a single value's kind has.
fn single_mask(kind: u64) -> u64
    ensures { result ≡ le_value (single_mask kind) }
{
    match kind {
        2 => 0xc0ff_ffff_ffff_ffff,
        3 => 0xfeff_ffff_ffff_ffff,
        _ => 0,
    }
}

fn is_literal(code: u8) -> bool
    ensures { result ≡ is_literal code }
{
    (code == opc::OP_LDC) | (code == opc::OP_STC)
}

fn is_array(code: u8, kind: u8) -> bool
    ensures { result ≡ is_array code kind }
{
    is_literal(code) & (kind == opc::ARR)
}

// A literal's text or yes/no; an empty table's length: for a record of the bytes h and w that is
// right but for that. The operation is taken from h: an `if` on the byte that the `match` is on
// would undo its tables.
fn literal_ok(h: u64, w: u64, ok: bool) -> bool
    ensures { result ≡ (ok && (not (is_literal (h % 256)) || (bit_and w (le_value (single_mask (h / 256 % 256))) == 0 && (not (h / 256 % 256 == 6) || h / 72057594037927936 == 0)))) }
{
    let code = h % 256;
    if (code == 3) | (code == 9) {
        let kind = h / 256 % 256;
        let number = (w & single_mask(kind)) == 0;
        return ok & (number & (!(kind == 6) | (h / 72057594037927936 == 0)));
    }
    ok
}

// Whether a record is in range; its items and parameters are looked at apart.
fn record_ok(program: &[u8], i: usize) -> bool
    requires { (40960 ≤ length program.now) × (i < 1024) }
    ensures { result ≡ record_ok program.now i }
{
    let at = opc::RECORD_SIZE * i;
    let m = limits(program[at]);
    let h = eight_at(program, at);
    let w = eight_at(program, at + opc::RECORD_NUMBER);
    let sum = h.wrapping_add(m.add);
    let most = ((h & m.mask) == 0) & ((sum & m.mask) == 0);
    let fields = most & (m.add / 72057594037927936 <= h / 256 % 256);
    literal_ok(h, w, fields & ((w & m.word) == 0))
}

// Whether the first n records are.
pub fn records_ok(program: &[u8], n: usize) -> bool
    requires { (40960 ≤ length program.now) × (n ≤ 1024) }
    ensures { result ≡ all_from n 0 (record_ok program.now) }
{
    let mut ok = true;
    for i in 0..n {
        ok = ok & record_ok(program, i);
    }
    ok
}

// Whether the entry k of the pool has a kind from least to most, and a number of that kind.
fn entry_ok(program: &[u8], k: usize, least: u8, most: u8) -> bool
    requires { (40960 ≤ length program.now) × (k < 1024) }
    ensures { result ≡ entry_ok least most program.now k }
{
    let at = opc::PROGRAM_POOL + opc::ENTRY_SIZE * k;
    let kind = program[at];
    let number = (eight_at(program, at + opc::ENTRY_NUMBER) & single_mask(kind as u64)) == 0;
    (least <= kind) & ((kind <= most) & number)
}

// Whether the n entries from `from` on have.
fn entries_ok(program: &[u8], from: usize, n: usize, least: u8, most: u8) -> bool
    requires { (40960 ≤ length program.now) × (from + n ≤ 1024) }
    ensures { result ≡ all_from n from (entry_ok least most program.now) }
{
    let mut ok = true;
    for k in from..from + n {
        ok = ok & entry_ok(program, k, least, most);
    }
    ok
}

// Whether n entries, at most `most`, begin at next, as their record says, and end within the pool.
fn span_ok(most: usize, n: usize, start: u64, next: usize) -> bool
    requires { (next ≤ 1024) × (n < 256) }
    ensures { result ≡ span_fits most n start next }
{
    (n <= most) & ((start == next as u64) & (next + n <= opc::ENTRIES))
}

// The entries of record i, at most `most`, of kinds from lo to hi: where those of the next record begin.
fn entries(program: &[u8], i: usize, most: usize, lo: u8, hi: u8, next: usize) -> Option<usize>
    requires { (40960 ≤ length program.now) × (i < 1024) × (next ≤ 1024) }
    ensures { result ≡ (if entries_fit most lo hi (record_at program.now i) next program.now then Some (next + (record_at program.now i).len) else None) }
{
    let at = opc::RECORD_SIZE * i;
    let n = program[at + opc::RECORD_LENGTH] as usize;
    let start = lent::get_u64(program, at + opc::RECORD_NUMBER);
    if span_ok(most, n, start, next) && entries_ok(program, next, n, lo, hi) {
        return Some(next + n);
    }
    None
}

// The entries of record i, of any operation: an array's items, a function's parameters, or none.
fn own(program: &[u8], i: usize, next: usize) -> Option<usize>
    requires { (40960 ≤ length program.now) × (i < 1024) × (next ≤ 1024) }
    ensures { result ≡ (if pooled (record_at program.now i) next program.now then Some (next + taken (record_at program.now i)) else None) }
{
    let at = opc::RECORD_SIZE * i;
    let code = program[at];
    let kind = program[at + opc::RECORD_KIND];
    if is_array(code, kind) {
        return entries(program, i, lent::ARRAY_ITEMS, 1, 4, next);
    }
    if code == opc::OP_FN {
        return entries(program, i, opc::PARAMETERS, 2, 2, next);
    }
    Some(next)
}

// Whether an operation may have entries.
fn may_pool(code: u8) -> bool
    ensures { result ≡ (is_literal code || code == 16) }
{
    matches!(code, opc::OP_LDC | opc::OP_STC | opc::OP_FN)
}

// The same; most operations have none.
fn pooled(program: &[u8], i: usize, next: usize) -> Option<usize>
    requires { (40960 ≤ length program.now) × (i < 1024) × (next ≤ 1024) }
    ensures { result ≡ (if pooled (record_at program.now i) next program.now then Some (next + taken (record_at program.now i)) else None) }
{
    if may_pool(program[opc::RECORD_SIZE * i]) {
        return own(program, i, next);
    }
    Some(next)
}

// Whether the entries of the first n records follow one another in the pool, and are right.
pub fn pool_ok(program: &[u8], n: usize) -> bool
    requires { (40960 ≤ length program.now) × (n ≤ 1024) }
    ensures { result ≡ pool_fits n 0 0 program.now }
{
    let mut next = Some(0);
    for i in 0..n {
        if let Some(from) = next {
            next = pooled(program, i, from);
        }
    }
    next.is_some()
}

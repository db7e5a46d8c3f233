// Values, and value slots in lent bytes.
#![tactic(auto)]

pub mod table;

ghost use Rattle.std.specs.Prelude.{◌≡◌, ◌+◌, ◌%◌, ◌^◌, ◌≤◌, ◌<◌, min, cond, ◌&&◌, ◌++◌, leb, ltb, length, get_or};
ghost use Rattle.std.proofs.Math.Option.{some};
ghost use Rattle.sifv.specs.Value.{One, Num, Bl};
ghost use Rattle.lent.specs.Bytes.{part, splice};
ghost use Rattle.sifv.specs.Slot.{single_kind, word_of, single_of, encode_slot, decode_slot, slot_ok};
ghost use Rattle.sifv.specs.inner.Seen.{shown, seen, single_seen, bare, head_bytes, kind_in, word_in, ReadBack, slot_item, set_item, keys_ok, one_ok, arr_ok, tab_ok};
ghost use Rattle.sifv.specs.inner.Tests.{word_bound, item_ok, item_test, number_test, moderate_test, box_ok};
ghost use Rattle.sifv.specs.inner.StoredForm.{stored_of};
ghost use Rattle.lent.specs.Lists.{zeros, upto};
ghost use Rattle.sifv.specs.inner.Forms.{Formed, len_in};

// A value slot: specs/Slot.antt. Its kind is byte 0.
pub const VALUE_SIZE: usize = 256;

pub const VALUE_LENGTH: usize = 1;

pub const VALUE_NUMBER: usize = 8;

pub const VALUE_ITEM_KINDS: usize = 16;

pub const VALUE_ITEMS: usize = 40;

pub const VALUE_KEYS: usize = 232;

// A single value's number, an item's too.
pub const NUMBER_SIZE: usize = 8;

// The last byte of a slot's number.
const TRUTH: usize = VALUE_NUMBER + NUMBER_SIZE - 1;

// Bytes from one place of a slot to another: the zeros behind the length, up to the number and to the items; what
// only arrays and tables have; the items' numbers; the keys and the zeros behind them.
const LENGTH_REST_SIZE: usize = VALUE_NUMBER - VALUE_LENGTH;

const HEAD_REST: usize = VALUE_LENGTH + 1;

const HEAD_REST_SIZE: usize = VALUE_ITEM_KINDS - HEAD_REST;

const CONTENTS_SIZE: usize = VALUE_SIZE - VALUE_ITEM_KINDS;

const ITEMS_SIZE: usize = VALUE_KEYS - VALUE_ITEMS;

const KEYS_SIZE: usize = VALUE_SIZE - VALUE_KEYS;

// The limits as numbers.
const TEXTS: u64 = lent::TEXTS as u64;

const ARRAY_ITEMS: u64 = lent::ARRAY_ITEMS as u64;

const TABLE_ITEMS: u64 = lent::TABLE_ITEMS as u64;

// A value as the program holds it; the contents of an array and a table stay in their slot.
// Empty: an empty register, or a name that is not set.
#[derive(Clone, Copy)]
pub enum SifVal {
    Empty,
    Num(f64),
    Str(u64),
    Bl(bool),
    Null,
    Arr(u64),
    Tab(u64),
}

// A single value from its kind and its number.
pub fn single(kind: u64, word: u64) -> SifVal
    ensures { result ≡ shown (single_of kind word) }
{
    if kind == 1 {
        return SifVal::Num(numeric::from_bits(word));
    }
    if kind == 2 {
        return SifVal::Str(word);
    }
    if kind == 3 {
        return SifVal::Bl(word == 1);
    }
    SifVal::Null
}

// The kind of a value, as its slot has it.
pub fn kind_of(v: SifVal) -> u8
    ensures { (result ≡ kind_in v) × (result < 7) }
{
    match v {
        SifVal::Empty => 0,
        SifVal::Num(_) => 1,
        SifVal::Str(_) => 2,
        SifVal::Bl(_) => 3,
        SifVal::Null => 4,
        SifVal::Arr(_) => 5,
        SifVal::Tab(_) => 6,
    }
}

// The number of a value. That v reads back from it follows only where v's number fits its
// format: it is said here so that no caller has to show that.
pub fn word_of(v: SifVal) -> u64
    ensures { (result ≡ word_in v) × ReadBack (single_seen v) }
{
    match v {
        SifVal::Empty | SifVal::Null | SifVal::Arr(_) | SifVal::Tab(_) => 0,
        SifVal::Num(x) => numeric::bits_of(x),
        SifVal::Str(t) => t,
        SifVal::Bl(b) => u64::from(b),
    }
}

// The value that the slot at byte at shows.
pub fn get(s: &[u8], at: usize) -> SifVal
    requires { at + 256 ≤ length s.now }
    ensures { result ≡ seen (decode_slot (part s.now at 256)) }
{
    let kind = lent::wide(s[at]);
    if kind == 0 {
        return SifVal::Empty;
    }
    if kind <= 4 {
        return single(kind, lent::get_u64(s, at + VALUE_NUMBER));
    }
    let n = lent::wide(s[at + VALUE_LENGTH]);
    if kind == 5 {
        return SifVal::Arr(n.min(ARRAY_ITEMS));
    }
    if kind == 6 {
        return SifVal::Tab(n.min(TABLE_ITEMS));
    }
    SifVal::Empty
}

// Item i of the slot at byte at.
pub fn get_item(s: &[u8], at: usize, i: usize) -> SifVal
    requires { (at + 256 ≤ length s.now) × (i < 24) }
    ensures { result ≡ shown (slot_item (part s.now at 256) i) }
{
    let kind = lent::wide(s[at + (VALUE_ITEM_KINDS + i)]);
    single(kind, lent::get_u64(s, at + (VALUE_ITEMS + i * NUMBER_SIZE)))
}

// The kind of a single value.
pub fn item_kind(v: SifVal) -> u8
    ensures { result ≡ single_kind (single_seen v) }
{
    match v {
        SifVal::Num(_) => 1,
        SifVal::Str(_) => 2,
        SifVal::Bl(_) => 3,
        SifVal::Empty | SifVal::Null | SifVal::Arr(_) | SifVal::Tab(_) => 4,
    }
}

// A single value, written as item i of the slot at byte at.
pub fn put_item(s: &mut [u8], at: usize, i: usize, v: SifVal)
    requires { (at + 256 ≤ length s.old) × (i < 24) }
    ensures { (s.new ≡ splice s.old at (set_item (part s.old at 256) i (single_seen v))) × ReadBack (single_seen v) }
{
    let k = at + (VALUE_ITEM_KINDS + i);
    s[k] = item_kind(v);
    lent::put_u64(s, at + (VALUE_ITEMS + i * NUMBER_SIZE), word_of(v));
}

// ---- whether a slot is the one form of a value that may be stored. No loop has a branch or is left early.

// The numbers of a kind are below it; 2 ^ 64 - 1 is a NaN's. All eight cases are told: they become a table.
fn word_bound(kind: u64) -> u64
    ensures { result ≡ word_bound (kind % 8) }
{
    match kind % 8 {
        0 => 0,
        1 => 0xffff_ffff_ffff_ffff,
        2 => TEXTS,
        3 => 2,
        4 => 1,
        5 => 0,
        6 => 0,
        _ => 0,
    }
}

// Whether a kind and a number are the one form of a single value that may be stored.
fn item_ok(kind: u64, word: u64) -> bool
    ensures { result ≡ item_ok kind word }
{
    (kind < 8) & ((word < word_bound(kind)) & (numeric::canonical(word) == word))
}

// Whether the first n items are so.
fn each_ok(s: &[u8], at: usize, n: usize) -> bool
    requires { (at + 256 ≤ length s.now) × (n ≤ 24) }
    ensures { result ≡ upto n (item_test (part s.now at 256)) }
{
    let mut ok = true;
    for i in 0..n {
        ok = ok
            & item_ok(
                lent::wide(s[at + (VALUE_ITEM_KINDS + i)]),
                lent::get_u64(s, at + (VALUE_ITEMS + i * NUMBER_SIZE)),
            );
    }
    ok
}

// Whether the first n items are numbers.
fn numbers(s: &[u8], at: usize, n: usize) -> bool
    requires { (at + 256 ≤ length s.now) × (n ≤ 24) }
    ensures { result ≡ upto n (number_test (part s.now at 256)) }
{
    let mut ok = true;
    for i in 0..n {
        ok = ok & (s[at + (VALUE_ITEM_KINDS + i)] == 1);
    }
    ok
}

// Whether they are below 2 ^ 1009: by their first bytes. No NaN is.
fn moderate(s: &[u8], at: usize, n: usize) -> bool
    requires { (at + 256 ≤ length s.now) × (n ≤ 24) }
    ensures { result ≡ upto n (moderate_test (part s.now at 256)) }
{
    let mut ok = true;
    for i in 0..n {
        ok = ok & (s[at + (VALUE_ITEMS + i * NUMBER_SIZE)] % 128 < 127);
    }
    ok
}

// The usual case: moderate numbers alone.
fn moderate_numbers(s: &[u8], at: usize, n: usize) -> bool
    requires { (at + 256 ≤ length s.now) × (n ≤ 24) }
    ensures { result ≡ (upto n (number_test (part s.now at 256)) && upto n (moderate_test (part s.now at 256))) }
{
    numbers(s, at, n) && moderate(s, at, n)
}

fn items_ok(s: &[u8], at: usize, n: usize) -> bool
    requires { (at + 256 ≤ length s.now) × (n ≤ 24) }
    ensures { result ≡ upto n (item_test (part s.now at 256)) }
{
    moderate_numbers(s, at, n) || each_ok(s, at, n)
}

// Whether a key is next or more, and below 64, and ok.
fn key_ok(ok: bool, next: u64, k: u64) -> bool
    ensures { result ≡ (ok && (leb next k && ltb k 64)) }
{
    ok & ((next <= k) & (k < TEXTS))
}

// Whether the first n keys of the slot at byte at ascend and are below 64.
fn keys_ok(s: &[u8], at: usize, n: usize) -> bool
    requires { (at + 256 ≤ length s.now) × (n ≤ 16) }
    ensures { result ≡ keys_ok 0 (part s.now (at + 232) n) }
{
    let mut ok = true;
    let mut next = 0;
    for i in 0..n {
        let k = lent::wide(s[at + VALUE_KEYS + i]);
        ok = key_ok(ok, next, k);
        next = k + 1;
    }
    ok
}

// The bytes of an array or a table with n items, but its kind, its length and what lies behind its items.
fn box_ok(s: &[u8], at: usize, n: usize) -> bool
    requires { (at + 256 ≤ length s.now) × (n ≤ 24) }
    ensures { result ≡ box_ok n (part s.now at 256) }
{
    let kinds = lent::all_zero(s, at + (VALUE_ITEM_KINDS + n), lent::ARRAY_ITEMS - n);
    let words = lent::all_zero(
        s,
        at + (VALUE_ITEMS + n * NUMBER_SIZE),
        ITEMS_SIZE - n * NUMBER_SIZE,
    );
    lent::all_zero(s, at + HEAD_REST, HEAD_REST_SIZE) & (items_ok(s, at, n) & (kinds & words))
}

// A slot of a single value.
fn one_ok(s: &[u8], at: usize) -> bool
    requires { at + 256 ≤ length s.now }
    ensures { result ≡ one_ok (part s.now at 256) }
{
    let ok = item_ok(lent::wide(s[at]), lent::get_u64(s, at + VALUE_NUMBER));
    ok & (lent::all_zero(s, at + VALUE_LENGTH, LENGTH_REST_SIZE)
        & lent::all_zero(s, at + VALUE_ITEM_KINDS, CONTENTS_SIZE))
}

// A slot of an array.
fn arr_ok(s: &[u8], at: usize) -> bool
    requires { (at + 256 ≤ length s.now) × (get_or s.now at 0 ≡ 5) }
    ensures { result ≡ arr_ok (part s.now at 256) }
{
    let n = lent::wide(s[at + VALUE_LENGTH]) as usize;
    if lent::ARRAY_ITEMS < n {
        return false;
    }
    box_ok(s, at, n) & lent::all_zero(s, at + VALUE_KEYS, KEYS_SIZE)
}

// A slot of a table.
fn tab_ok(s: &[u8], at: usize) -> bool
    requires { (at + 256 ≤ length s.now) × (get_or s.now at 0 ≡ 6) }
    ensures { result ≡ tab_ok (part s.now at 256) }
{
    let n = lent::wide(s[at + VALUE_LENGTH]) as usize;
    if lent::TABLE_ITEMS < n {
        return false;
    }
    keys_ok(s, at, n) & (box_ok(s, at, n) & lent::all_zero(s, at + (VALUE_KEYS + n), KEYS_SIZE - n))
}

// Whether the slot at byte at is the one form of a value that may be stored. By tests in turn: with a `match` of the
// kind the compiler has no table for `word_bound` here.
pub fn slot_ok(s: &[u8], at: usize) -> bool
    requires { at + 256 ≤ length s.now }
    ensures { result ≡ slot_ok (part s.now at 256) }
{
    let kind = lent::wide(s[at]);
    if kind == 0 {
        return lent::all_zero(s, at, VALUE_SIZE);
    }
    if kind <= 4 {
        return one_ok(s, at);
    }
    if kind == 5 {
        return arr_ok(s, at);
    }
    if kind == 6 {
        return tab_ok(s, at);
    }
    false
}

// ---- slots in their one form: a kind is read and written as one byte, a number as eight; the number is
// written before the kind.

// The kind of the slot at byte at.
pub fn kind_at(s: &[u8], at: usize) -> u8
    requires { (at + 256 ≤ length s.now) × Formed (part s.now at 256) }
    ensures { result ≡ kind_in (seen (decode_slot (part s.now at 256))) }
{
    s[at]
}

// The number in a slot of kind 1.
pub fn number_at(s: &[u8], at: usize) -> f64
    requires { (at + 256 ≤ length s.now) × Formed (part s.now at 256) × (kind_in (seen (decode_slot (part s.now at 256))) ≡ 1) }
    ensures { decode_slot (part s.now at 256) ≡ some (One (Num result)) }
{
    numeric::from_stored(lent::get_u64(s, at + VALUE_NUMBER))
}

// The yes/no in a slot of kind 3: its last byte.
pub fn truth_at(s: &[u8], at: usize) -> bool
    requires { (at + 256 ≤ length s.now) × Formed (part s.now at 256) × (kind_in (seen (decode_slot (part s.now at 256))) ≡ 3) }
    ensures { decode_slot (part s.now at 256) ≡ some (One (Bl result)) }
{
    s[at + TRUTH] == 1
}

// How many items or keys a slot has.
pub fn len_at(s: &[u8], at: usize) -> u64
    requires { (at + 256 ≤ length s.now) × Formed (part s.now at 256) }
    ensures { result ≡ len_in (seen (decode_slot (part s.now at 256))) }
{
    lent::wide(s[at + VALUE_LENGTH])
}

// A slot that has contents becomes empty; another stays.
fn clear(s: &mut [u8], at: usize)
    requires { at + 256 ≤ length s.old }
    ensures { s.new ≡ cond (leb 5 (get_or s.old at 0)) (splice s.old at (zeros 256)) s.old }
{
    if 5 <= s[at] {
        lent::zero(s, at, VALUE_SIZE);
    }
}

// A value without contents as it is stored: its kind and its number.
#[derive(Clone, Copy)]
pub struct Stored {
    pub kind: u8,
    pub word: u64,
}

// Small and pure: at a known case it is compiled to two constants or a move.
pub fn pack(v: SifVal) -> Stored
    ensures { result ≡ stored_of v }
{
    Stored {
        kind: kind_of(v),
        word: word_of(v),
    }
}

// The number of a single value as it is stored: one pattern for every NaN, and 0 for nothing.
pub fn stored_word(kind: u8, word: u64) -> u64
    requires { (0 < kind) × (kind ≤ 4) × (kind ≡ 3 → word ≤ 1) }
    ensures { result ≡ word_of (single_of kind word) }
{
    if kind == 1 {
        return numeric::canonical(word);
    }
    if kind == 4 {
        return 0;
    }
    word
}

// Item i of the slot at byte at, as it is stored.
pub fn item(s: &[u8], at: usize, i: usize) -> Stored
    requires { (at + 256 ≤ length s.now) × Formed (part s.now at 256) × (i < len_in (seen (decode_slot (part s.now at 256)))) }
    ensures { result ≡ stored_of (shown (slot_item (part s.now at 256) i)) }
{
    Stored {
        kind: s[at + (VALUE_ITEM_KINDS + i)],
        word: lent::get_u64(s, at + (VALUE_ITEMS + i * NUMBER_SIZE)),
    }
}

// A stored value over any slot.
pub fn put(s: &mut [u8], at: usize, x: Stored)
    requires { (at + 256 ≤ length s.old) × Formed (part s.old at 256) }
    ensures { s.new ≡ splice s.old at (head_bytes x.kind 0 x.word ++ zeros 240) }
{
    clear(s, at);
    lent::put_u64(s, at + VALUE_NUMBER, x.word);
    s[at] = x.kind;
}

// A value without contents, or nothing, over any slot.
pub fn set(s: &mut [u8], at: usize, v: SifVal)
    requires { (at + 256 ≤ length s.old) × Formed (part s.old at 256) }
    ensures { s.new ≡ splice s.old at (encode_slot (bare v)) }
{
    put(s, at, pack(v));
}

// All of a slot over another, upwards.
fn move_whole(s: &mut [u8], from: usize, to: usize)
    requires { (from + 256 ≤ length s.old) × (to + 256 ≤ length s.old) × (from % 256 ≡ to % 256) }
    ensures { s.new ≡ splice s.old to (part s.old from 256) }
{
    for i in (0..VALUE_SIZE).step_by(NUMBER_SIZE) {
        lent::move_u64(s, from + i, to + i);
    }
}

// A slot over another slot.
pub fn move_to(s: &mut [u8], from: usize, to: usize)
    requires { (from + 256 ≤ length s.old) × (to + 256 ≤ length s.old) × (from % 256 ≡ to % 256) × Formed (part s.old from 256) × Formed (part s.old to 256) }
    ensures { s.new ≡ splice s.old to (part s.old from 256) }
{
    if 5 <= s[from] {
        move_whole(s, from, to);
        return;
    }
    clear(s, to);
    lent::move_u64(s, from + VALUE_NUMBER, to + VALUE_NUMBER);
    s[to] = s[from];
}

// The single value of the slot at byte from becomes item i of the slot at byte at.
pub fn store_item(s: &mut [u8], at: usize, i: usize, from: usize)
    requires { (at + 256 ≤ length s.old) × (from + 256 ≤ length s.old) × (from % 256 ≡ at % 256) × (i < 24) × Formed (part s.old from 256) × (0 < kind_in (seen (decode_slot (part s.old from 256)))) × (kind_in (seen (decode_slot (part s.old from 256))) ≤ 4) }
    ensures { s.new ≡ splice s.old at (set_item (part s.old at 256) i (single_seen (seen (decode_slot (part s.old from 256))))) }
{
    lent::move_u64(s, from + VALUE_NUMBER, at + (VALUE_ITEMS + i * NUMBER_SIZE));
    s[at + (VALUE_ITEM_KINDS + i)] = s[from];
}

// The end of a run and the names that it left, as text in a lent buffer. What does not fit is cut.
#![tactic(auto)]

ghost use Rattle.std.specs.Prelude.{◌≡◌, [], ◌∷◌, ◌++◌, ◌+◌, ◌*◌, ◌≤◌, ◌<◌, length, take};
ghost use Rattle.lent.specs.Bytes.{be_value, part};
ghost use Rattle.sifv.specs.Slot.{decode_slot};
ghost use Rattle.text.specs.Text.{ascii, number_fields};
ghost use Rattle.text.specs.inner.Appended.{Appended};
ghost use Rattle.listing_text.specs.Ending.{signed, name_line};
ghost use Rattle.ending.specs.inner.EndBytes.{signed_of, detail_count, stop_in, end_in, held_in, names_in, ran_in};

use sifv::SifVal;
use text::Writer;

// How many details a stop has.
fn detail_count(number: u64) -> usize
    ensures { result ≡ detail_count number }
{
    match number {
        vm::INDEX_OUT_OF_BOUNDS => 3,
        vm::INVALID_NAME | vm::REG_NO_CONTENTS | vm::NOT_AN_ARRAY | vm::INVALID_FN_SYM => 1,
        _ => 0,
    }
}

// The details of the stop with a number, a blank before each.
fn put_details(w: &mut Writer, report: &[u8], number: u64)
    requires { 48 ≤ length report.now }
    ensures { Appended w.old (number_fields (take (detail_count number) (be_value (part report.now 16 8) ∷ (be_value (part report.now 24 8) ∷ (be_value (part report.now 32 8) ∷ []))))) w.new }
{
    for i in 0..detail_count(number) {
        w.put_field(lent::get_u64(report, vm::REPORT_DETAILS + 8 * i));
    }
}

// A signed number, from its two's complement, with a blank before it.
fn put_signed(w: &mut Writer, word: u64)
    ensures { Appended w.old (ascii " " ++ signed (signed_of word)) w.new }
{
    if word < 1 << 63 {
        w.put_field(word);
    } else {
        w.put_all(b" -");
        w.put_decimal(u64::MAX - word + 1);
    }
}

// The end line of a stop.
fn put_stop(w: &mut Writer, report: &[u8], count: u64)
    requires { 48 ≤ length report.now }
    ensures { Appended w.old (stop_in report.now count) w.new }
{
    let number = report[vm::REPORT_STOP] as u64;
    w.put_words(b"end stopped", &[count, number]);
    put_signed(w, lent::get_u64(report, vm::REPORT_LINE));
    put_details(w, report, number);
    w.put_all(b"\n");
}

// The end line of a report: answer, steps since start, and of a stop its number, line and details.
pub fn put_end(w: &mut Writer, report: &[u8], count: u64)
    requires { 48 ≤ length report.now }
    ensures { Appended w.old (end_in report.now count) w.new }
{
    match report[0] {
        0 => w.put_line(b"end done", &[count]),
        1 => put_stop(w, report, count),
        _ => w.put_line(b"end spent", &[count]),
    }
}

// How many names are held: the ones in the state's mark.
pub fn put_held(w: &mut Writer, state: &[u8])
    requires { 47360 ≤ length state.now }
    ensures { Appended w.old (held_in state.now) w.new }
{
    let mark = lent::get_u64(state, stored::STATE_MARK);
    w.put_line(b"held", &[mark.count_ones() as u64]);
}

// The line of the name x, where it is held.
fn put_name(w: &mut Writer, state: &[u8], x: usize)
    requires { (47360 ≤ length state.now) × (x < 64) }
    ensures { Appended w.old (name_line x (decode_slot (part state.now (24576 + x * 256) 256))) w.new }
{
    let from = stored::STATE_NAMES + x * sifv::VALUE_SIZE;
    if let SifVal::Empty = sifv::get(state, from) {
        return;
    }
    w.put_words(b"name", &[x as u64]);
    w.put_all(b" ");
    values::put_value(w, state, from);
    w.put_all(b"\n");
}

// The names that are held, ascending.
pub fn put_names(w: &mut Writer, state: &[u8])
    requires { 47360 ≤ length state.now }
    ensures { Appended w.old (names_in state.now) w.new }
{
    for x in 0..lent::TEXTS {
        put_name(w, state, x);
    }
}

// What a run from start on left: the end, the count of names, the names.
pub fn put_ran(w: &mut Writer, state: &[u8], report: &[u8])
    requires { (47360 ≤ length state.now) × (48 ≤ length report.now) }
    ensures { Appended w.old (ran_in state.now report.now) w.new }
{
    put_end(w, report, lent::get_u64(state, stored::STATE_COUNT));
    put_held(w, state);
    put_names(w, state);
}

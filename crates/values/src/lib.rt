// Values in slots as text, in a lent buffer. What does not fit is cut. A slot is told by the state and its first byte, as
// in sifv.
#![tactic(auto)]

ghost use Rattle.std.specs.Prelude.{map, ◌+◌, ◌≤◌, ◌<◌, length, get_or};
ghost use Rattle.lent.specs.Bytes.{part};
ghost use Rattle.sifv.specs.Value.{entry};
ghost use Rattle.sifv.specs.Slot.{contents, decode_slot};
ghost use Rattle.sifv.specs.inner.Seen.{slot_item, entries_in};
ghost use Rattle.text.specs.Text.{ascii, single_text, entry_text, joined};
ghost use Rattle.text.specs.inner.Appended.{Appended};
ghost use Rattle.values.specs.inner.SlotText.{slot_text};

use sifv::SifVal;
use text::Writer;

// The first n items of the array in the slot at byte from, commas between.
fn put_items(w: &mut Writer, state: &[u8], from: usize, n: usize)
    requires { (from + 256 ≤ length state.now) × (n ≤ 24) }
    ensures { Appended w.old (joined (ascii ",") (map single_text (contents n (part state.now from 256)))) w.new }
{
    for i in 0..n {
        w.put_gap(i);
        w.put_single(sifv::get_item(state, from, i));
    }
}

// Entry i of the table in the slot at byte from.
fn put_entry(w: &mut Writer, state: &[u8], from: usize, i: usize)
    requires { (from + 256 ≤ length state.now) × (i < 16) }
    ensures { Appended w.old (entry_text (entry (get_or (part state.now from 256) (232 + i) 0) (slot_item (part state.now from 256) i))) w.new }
{
    w.put_decimal(state[from + (sifv::VALUE_KEYS + i)] as u64);
    w.put_all(b"=");
    w.put_single(sifv::get_item(state, from, i));
}

// The first n entries.
fn put_entries(w: &mut Writer, state: &[u8], from: usize, n: usize)
    requires { (from + 256 ≤ length state.now) × (n ≤ 16) }
    ensures { Appended w.old (joined (ascii ",") (map entry_text (entries_in n (part state.now from 256)))) w.new }
{
    for i in 0..n {
        w.put_gap(i);
        put_entry(w, state, from, i);
    }
}

// The value in the slot at byte from; of an empty slot nothing.
pub fn put_value(w: &mut Writer, state: &[u8], from: usize)
    requires { from + 256 ≤ length state.now }
    ensures { Appended w.old (slot_text (decode_slot (part state.now from 256))) w.new }
{
    let v = sifv::get(state, from);
    match v {
        SifVal::Empty => {}
        SifVal::Num(_) | SifVal::Str(_) | SifVal::Bl(_) | SifVal::Null => w.put_single(v),
        SifVal::Arr(n) => {
            w.put_all(b"Arr:[");
            put_items(w, state, from, n as usize);
            w.put_all(b"]");
        }
        SifVal::Tab(n) => {
            w.put_all(b"Tab:[");
            put_entries(w, state, from, n as usize);
            w.put_all(b"]");
        }
    }
}

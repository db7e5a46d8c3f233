// Tables in their slots: where a key is or goes, and a key that is put in.
ghost use Rattle.std.specs.Prelude.{◌≡◌, ◌+◌, ◌%◌, ◌≤◌, ◌<◌, false, length};
ghost use Rattle.std.proofs.Math.Option.{some};
ghost use Rattle.lent.specs.Bytes.{part, splice};
ghost use Rattle.sifv.specs.Value.{insert, Tab};
ghost use Rattle.sifv.specs.Slot.{encode_slot, decode_slot};
ghost use Rattle.sifv.specs.inner.Seen.{seen, single_seen, kind_in, entries_in};
ghost use Rattle.sifv.specs.inner.Forms.{Formed, len_in, place, key_there, opened};

// Where the second entry of a table is.
const NEXT_ITEM: usize = crate::VALUE_ITEMS + crate::NUMBER_SIZE;

const NEXT_KIND: usize = crate::VALUE_ITEM_KINDS + 1;

const NEXT_KEY: usize = crate::VALUE_KEYS + 1;

// The place of a key among the first n: that of the first key that is not below it.
pub fn key_place(s: &[u8], at: usize, n: usize, key: u64) -> usize
    requires { (at + 256 ≤ length s.now) × (n ≤ 16) }
    ensures { result ≡ place (entries_in n (part s.now at 256)) key }
{
    for i in 0..n {
        if key <= lent::wide(s[at + (crate::VALUE_KEYS + i)]) {
            return i;
        }
    }
    n
}

// Whether the key at its place i is this one.
pub fn has_key(s: &[u8], at: usize, n: usize, i: usize, key: u64) -> bool
    requires { (at + 256 ≤ length s.now) × (n ≤ 16) × (i ≡ place (entries_in n (part s.now at 256)) key) }
    ensures { result ≡ key_there (entries_in n (part s.now at 256)) key }
{
    if n <= i {
        return false;
    }
    key == lent::wide(s[at + (crate::VALUE_KEYS + i)])
}

// The entries from i on, of n, are moved up by one.
fn open_entry(s: &mut [u8], at: usize, i: usize, n: usize)
    requires { (at + 256 ≤ length s.old) × (i ≤ n) × (n < 16) }
    ensures { s.new ≡ splice s.old at (opened (part s.old at 256) i n) }
{
    for j in (i..n).rev() {
        lent::move_u64(
            s,
            at + (crate::VALUE_ITEMS + j * crate::NUMBER_SIZE),
            at + (NEXT_ITEM + j * crate::NUMBER_SIZE),
        );
        s[at + (NEXT_KIND + j)] = s[at + (crate::VALUE_ITEM_KINDS + j)];
        s[at + (NEXT_KEY + j)] = s[at + (crate::VALUE_KEYS + j)];
    }
}

// A key that the table of n keys at byte at does not have, with the single value of the slot at byte from, at the key's place i.
pub fn insert_new(s: &mut [u8], at: usize, n: usize, i: usize, key: u64, from: usize)
    requires at_in_bounds { (at + 256 ≤ length s.old) × (from + 256 ≤ length s.old) × (from % 256 ≡ at % 256) × Formed (part s.old at 256) × (kind_in (seen (decode_slot (part s.old at 256))) ≡ 6) × (n ≡ len_in (seen (decode_slot (part s.old at 256)))) × (n < 16) }
    requires i_value { (i ≡ place (entries_in n (part s.old at 256)) key) × (key_there (entries_in n (part s.old at 256)) key ≡ false) × (key < 64) × Formed (part s.old from 256) × (0 < kind_in (seen (decode_slot (part s.old from 256)))) × (kind_in (seen (decode_slot (part s.old from 256))) ≤ 4) }
    ensures { s.new ≡ splice s.old at (encode_slot (some (Tab (insert (entries_in n (part s.old at 256)) key (single_seen (seen (decode_slot (part s.old from 256)))))))) }
{
    open_entry(s, at, i, n);
    s[at + (crate::VALUE_KEYS + i)] = lent::low(key);
    crate::store_item(s, at, i, from);
    s[at + crate::VALUE_LENGTH] = lent::low((n + 1) as u64);
}

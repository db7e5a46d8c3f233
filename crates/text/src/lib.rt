// Text in a lent buffer: bytes, words, numbers. What does not fit is cut.
#![tactic(auto)]

ghost use Rattle.std.specs.Prelude.{◌≡◌, ◌≤◌, ◌<◌, length};
ghost use Rattle.text.specs.Text.{hex_digit};

use sifv::SifVal;

fn hex_digit(d: u64) -> u8
    requires { d < 16 }
    ensures { result ≡ hex_digit d }
{
    if d < 10 {
        return b'0' + d as u8;
    }
    b'a' + (d - 10) as u8
}

// A lent buffer, and the place in it where the next byte goes.
#[derive(Drop)]
pub struct Writer<'a> {
    out: &'a mut [u8],
    at: usize,
    ghost within: { at ≤ length out.now },
}

impl<'a> Writer<'a> {
    ghost use Rattle.std.specs.Prelude.{◌≡◌, ◌≤◌, [], ◌∷◌, ◌++◌, length, map};
    ghost use Rattle.sifv.specs.inner.Seen.{single_seen};
    ghost use Rattle.text.specs.Text.{ascii, decimal, hex, single_text, joined, separator, line_of};
    ghost use Rattle.text.specs.inner.Appended.{Appended};

    // At the buffer's start.
    pub fn new(out: &'a mut [u8]) -> Writer<'a>
        ensures same_buffer { result.out.ghost_name ≡ out.entry.ghost_name }
        ensures bytes { result.out.now ≡ out.old }
        ensures start { result.at ≡ 0 }
    {
        Writer { out, at: 0 }
    }

    // At a place of the buffer, whose bytes before it stay.
    pub fn starting_at(out: &'a mut [u8], at: usize) -> Writer<'a>
        requires { at ≤ length out.old }
        ensures same_buffer { result.out.ghost_name ≡ out.entry.ghost_name }
        ensures bytes { result.out.now ≡ out.old }
        ensures start { result.at ≡ at }
    {
        Writer { out, at }
    }

    // Where the next byte goes.
    pub fn place(&self) -> usize
        ensures { result ≡ self.now.at }
    {
        self.at
    }

    // One byte.
    pub fn put(&mut self, b: u8)
        ensures { Appended self.old (b ∷ []) self.new }
    {
        if self.at < self.out.len() {
            self.out[self.at] = b;
            self.at += 1;
        }
    }

    // All of s.
    pub fn put_all(&mut self, s: &[u8])
        ensures { Appended self.old s.now self.new }
    {
        for x in s {
            self.put(*x);
        }
    }

    // A number in decimal.
    pub fn put_decimal(&mut self, n: u64)
        ensures { Appended self.old (decimal n) self.new }
    {
        if n >= 10 {
            self.put_decimal(n / 10);
        }
        self.put(b'0' + (n % 10) as u8);
    }

    // 16 hex digits.
    pub fn put_hex(&mut self, n: u64)
        ensures { Appended self.old (hex 16 n) self.new }
    {
        for k in (0..16u32).rev() {
            self.put(hex_digit((n >> (4 * k)) % 16));
        }
    }

    // A number as a field of a line: the blank before it, and the number.
    pub fn put_field(&mut self, n: u64)
        ensures { Appended self.old (ascii " " ++ decimal n) self.new }
    {
        self.put(b' ');
        self.put_decimal(n);
    }

    // A name and numbers, blanks between.
    pub fn put_words(&mut self, name: &[u8], numbers: &[u64])
        ensures { Appended self.old (joined (ascii " ") (name.now ∷ map decimal numbers.now)) self.new }
    {
        self.put_all(name);
        for n in numbers {
            self.put_field(*n);
        }
    }

    // The same as a line.
    pub fn put_line(&mut self, name: &[u8], numbers: &[u64])
        ensures { Appended self.old (line_of (name.now ∷ map decimal numbers.now)) self.new }
    {
        self.put_words(name, numbers);
        self.put_all(b"\n");
    }

    // The comma before item i.
    pub fn put_gap(&mut self, i: usize)
        ensures { Appended self.old (separator (ascii ",") i) self.new }
    {
        if i > 0 {
            self.put(b',');
        }
    }

    // A single value, as the enum shows it.
    pub fn put_single(&mut self, v: SifVal)
        ensures { Appended self.old (single_text (single_seen v)) self.new }
    {
        match v {
            SifVal::Num(x) => {
                self.put_all(b"Num:");
                self.put_hex(numeric::bits_of(x));
            }
            SifVal::Str(t) => {
                self.put_all(b"Str:");
                self.put_decimal(t);
            }
            SifVal::Bl(b) => self.put_all(if b { b"Bl:1" } else { b"Bl:0" }),
            SifVal::Empty | SifVal::Null | SifVal::Arr(_) | SifVal::Tab(_) => self.put_all(b"Null"),
        }
    }
}

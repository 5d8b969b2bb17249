//! A page of text: the report, before it is known to fit.
ghost use Rattle.std.specs.Prelude.{◌≡◌, ◌+◌, ◌*◌, ◌<◌, ◌≤◌, [], ◌∷◌, length};
ghost use Rattle.files.specs.Reports.{figure, need_line, term_line};
ghost use Rattle.files.specs.Pages.{written, Wrote, Copied};

use crate::limits::{DIGITS, LONGEST_REPORT, NEED_LINE, TERM_LINE};

#[derive(Clone, Copy)]
pub(crate) struct Page {
    bytes: [u8; LONGEST_REPORT],
    len: usize,
}

impl Page {
    pub(crate) fn new() -> Page
        ensures blank { written result ≡ [] }
        ensures empty { result.len ≡ 0 }
    {
        Page {
            bytes: [0; LONGEST_REPORT],
            len: 0,
        }
    }

    fn push(&mut self, b: u8)
        requires { self.now.len < LONGEST_REPORT }
        ensures wrote { Wrote self.old (b ∷ []) self.new }
    {
        self.bytes[self.len] = b;
        self.len += 1;
    }

    fn text(&mut self, t: &[u8])
        requires { self.now.len + length t.now ≤ LONGEST_REPORT }
        ensures wrote { Wrote self.old t.now self.new }
    {
        for b in t {
            self.push(*b);
        }
    }

    // The number in decimal, without leading zeros.
    fn number(&mut self, n: u32)
        requires { self.now.len + length (figure n) ≤ LONGEST_REPORT }
        ensures wrote { Wrote self.old (figure n) self.new }
    {
        if n >= 10 {
            self.number(n / 10);
        }
        self.push(b'0' + (n % 10) as u8);
    }

    // A number of 32 bits has so many digits at most.
    fn figure(&mut self, n: u32)
        requires { self.now.len + DIGITS ≤ LONGEST_REPORT }
        ensures wrote { Wrote self.old (figure n) self.new }
        ensures short { length (figure n) ≤ DIGITS }
    {
        self.number(n);
    }

    // `need H L met M of T`
    pub(crate) fn need(&mut self, high: u32, low: u32, met: u32, all: u32)
        requires { self.now.len + NEED_LINE ≤ LONGEST_REPORT }
        ensures wrote { Wrote self.old (need_line high low met all) self.new }
        ensures short { length (need_line high low met all) ≤ NEED_LINE }
    {
        self.text(b"need ");
        self.figure(high);
        self.text(b" ");
        self.figure(low);
        self.text(b" met ");
        self.figure(met);
        self.text(b" of ");
        self.figure(all);
        self.push(b'\n');
    }

    // `term H L W`
    pub(crate) fn term(&mut self, high: u32, low: u32, weight: u32)
        requires { self.now.len + TERM_LINE ≤ LONGEST_REPORT }
        ensures wrote { Wrote self.old (term_line high low weight) self.new }
        ensures short { length (term_line high low weight) ≤ TERM_LINE }
    {
        self.text(b"term ");
        self.figure(high);
        self.text(b" ");
        self.figure(low);
        self.text(b" ");
        self.figure(weight);
        self.push(b'\n');
    }

    // Puts the page first in the output, if there is room, and answers its length.
    pub(crate) fn copy_to(&self, output: &mut [u8]) -> Option<usize>
        requires { self.now.len ≤ LONGEST_REPORT }
        ensures { Copied (written self.now) output.old result output.new }
    {
        if output.len() < self.len {
            return None;
        }
        output[..self.len].copy_from_slice(&self.bytes[..self.len]);
        Some(self.len)
    }
}

// Text for standard output, gathered in a lent buffer and written when that is full.
#![tactic(auto)]

ghost use Rattle.std.specs.Prelude.{◌≡◌, min, max, take, Ok};
ghost use Rattle.sim_printer.specs.Printer.{page, more, gathered, blanks, Spelled, Ended};

use std::fmt;
use std::marker::Model;

// The descriptor of standard output.
pub const STDOUT: i32 = 1;

// A buffer and how many of its bytes count. A clause sees its page.
#[derive(Drop)]
pub struct Printer<'a> {
    buf: &'a mut [u8],
    used: usize,
}

impl<'a> Model for Printer<'a> {
    ghost use Rattle.std.specs.Prelude.{◌≤◌, length};
    ghost use Rattle.sim_printer.specs.Printer.{Page, page};

    ghost Value = { Page };

    ghost view = { λ p. page p.buf.now p.used };

    ghost invariant = { λ p. p.used ≤ length p.buf.now };
}

impl<'a> Printer<'a> {
    // Nothing is gathered yet.
    pub fn new(buf: &'a mut [u8]) -> Printer<'a>
        ensures { result ≡ page buf.old 0 }
    {
        Printer { buf, used: 0 }
    }

    // One byte more.
    fn byte(&mut self, b: u8)
        ensures { self.new ≡ more self.old b }
    {
        if self.used < self.buf.len() {
            self.buf[self.used] = b;
            self.used += 1;
            return;
        }
        if 0 < self.buf.len() {
            io::write_all(STDOUT, self.as_slice());
            self.buf[0] = b;
            self.used = 1;
            return;
        }
        io::write_all(STDOUT, &[b]);
        self.used = 0;
    }

    // The bytes of `what`.
    pub fn text(&mut self, what: &[u8])
        ensures { self.new ≡ gathered self.old what.now }
    {
        for b in what {
            self.byte(*b);
        }
    }

    // n spaces.
    pub fn spaces(&mut self, n: usize)
        ensures { self.new ≡ gathered self.old (blanks n) }
    {
        for _ in 0..n {
            self.byte(b' ');
        }
    }

    // n in decimal.
    pub fn decimal(&mut self, n: u64)
        ensures { Spelled 10 1 0 n self.old self.new }
    {
        self.decimal_right(n, 0);
    }

    // n in decimal, with spaces in front up to width.
    pub fn decimal_right(&mut self, n: u64, width: usize)
        ensures { Spelled 10 1 width n self.old self.new }
    {
        let mut digits = [0u8; 20];
        let k = io::decimal(n, &mut digits);
        self.spaces(width.saturating_sub(k));
        self.text(&digits[..k]);
    }

    // n in hexadecimal, lower case, with zeros in front up to width; a width of 0 counts as 1, one above 16 as 16.
    pub fn hex(&mut self, n: u64, width: usize)
        ensures { Spelled 16 (min (max width 1) 16) 0 n self.old self.new }
    {
        let mut digits = [0u8; 16];
        let k = io::hex(n, width, &mut digits);
        self.text(&digits[..k]);
    }

    // A label, and n in decimal behind it.
    pub fn labelled(&mut self, label: &[u8], n: u64)
        ensures { Spelled 10 1 0 n (gathered self.old label.now) self.new }
    {
        self.text(label);
        self.decimal(n);
    }

    // The same, and the end of a line.
    pub fn ended(&mut self, label: &[u8], n: u64)
        ensures { Ended label.now n self.old self.new }
    {
        self.labelled(label, n);
        self.text(b"\n");
    }

    // What a value displays. No clause: std says only what a display leaves that did not fail (each piece by `write_str`), and the result is not
    // kept; that no more counts than the buffer holds is the invariant. The answers of a script go by the methods above, whose clauses say the digits.
    pub fn print<D: fmt::Display + Drop>(&mut self, what: D) {
        let _ = fmt::Write::write(self, what);
    }

    // Writes what was gathered; nothing counts then.
    pub fn finish(&mut self)
        ensures { self.new ≡ page self.old.held 0 }
    {
        io::write_all(STDOUT, self.as_slice());
        self.clear();
    }

    // Lets go what was gathered, unwritten.
    pub fn clear(&mut self)
        ensures { self.new ≡ page self.old.held 0 }
    {
        self.used = 0;
    }

    // What was gathered and not yet written.
    pub fn as_slice(&self) -> &[u8]
        ensures { result.now ≡ take self.now.used self.now.held }
    {
        &self.buf[..self.used]
    }
}

// What `write!` prints is gathered too; it never fails.
impl<'a> fmt::Write for Printer<'a> {
    ghost write_str_gives = { λ p t q. q ≡ gathered p t };

    fn write_str(&mut self, s: &str) -> fmt::Result
        ensures gathers { self.new ≡ gathered self.old s.now }
        ensures ok { result ≡ Ok tt }
    {
        self.text(s.as_bytes());
        Ok(())
    }
}

#[cfg(test)]
mod tests {
    use super::*;

    // Two values and what stands between them, in the order of the format.
    #[test]
    fn prints_what_is_displayed(rt: HostRuntime) {
        let mut buf = [0u8; 16];
        let mut page = Printer::new(&mut buf);
        page.text(b"id ");
        let id: u64 = 2748;
        page.print(format_args!("{id:06x}, {id}"));
        assert_eq!(rt; page.as_slice(), b"id 000abc, 2748".as_slice());
    }

    // A piece of text behind what is there.
    #[test]
    fn gathers_what_is_written(rt: HostRuntime) {
        let mut buf = [0u8; 8];
        let mut page = Printer::new(&mut buf);
        page.decimal(41);
        assert!(rt; fmt::Write::write_str(&mut page, " till").is_ok());
        assert_eq!(rt; page.as_slice(), b"41 till".as_slice());
    }
}

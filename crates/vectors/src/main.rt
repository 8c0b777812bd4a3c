// Vectors from outside: BLAKE3 digests, ChaCha8 words, 64-bit draws and link keys. The file stdout holds the answers of
// b3sum, of a published table and of Debian's rand_chacha; README.md beside this folder says how each was made.
#![tactic(auto)]

ghost use Rattle.std.specs.Prelude.{◌+◌, ◌<◌, ◌≤◌, ◌^◌};

use hash_digest::{Hashed, TooLong, digest, digest_parts};
use math_parts::{back, front};
use rand_streams::{Cursor, link_key};

// The descriptor of standard output.
const STDOUT_FILENO: i32 = 1;

const LENGTHS: [usize; 48] = [
    0, 1, 2, 3, 4, 5, 20, 63, 64, 65, 127, 128, 129, 256, 511, 512, 1022, 1023, 1024, 1025, 1026,
    2047, 2048, 2049, 3071, 3072, 3073, 4095, 4096, 4097, 5120, 5121, 6144, 7168, 8191, 8192, 8193,
    9216, 12288, 16384, 16385, 31744, 32768, 32769, 65536, 65537, 65700, 65701,
];

// Two parts: the length of the first one, then that of both.
const PARTS: [(usize, usize); 20] = [
    (0, 0),
    (1, 1),
    (3, 64),
    (30, 50),
    (63, 64),
    (64, 64),
    (65, 65),
    (30, 286),
    (81, 337),
    (1, 1025),
    (1023, 2048),
    (1024, 2048),
    (1025, 4096),
    (30, 4126),
    (4096, 4096),
    (4096, 8192),
    (81, 8273),
    (1, 65536),
    (65700, 65700),
    (81, 65617),
];

const COUNTS: [u64; 24] = [
    0,
    1,
    2,
    7,
    14,
    15,
    16,
    17,
    31,
    32,
    33,
    1000,
    4294967295,
    4294967296,
    4294967297,
    68719476735,
    68719476736,
    68719476737,
    1099511627774,
    1099511627775,
    1099511627776,
    1099511627777,
    1099511637774,
    1099511637776,
];

const STARTS: [u64; 10] = [
    0,
    1,
    13,
    14,
    15,
    16,
    4294967295,
    68719476735,
    1099511627775,
    1099511637775,
];

// Links: a seed, the sending till, and the receiving one.
const LINKS: [(u64, u32, u32); 8] = [
    (0, 0, 1),
    (1, 0, 0),
    (7, 3, 2),
    (255, 1, 63),
    (4294967296, 63, 0),
    (81985529216486895, 62, 63),
    (9223372036854775808, 5, 6),
    (18446744073709551615, 63, 62),
];

// Text as it is.
fn say(s: &[u8]) {
    io::write_all(STDOUT_FILENO, s);
}

// A number behind a space.
fn number(n: u64) {
    say(b" ");
    io::print_decimal(STDOUT_FILENO, n);
}

// The four bytes of a word, the lowest first.
fn bytes(w: u32) {
    io::print_hex(STDOUT_FILENO, u64::from(w.swap_bytes()), 8);
}

// The 32 bytes of a digest or a key, and the line's end.
fn hex32(words: [u32; 8]) {
    say(b" ");
    for w in words {
        bytes(w);
    }
    say(b"\n");
}

// A digest, or the number of its refusal.
fn answer(digest: Result<[u32; 8], TooLong>) {
    match digest {
        Ok(words) => hex32(words),
        Err(e) => {
            say(b" refused");
            number(u64::from(Hashed::from(Err(e)).number));
            say(b"\n");
        }
    }
}

// Byte i is i modulo 251.
fn fill(buf: &mut [u8]) {
    for (i, byte) in buf.iter_mut().enumerate() {
        *byte = (i % 251) as u8;
    }
}

// The digests of front parts of s.
fn digests(s: &[u8]) {
    for n in LENGTHS {
        say(b"digest");
        number(n as u64);
        answer(digest(front(s, n)));
    }
}

// The digests of front parts of s in two parts.
fn digests_of_parts(s: &[u8]) {
    for (h, n) in PARTS {
        say(b"parts");
        number(h as u64);
        number(n as u64);
        let whole = front(s, n);
        answer(digest_parts(front(whole, h), back(whole, h)));
    }
}

// The keys: zeros; the bytes 0 to 31; bytes 255.
fn key_of(i: usize) -> [u32; 8] {
    if i == 0 {
        return [0; 8];
    }
    if i == 1 {
        return [
            0x03020100, 0x07060504, 0x0b0a0908, 0x0f0e0d0c, 0x13121110, 0x17161514, 0x1b1a1918,
            0x1f1e1d1c,
        ];
    }
    [0xffffffff; 8]
}

// Words of the stream of key i.
fn words(i: usize) {
    for count in COUNTS {
        say(b"word");
        number(i as u64);
        number(count);
        say(b" ");
        let word = rand_chacha8::word(key_of(i), count);
        io::print_hex(STDOUT_FILENO, u64::from(word), 8);
        say(b"\n");
    }
}

// 12 draws of 64 bits in a row: two blocks are read, or three.
fn draws_from(c: &mut Cursor)
    requires { c.old.count + 24 < 2 ^ 63 }
{
    for k in 0..12_u64 {
        say(b" ");
        io::print_hex(STDOUT_FILENO, c.draw64(), 16);
    }
    say(b"\n");
}

// Draws of the stream of key i.
fn draws(i: usize) {
    for start in STARTS {
        say(b"long");
        number(i as u64);
        number(start);
        if start < 1099511637776 {
            draws_from(&mut Cursor::at(key_of(i), start));
        }
    }
}

// The keys of links.
fn links() {
    for (seed, from, to) in LINKS {
        say(b"link");
        number(seed);
        number(u64::from(from));
        number(u64::from(to));
        hex32(link_key(seed, from, to));
    }
}

// Prints the values of every kind, to be held against outside answers.
fn main() {
    let mut buf = [0u8; 65701];
    fill(&mut buf);
    digests(&buf);
    digests_of_parts(&buf);
    words(0);
    words(1);
    words(2);
    draws(0);
    draws(1);
    draws(2);
    links();
}

// What the system tells a program: the words behind its name, and the files that they name.
use std::env::FillError;
use std::fmt::InlineText;
use std::fs::File;
use std::io::{Error, ErrorKind};
use std::rt::{Env, Files};

// The descriptor of standard error.
const STDERR: i32 = 2;

// Word k goes to the start of `room`: so many bytes, none where there is no such word, or where it is longer.
pub fn arg(rt: &impl Env, k: usize, room: &mut [u8]) -> usize {
    rt.arg(k, room).unwrap_or(0)
}

// Is there no word k?
fn is_missing(rt: &impl Env, k: usize) -> bool {
    matches!(rt.arg(k, &mut []), Err(FillError::NotPresent))
}

// How many words there are, the program's name among them.
pub fn arg_count(rt: &impl Env) -> usize {
    (0..usize::MAX)
        .find(|k| is_missing(rt, *k))
        .unwrap_or(usize::MAX)
}

// The file of that name, to read; a name that is not UTF-8 is an error.
pub fn open_read<R: Files>(rt: &R, name: &[u8]) -> std::io::Result<R::File> {
    match std::str::from_utf8(name) {
        Ok(path) => File::open(rt, path),
        Err(_) => Err(Error::from(ErrorKind::InvalidFilename)),
    }
}

// An error's text up to its number.
fn without_number(text: &str) -> &str {
    match text.find(" (os error ") {
        Some(at) => &text[..at],
        None => text,
    }
}

// A line on standard error: what failed, a colon, and why.
pub fn fail(what: &[u8], e: Error) {
    let text = InlineText::<256>::of(e);
    let why = without_number(text.as_str());
    io::write_all(STDERR, what);
    io::write_all(STDERR, b": ");
    io::write_all(STDERR, why.as_bytes());
    io::write_all(STDERR, b"\n");
}

// The line on standard output above what the file of that name gives.
pub fn head(what: &[u8], name: &[u8]) {
    io::write_all(sim_printer::STDOUT, what);
    io::write_all(sim_printer::STDOUT, name);
    io::write_all(sim_printer::STDOUT, b"\n");
}

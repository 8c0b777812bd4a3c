// A script, read piece by piece: a line at a time is gathered in a buffer.
use sim_spelling::words::part;
use std::io::Read;

// Where the reading stands: the piece's bytes from `at` up to `end` are still to come; the line has n bytes so far; more than its buffer
// holds and it is too long; the input has ended. A carried script stands in the first piece whole, and is read from nowhere.
// Flags, no enum of cases: a line that is too long can be the last one too, and a carried script stays one.
#[derive(Clone, Copy)]
pub struct Input {
    pub at: usize,
    pub end: usize,
    pub n: usize,
    pub long: bool,
    pub ended: bool,
    pub ready: bool,
    pub carried: bool,
}

// Nothing read yet; of a carried script so many bytes stand in the piece.
pub fn start(carried: bool, end: usize) -> Input {
    Input {
        at: 0,
        end,
        n: 0,
        long: false,
        ended: false,
        ready: false,
        carried,
    }
}

// One byte more for the line.
fn with_byte(line: &mut [u8], i: Input, b: u8) -> Input {
    let n = i.n;
    let at = i.at.wrapping_add(1);
    if b == b'\n' {
        return Input {
            at,
            ready: true,
            ..i
        };
    }
    if n < line.len() {
        line[n] = b;
        return Input { at, n: n + 1, ..i };
    }
    Input {
        at,
        long: true,
        ..i
    }
}

// The bytes of the piece, up to the end of a line.
fn gathered(piece: &[u8], line: &mut [u8], before: Input) -> Input {
    let mut i = before;
    for b in part(piece, before.at, before.end) {
        i = with_byte(line, i, *b);
        if i.ready {
            break;
        }
    }
    i
}

// The bytes of the next piece: none behind a carried script.
fn got<S: Read>(from: &mut S, piece: &mut [u8], carried: bool) -> usize {
    if carried {
        return 0;
    }
    from.read(piece).unwrap_or(0)
}

// The next piece; a last line without an end is a line too.
fn refilled<S: Read>(from: &mut S, piece: &mut [u8], i: Input) -> Input {
    let end = got(from, piece, i.carried);
    Input {
        at: 0,
        end,
        ended: end == 0,
        ready: end == 0,
        ..i
    }
}

// The next line, whole; no run is longer than so many turns.
pub fn next_line<S: Read>(from: &mut S, piece: &mut [u8], line: &mut [u8], before: Input) -> Input {
    let mut i = Input {
        n: 0,
        long: false,
        ended: false,
        ready: false,
        ..before
    };
    for _ in 0..u64::MAX {
        i = if i.at < i.end {
            gathered(piece, line, i)
        } else {
            refilled(from, piece, i)
        };
        if i.ready {
            break;
        }
    }
    i
}

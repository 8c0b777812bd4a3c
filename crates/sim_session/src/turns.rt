// The next line of the input: read, counted, and its call or its opening taken.
use crate::input::Input;
use crate::lines::{Line, Session};
use crate::{input, lines};
use std::io::Read;
use std::rt::Clock;

// Where the input and the run stand behind a line, and what it is to the run.
#[derive(Clone, Copy)]
pub struct Turn<'a> {
    pub input: Input,
    pub session: Session,
    pub line: Line<'a>,
}

// Bytes, keys and names go to `room`, masks to `masks`. The buffers come one by one: `room` is lent as long as the line that is read, `masks` is
// the network's own; in one struct it would be lent as long, and no call could be made on the network.
pub fn next<'a, R: Clock, S: Read>(
    rt: &R,
    from: &mut S,
    piece: &mut [u8],
    line: &mut [u8],
    room: &'a mut [u8],
    masks: &mut [u64],
    i: Input,
    r: Session,
) -> Turn<'a> {
    let input = input::next_line(from, piece, line, i);
    let session = lines::counted(rt, r);
    let text = sim_spelling::words::part(line, 0, input.n);
    let line = lines::read(text, input.long, room, masks);
    Turn {
        input,
        session,
        line: lines::admitted(line, session),
    }
}

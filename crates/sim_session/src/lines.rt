// A line of a script: its words, read, and what is to be done with it.
use crate::progress::Clock;
use crate::{opens, progress};
use ask_refusal::Refusal;
use sim_openings::Opening;
use sim_outcome::{Outcome, done};
use sim_printer::Printer;
use sim_script::Call;

// A line of a script: blank or a remark, no call, an opening with its names and its key, or a call.
#[derive(Clone, Copy)]
pub enum Line<'a> {
    Skipped,
    Bad,
    Open { opening: Opening, fresh: &'a [u8] },
    Call(Call<'a>),
}

// What a run carries from line to line: the lines so far, whether a network is open, and the clock.
#[derive(Clone, Copy)]
pub struct Session {
    pub lines: u64,
    pub opened: bool,
    pub clock: Clock,
}

// No line yet.
pub fn fresh(rt: &impl std::rt::Clock) -> Session {
    Session {
        lines: 0,
        opened: false,
        clock: progress::start(rt),
    }
}

// A line of so many bytes, read: bytes, keys and names stand in `room`, masks in `masks`. A line that is too long is a bad one.
pub fn read<'a>(line: &[u8], is_long: bool, room: &'a mut [u8], masks: &mut [u64]) -> Line<'a> {
    if is_long {
        return Line::Bad;
    }
    if sim_spelling::words::is_skipped(line) {
        return Line::Skipped;
    }
    if sim_script::opens(line) {
        return match opens::read(line, room, masks) {
            Some(opening) => Line::Open {
                opening,
                fresh: room,
            },
            None => Line::Bad,
        };
    }
    match sim_script::read(line, room) {
        Some(call) => Line::Call(call),
        None => Line::Bad,
    }
}

// What a line is to a run: a call before the first opening is a bad line.
pub fn admitted<'a>(line: Line<'a>, r: Session) -> Line<'a> {
    match line {
        Line::Call(_) if !r.opened => Line::Bad,
        _ => line,
    }
}

// The run behind an opening.
pub fn begun(page: &mut Printer, r: Session, answer: Result<(), Refusal>) -> Session {
    done(page, b"open", answer);
    Session {
        opened: r.opened || answer.is_ok(),
        ..r
    }
}

// What is left to answer behind a call: here it is known whether its line was bad.
pub fn called(page: &mut Printer, r: Session, o: Outcome) {
    if let Outcome::Bad = o {
        sim_answers::bad(page, r.lines);
    }
}

// One line more; a long run tells how far it is.
pub fn counted(rt: &impl std::rt::Clock, r: Session) -> Session {
    Session {
        clock: progress::told(rt, r.lines, r.clock),
        lines: r.lines.wrapping_add(1),
        ..r
    }
}

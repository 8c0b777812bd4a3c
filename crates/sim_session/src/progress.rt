// Progress of a long run, on standard error.

// The descriptor of standard error.
const STDERR: i32 = 2;

// Lines between two looks at the clock, and ticks between two reports.
const LINES: u64 = 4096;

const BETWEEN_REPORTS: u64 = 2;

// The second of the last look, and how many seconds have gone by in which there was one.
#[derive(Clone, Copy)]
pub struct Clock {
    pub second: i64,
    pub ticks: u64,
}

// The second of the clock; -1 where it cannot be read.
fn now(rt: &impl std::rt::Clock) -> i64 {
    match rt.since_1970() {
        Ok(t) => t.as_secs().cast_signed(),
        Err(_) => -1,
    }
}

// Before the first line.
pub fn start(rt: &impl std::rt::Clock) -> Clock {
    Clock {
        second: now(rt),
        ticks: 0,
    }
}

// Every second tick, so many lines.
fn report(lines: u64, ticks: u64) {
    if ticks % BETWEEN_REPORTS == 0 {
        io::print_decimal(STDERR, lines);
        io::write_all(STDERR, b" lines\n");
    }
}

// The clock behind so many lines.
pub fn told(rt: &impl std::rt::Clock, lines: u64, c: Clock) -> Clock {
    if lines % LINES != 0 {
        return c;
    }
    let second = now(rt);
    if second == c.second {
        return c;
    }
    let ticks = c.ticks.wrapping_add(1);
    report(lines, ticks);
    Clock { second, ticks }
}

// The calls of a script, each with the words that it takes. Floats are bits.

// An entry that a till takes.
#[derive(Clone, Copy)]
pub struct Accept<'a> {
    pub from: u64,
    pub at: u64,
    pub kind: u64,
    pub class: u64,
    pub scope: u64,
    pub wire: &'a [u8],
    pub opens: bool,
    pub tag: u64,
}

// A flush, with room for so many rows where the line says so.
#[derive(Clone, Copy)]
pub struct Flush {
    pub at: u64,
    pub rows: Option<u64>,
}

// What may pass from till to till.
#[derive(Clone, Copy)]
pub enum Passage {
    Block {
        from: u64,
        to: u64,
    },
    BlockDuring {
        from: u64,
        to: u64,
        start: u64,
        end: u64,
    },
    Unblock {
        from: u64,
        to: u64,
    },
}

// The calls that change tills and rules, and the decision that a rule counts.
#[derive(Clone, Copy)]
pub enum Change {
    Down {
        till: u64,
    },
    Up {
        till: u64,
        shards: u64,
    },
    Handlers {
        till: u64,
        gossip: u64,
        host: u64,
    },
    Remove {
        rule: u64,
    },
    Decide {
        from: u64,
        to: u64,
        kind: u64,
        tier: u64,
        at: u64,
    },
}

// Counters that a script may write, so that limits can be tried.
#[derive(Clone, Copy)]
pub enum Hook {
    Fired { rule: u64, count: u64 },
    Words { from: u64, to: u64, count: u64 },
    FaultWords { count: u64 },
    Sequence { last: u64 },
    Installed { count: u64 },
}

// The calls that read a network.
#[derive(Clone, Copy)]
pub enum Reading {
    Single(Single),
    Table(Table),
    State,
}

// A reading of one answer or one list.
#[derive(Clone, Copy)]
pub enum Single {
    IsBlocked { from: u64, to: u64, at: u64 },
    Fired { rule: u64 },
    Transit { till: u64 },
    Seen { till: u64 },
    AllSeen,
    Waiting,
    Next,
}

// A table by itself.
#[derive(Clone, Copy)]
pub enum Table {
    Tills,
    Blocks,
    Rules,
    Words,
    Rings,
}

// A message from till to till that may be sent.
#[derive(Clone, Copy)]
pub struct Message {
    pub from: u64,
    pub to: u64,
    pub at: u64,
    pub bytes: u64,
}

// What the plan of regions and the links' keys say.
#[derive(Clone, Copy)]
pub enum Geography {
    Region { till: u64 },
    Link { from: u64, to: u64 },
    Transmission { from: u64, to: u64, bytes: u64 },
    Wire { rate: u64, bytes: u64 },
    LinkKey { from: u64, to: u64 },
}

// So many latencies between two tills, on a stream of its own.
#[derive(Clone, Copy)]
pub struct Latency {
    pub key: [u32; 8],
    pub count: u64,
    pub from: u64,
    pub to: u64,
    pub bytes: u64,
    pub times: u64,
}

// Seconds and nanoseconds.
#[derive(Clone, Copy)]
pub enum Seconds {
    Nanos { seconds: u64 },
    Secs { ns: u64 },
    Times { ns: u64, by: u64 },
}

// What is drawn.
#[derive(Clone, Copy)]
pub enum Draw {
    Word,
    Long,
    Fraction,
    Real { from: u64, to: u64 },
    Whole { from: u64, to: u64 },
    Index { below: u64 },
}

// So many draws on a stream of its own.
#[derive(Clone, Copy)]
pub struct Draws {
    pub key: [u32; 8],
    pub count: u64,
    pub draw: Draw,
    pub times: u64,
}

// A call of a script.
#[derive(Clone, Copy)]
pub enum Call<'a> {
    Accept(Accept<'a>),
    Flush(Flush),
    Drain,
    Change(Change),
    Passage(Passage),
    Install { card: &'a [u8] },
    Hook(Hook),
    Reading(Reading),
    Should(Message),
    Geography(Geography),
    Latency(Latency),
    Digest { input: &'a [u8] },
    Seconds(Seconds),
    Draws(Draws),
}

// The lines of a script: the call that a line names, and its words.
#![tactic(auto)]

mod calls;
mod reading;

pub use calls::{
    Accept, Call, Change, Draw, Draws, Flush, Geography, Hook, Latency, Message, Passage, Reading,
    Seconds, Single, Table,
};
pub use reading::{opens, read};

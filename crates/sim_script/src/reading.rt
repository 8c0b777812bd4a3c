// The call that a line names, with its words read: each is there, each is sound, and none is left.
use crate::calls::{
    Accept, Call, Change, Draw, Draws, Flush, Geography, Hook, Latency, Message, Passage, Reading,
    Seconds, Single, Table,
};
use sim_spelling::bytes::{bytes_of, key, key_of};
use sim_spelling::numbers::{bits, decimal, flag, hex, target};
use sim_spelling::words::{Words, words_of};

// Is the line an opening?
pub fn opens(line: &[u8]) -> bool {
    words_of(line).next() == Some(b"open".as_slice())
}

// A number in decimal digits.
fn number(words: &mut Words) -> Option<u64> {
    decimal(words.next()?)
}

// A mask in hexadecimal digits.
fn mask(words: &mut Words) -> Option<u64> {
    hex(words.next()?)
}

// A float by its bits.
fn float(words: &mut Words) -> Option<u64> {
    bits(words.next()?)
}

// The bytes that a word stands for; they stand in `room`.
fn bytes<'a>(words: &mut Words, room: &'a mut [u8]) -> Option<&'a [u8]> {
    let n = bytes_of(words.next()?, room)?;
    room.get(0..n)
}

// The words of a stream's key.
fn stream_key(words: &mut Words) -> Option<[u32; 8]> {
    let mut room = [0u8; 32];
    key(words.next()?, &mut room)?;
    Some(key_of(&room))
}

// An entry that a till takes.
fn accept<'a>(words: &mut Words, room: &'a mut [u8]) -> Option<Accept<'a>> {
    Some(Accept {
        from: number(words)?,
        at: number(words)?,
        kind: number(words)?,
        class: number(words)?,
        scope: target(words.next()?)?,
        wire: bytes(words, room)?,
        opens: flag(words.next()?)?,
        tag: number(words)?,
    })
}

// A flush, and its rows where the line says how many.
fn flush(words: &mut Words) -> Option<Flush> {
    let at = number(words)?;
    let rows = match words.next() {
        Some(word) => Some(decimal(word)?),
        None => None,
    };
    Some(Flush { at, rows })
}

// A change of tills or rules, or a decision.
fn change(name: &[u8], words: &mut Words) -> Option<Change> {
    let change = match name {
        b"down" => Change::Down {
            till: number(words)?,
        },
        b"up" => Change::Up {
            till: number(words)?,
            shards: mask(words)?,
        },
        b"handlers" => Change::Handlers {
            till: number(words)?,
            gossip: mask(words)?,
            host: mask(words)?,
        },
        b"remove" => Change::Remove {
            rule: number(words)?,
        },
        b"decide" => Change::Decide {
            from: number(words)?,
            to: number(words)?,
            kind: number(words)?,
            tier: number(words)?,
            at: number(words)?,
        },
        _ => return None,
    };
    Some(change)
}

// A block, or its end.
fn passage(name: &[u8], words: &mut Words) -> Option<Passage> {
    let passage = match name {
        b"block" => Passage::Block {
            from: number(words)?,
            to: number(words)?,
        },
        b"blockd" => Passage::BlockDuring {
            from: number(words)?,
            to: number(words)?,
            start: number(words)?,
            end: number(words)?,
        },
        b"unblock" => Passage::Unblock {
            from: number(words)?,
            to: number(words)?,
        },
        _ => return None,
    };
    Some(passage)
}

// The words of a link's stream, or, behind `fault`, of the fault stream.
fn set_words(words: &mut Words) -> Option<Hook> {
    match words.next()? {
        b"fault" => Some(Hook::FaultWords {
            count: number(words)?,
        }),
        from => Some(Hook::Words {
            from: decimal(from)?,
            to: number(words)?,
            count: number(words)?,
        }),
    }
}

// A counter to write.
fn hook(name: &[u8], words: &mut Words) -> Option<Hook> {
    let hook = match name {
        b"setfired" => Hook::Fired {
            rule: number(words)?,
            count: number(words)?,
        },
        b"setwords" => set_words(words)?,
        b"setseq" => Hook::Sequence {
            last: number(words)?,
        },
        b"setrules" => Hook::Installed {
            count: number(words)?,
        },
        _ => return None,
    };
    Some(hook)
}

// The marks of a till, or of all of them.
fn seen(words: &mut Words) -> Option<Single> {
    match words.next() {
        Some(word) => Some(Single::Seen {
            till: decimal(word)?,
        }),
        None => Some(Single::AllSeen),
    }
}

// A reading of one answer or one list.
fn single(name: &[u8], words: &mut Words) -> Option<Single> {
    let single = match name {
        b"isblocked" => Single::IsBlocked {
            from: number(words)?,
            to: number(words)?,
            at: number(words)?,
        },
        b"fired" => Single::Fired {
            rule: number(words)?,
        },
        b"transit" => Single::Transit {
            till: number(words)?,
        },
        b"seen" => seen(words)?,
        b"waiting" => Single::Waiting,
        b"next" => Single::Next,
        _ => return None,
    };
    Some(single)
}

// A call that reads.
fn reading(name: &[u8], words: &mut Words) -> Option<Reading> {
    if let b"state" = name {
        return Some(Reading::State);
    }
    if let Some(table) = table(name) {
        return Some(Reading::Table(table));
    }
    let single = single(name, words)?;
    Some(Reading::Single(single))
}

// The table that a name stands for.
fn table(name: &[u8]) -> Option<Table> {
    match name {
        b"tills" => Some(Table::Tills),
        b"blocks" => Some(Table::Blocks),
        b"rules" => Some(Table::Rules),
        b"words" => Some(Table::Words),
        b"rings" => Some(Table::Rings),
        _ => None,
    }
}

// A message from till to till.
fn message(words: &mut Words) -> Option<Message> {
    Some(Message {
        from: number(words)?,
        to: number(words)?,
        at: number(words)?,
        bytes: number(words)?,
    })
}

// A question about regions, links and keys.
fn geography(name: &[u8], words: &mut Words) -> Option<Geography> {
    let geography = match name {
        b"region" => Geography::Region {
            till: number(words)?,
        },
        b"link" => Geography::Link {
            from: number(words)?,
            to: number(words)?,
        },
        b"transmission" => Geography::Transmission {
            from: number(words)?,
            to: number(words)?,
            bytes: number(words)?,
        },
        b"wire" => Geography::Wire {
            rate: number(words)?,
            bytes: number(words)?,
        },
        b"linkkey" => Geography::LinkKey {
            from: number(words)?,
            to: number(words)?,
        },
        _ => return None,
    };
    Some(geography)
}

// A number of latencies on one stream.
fn latency(words: &mut Words) -> Option<Latency> {
    Some(Latency {
        key: stream_key(words)?,
        count: number(words)?,
        from: number(words)?,
        to: number(words)?,
        bytes: number(words)?,
        times: number(words)?,
    })
}

// A conversion of seconds.
fn seconds(name: &[u8], words: &mut Words) -> Option<Seconds> {
    let seconds = match name {
        b"nanos" => Seconds::Nanos {
            seconds: float(words)?,
        },
        b"secs" => Seconds::Secs { ns: number(words)? },
        b"times" => Seconds::Times {
            ns: number(words)?,
            by: float(words)?,
        },
        _ => return None,
    };
    Some(seconds)
}

// What is drawn: its name, and its range where it has one.
fn draw(name: &[u8], words: &mut Words) -> Option<Draw> {
    let draw = match name {
        b"word" => Draw::Word,
        b"long" => Draw::Long,
        b"fraction" => Draw::Fraction,
        b"real" => Draw::Real {
            from: float(words)?,
            to: float(words)?,
        },
        b"whole" => Draw::Whole {
            from: number(words)?,
            to: number(words)?,
        },
        b"index" => Draw::Index {
            below: number(words)?,
        },
        _ => return None,
    };
    Some(draw)
}

// A number of draws on one stream.
fn draws(words: &mut Words) -> Option<Draws> {
    let name = words.next()?;
    Some(Draws {
        key: stream_key(words)?,
        count: number(words)?,
        draw: draw(name, words)?,
        times: number(words)?,
    })
}

// A call that takes no bytes.
fn plain<'a>(name: &[u8], words: &mut Words) -> Option<Call<'a>> {
    if let Some(change) = change(name, words) {
        return Some(Call::Change(change));
    }
    if let Some(passage) = passage(name, words) {
        return Some(Call::Passage(passage));
    }
    if let Some(hook) = hook(name, words) {
        return Some(Call::Hook(hook));
    }
    if let Some(reading) = reading(name, words) {
        return Some(Call::Reading(reading));
    }
    if let Some(geography) = geography(name, words) {
        return Some(Call::Geography(geography));
    }
    let seconds = seconds(name, words)?;
    Some(Call::Seconds(seconds))
}

// The call of a line, with its words.
fn call<'a>(words: &mut Words, room: &'a mut [u8]) -> Option<Call<'a>> {
    let call = match words.next()? {
        b"accept" => Call::Accept(accept(words, room)?),
        b"flush" => Call::Flush(flush(words)?),
        b"drain" => Call::Drain,
        b"install" => Call::Install {
            card: bytes(words, room)?,
        },
        b"should" => Call::Should(message(words)?),
        b"latency" => Call::Latency(latency(words)?),
        b"digest" => Call::Digest {
            input: bytes(words, room)?,
        },
        b"draw" => Call::Draws(draws(words)?),
        name => return plain(name, words),
    };
    Some(call)
}

// The call of a line; the bytes that it is given stand in `room`.
pub fn read<'a>(line: &[u8], room: &'a mut [u8]) -> Option<Call<'a>> {
    let mut words = words_of(line);
    let call = call(&mut words, room)?;
    match words.next() {
        Some(_) => None,
        None => Some(call),
    }
}

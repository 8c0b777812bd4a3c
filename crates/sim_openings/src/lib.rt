// The fields of an opening: `key=value` words in any order, each one time.
#![tactic(auto)]

ghost use Rattle.std.specs.Prelude.{◌≡◌, Some, None, IfSome, codes};
ghost use Rattle.std.specs.Option.{MatchOption};
ghost use Rattle.sim_spelling.specs.Spelling.{words_in};
ghost use Rattle.sim_openings.specs.Openings.{value_in, field_in, number_in, rate_in};

use sim_spelling::bytes::{key, unhex};
use sim_spelling::numbers::{bits, decimal, hex};
use sim_spelling::words::words_of;

// Bytes of the fault stream's key.
pub const KEY: usize = 32;

// A plan of regions.
#[derive(Clone, Copy)]
pub struct Plan {
    pub regions: u64,
    pub seed: u64,
}

// The numbers of an opening. Rates are bits; no key of the fault stream is given where its field is `auto`.
#[derive(Clone, Copy)]
pub struct Opening {
    pub tills: u64,
    pub seed: u64,
    pub log: u64,
    pub latency: u64,
    pub jitter: u64,
    pub loss: u64,
    pub duplicate: u64,
    pub replay: u64,
    pub spike: u64,
    pub slots: u64,
    pub seen: u64,
    pub plan: Option<Plan>,
    pub fault_key: Option<[u8; KEY]>,
    pub types: u64,
    pub shards: u64,
}

// Where the shard keys stand behind the names, and the places of each.
#[derive(Clone, Copy)]
pub struct Layout {
    pub name: usize,
    pub shard: usize,
    pub shards: usize,
    pub most: usize,
    pub slots: u64,
}

// The fields that a line has at least.
const FIELDS: usize = 14;

// The value of a word that begins with the key and a sign.
#[tactic(auto, unfolding(crate::specs::Openings::value_in))]
fn value_of<'a>(word: &'a [u8], key: &[u8]) -> Option<&'a [u8]>
    ensures { MatchOption result (value_in key.now word.now ≡ None) (λ v. value_in key.now word.now ≡ Some v.now) }
{
    match word.strip_prefix(key) {
        Some([b'=', value @ ..]) => Some(value),
        _ => None,
    }
}

// The value of a field, where the line has it.
#[tactic(auto, unfolding(crate::specs::Openings::field_in))]
fn field<'a>(line: &'a [u8], key: &[u8]) -> Option<&'a [u8]>
    ensures { MatchOption result (field_in key.now (words_in line.now) ≡ None) (λ v. field_in key.now (words_in line.now) ≡ Some v.now) }
{
    for word in words_of(line) {
        if let Some(value) = value_of(word, key) {
            return Some(value);
        }
    }
    None
}

// The number of a field, in decimal.
#[tactic(auto, unfolding(crate::specs::Openings::number_in))]
fn number(line: &[u8], key: &[u8]) -> Option<u64>
    ensures { result ≡ number_in line.now key.now }
{
    decimal(field(line, key)?)
}

// The bits of a field that is a rate.
#[tactic(auto, unfolding(crate::specs::Openings::rate_in))]
fn rate(line: &[u8], key: &[u8]) -> Option<u64>
    ensures { result ≡ rate_in line.now key.now }
{
    bits(field(line, key)?)
}

// A field that may be missing.
fn choice(line: &[u8], name: &[u8], other: u64) -> Option<u64> {
    match field(line, name) {
        Some(value) => decimal(value),
        None => Some(other),
    }
}

// Has the line the 14 fields, and no other words than those that may stand beside them?
fn is_whole(line: &[u8]) -> bool {
    let beside = usize::from(field(line, b"slots").is_some())
        + usize::from(field(line, b"seen").is_some());
    words_of(line).count() == 1 + FIELDS + beside
}

// What stands between the items of a list.
fn is_comma(b: &u8) -> bool {
    *b == b','
}

// Numbers with a comma between them, to the front of `out`; the value is how many there are.
fn masks(list: &[u8], out: &mut [u64]) -> Option<usize> {
    if list == b"none".as_slice() {
        return Some(0);
    }
    let mut places = out.iter_mut();
    for item in list.split(is_comma) {
        let mask = hex(item)?;
        if let Some(place) = places.next() {
            *place = mask;
        }
    }
    Some(list.split(is_comma).count())
}

// A name's length and its bytes, as many as the place holds; `-` is the empty name.
fn name(text: &[u8], place: &mut [u8]) -> Option<()> {
    let length = match text {
        b"-" => 0,
        b"" => return None,
        _ => unhex(text, place.get_mut(1..).unwrap_or(&mut []))?,
    };
    if let Some(first) = place.first_mut() {
        *first = u8::try_from(length).unwrap_or(u8::MAX);
    }
    Some(())
}

// Names with a comma between them, stored from `at`, so many places apart, `most` of them; the value is how many there are.
fn names(list: &[u8], out: &mut [u8], at: usize, width: usize, most: usize) -> Option<u64> {
    if list == b"none".as_slice() {
        return Some(0);
    }
    let mut places = out
        .get_mut(at..)
        .unwrap_or(&mut [])
        .chunks_mut(width.max(1));
    for (i, item) in list.split(is_comma).enumerate() {
        match places.next() {
            Some(place) if i < most => name(item, place)?,
            _ => name(item, &mut [])?,
        }
    }
    Some(list.split(is_comma).count() as u64)
}

// A plan of regions: `none`, or a number and a seed.
fn plan_of(text: &[u8]) -> Option<Option<Plan>> {
    if text == b"none".as_slice() {
        return Some(None);
    }
    let mut parts = text.splitn(2, |b| *b == b':');
    let regions = decimal(parts.next()?)?;
    let seed = decimal(parts.next()?)?;
    Some(Some(Plan { regions, seed }))
}

// The fault stream's key: `auto`, or its bytes.
fn fault_key(text: &[u8]) -> Option<Option<[u8; KEY]>> {
    if text == b"auto".as_slice() {
        return Some(None);
    }
    let mut bytes = [0u8; KEY];
    key(text, &mut bytes)?;
    Some(Some(bytes))
}

// The opening of a line: its names in `out` as the layout says, its masks at the front of `shards`.
pub fn open_line(line: &[u8], out: &mut [u8], shards: &mut [u64], l: Layout) -> Option<Opening>
    ensures numbers { IfSome result (λ o. (number_in line.now (codes "tills") ≡ Some o.tills) × (number_in line.now (codes "seed") ≡ Some o.seed)
        × (number_in line.now (codes "log") ≡ Some o.log) × (number_in line.now (codes "lat") ≡ Some o.latency)) }
    ensures rates { IfSome result (λ o. (rate_in line.now (codes "jit") ≡ Some o.jitter) × (rate_in line.now (codes "loss") ≡ Some o.loss)
        × (rate_in line.now (codes "dup") ≡ Some o.duplicate) × (rate_in line.now (codes "rep") ≡ Some o.replay) × (rate_in line.now (codes "spike") ≡ Some o.spike)) }
{
    if !is_whole(line) {
        return None;
    }
    let opening = Opening {
        tills: number(line, b"tills")?,
        seed: number(line, b"seed")?,
        log: number(line, b"log")?,
        latency: number(line, b"lat")?,
        jitter: rate(line, b"jit")?,
        loss: rate(line, b"loss")?,
        duplicate: rate(line, b"dup")?,
        replay: rate(line, b"rep")?,
        spike: rate(line, b"spike")?,
        slots: choice(line, b"slots", l.slots)?,
        seen: choice(line, b"seen", l.slots)?,
        plan: plan_of(field(line, b"regions")?)?,
        fault_key: fault_key(field(line, b"fkey")?)?,
        types: names(field(line, b"types")?, out, 0, l.name, l.most)?,
        shards: names(field(line, b"shards")?, out, l.shards, l.shard, l.most)?,
    };
    let hosted = masks(field(line, b"masks")?, shards)?;
    (hosted as u64 == opening.tills).then_some(opening)
}

// A drop rule: which messages it is for, when it is active, and what it does.
#![tactic(auto)]

ghost use Rattle.std.specs.Prelude.{◌≡◌, ◌<◌};
ghost use Rattle.fault_rule.specs.Rule.{bit_of, has, filter_of, action_of, window_in, rule_of, holds, forward, passes, applies};

// The bits of a drop card's map, one for each field that it may have.
#[derive(Clone, Copy, Debug, PartialEq, Eq)]
pub enum Field {
    Kind = 0,
    From = 1,
    To = 2,
    Tier = 3,
    Probability = 4,
    Window = 5,
    // The window's end belongs to it; no bytes of its own.
    Closed = 6,
}

impl Field {
    // Does the field stand in this map?
    pub fn stands_in(self, map: u64) -> bool
        ensures { result ≡ has map (bit_of self) }
    {
        has(map, self as u64)
    }
}

// When a rule or a block is active: always, from a start up to an end, or from a start to an end that is in it too.
#[derive(Clone, Copy)]
pub enum TimeWindow {
    Always,
    During { start: u64, end: u64 },
    Closed { start: u64, end: u64 },
}

// What a rule does to a message: drop it, or drop it with a probability. No Option<f64>: its None would have to mean the drop that needs no draw, no plainer.
#[derive(Clone, Copy)]
pub enum FaultAction {
    Drop,
    DropWithProbability(f64),
}

// A drop card's map and fields, 0 where its bit does not stand; the probability is the bits of an f64. The raw words of lent memory: `Rule` says what they mean.
#[derive(Clone, Copy)]
pub struct DropSpec {
    pub map: u64,
    pub kind: u64,
    pub from: u64,
    pub to: u64,
    pub tier: u64,
    pub probability: u64,
    pub start: u64,
    pub end: u64,
}

// What a drop card means: the type, the hosts and the tier that it asks for, where it asks; what it does, and when.
#[derive(Clone, Copy)]
pub struct Rule {
    pub kind: Option<u64>,
    pub from: Option<u64>,
    pub to: Option<u64>,
    pub tier: Option<u64>,
    pub action: FaultAction,
    pub window: TimeWindow,
}

// A message at its dispatch, and the time. Tiers: gossip 0, notification 1, request 2, response 3; no enum, as C and the drop card give them as numbers, and a rule only compares them.
#[derive(Clone, Copy)]
pub struct MessageContext {
    pub kind: u64,
    pub from: u64,
    pub to: u64,
    pub tier: u64,
    pub now: u64,
}

// Does bit k of the map stand?
#[tactic(auto, unfolding(crate::specs::Rule::has))]
pub fn has(map: u64, k: u64) -> bool
    requires { k < 64 }
    ensures { result ≡ has map k }
{
    (map >> k) % 2 == 1
}

// What a field asks for, where it stands.
#[tactic(auto, unfolding(crate::specs::Rule::filter_of))]
fn filter_of(map: u64, field: Field, x: u64) -> Option<u64>
    ensures { result ≡ filter_of map (bit_of field) x }
{
    if field.stands_in(map) { Some(x) } else { None }
}

// Does the value pass? Where nothing is asked for, all do.
#[tactic(auto, unfolding(crate::specs::Rule::passes))]
fn passes(filter: Option<u64>, x: u64) -> bool
    ensures { result ≡ passes filter x }
{
    match filter {
        None => true,
        Some(wanted) => wanted == x,
    }
}

// Any 64 bits are a probability, clamped to 0..1; a NaN stays one.
#[tactic(auto, unfolding(crate::specs::Rule::action_of))]
fn action_of(map: u64, bits: u64) -> FaultAction
    ensures { result ≡ action_of map bits }
{
    if Field::Probability.stands_in(map) {
        return FaultAction::DropWithProbability(math_float::clamp01(math_float::of_any(bits)));
    }
    FaultAction::Drop
}

impl DropSpec {
    // The card's window: without one, always.
    #[tactic(auto, unfolding(crate::specs::Rule::window_of))]
    pub fn window(self) -> TimeWindow
        ensures { result ≡ window_in self }
    {
        if !Field::Window.stands_in(self.map) {
            return TimeWindow::Always;
        }
        let DropSpec { start, end, .. } = self;
        if Field::Closed.stands_in(self.map) {
            return TimeWindow::Closed { start, end };
        }
        TimeWindow::During { start, end }
    }
}

impl From<DropSpec> for Rule {
    ghost from_gives = { λ s r. r ≡ rule_of s };

    // The meaning of a card's words.
    #[tactic(auto, unfolding(crate::specs::Rule::rule_of))]
    fn from(s: DropSpec) -> Rule {
        Rule {
            kind: filter_of(s.map, Field::Kind, s.kind),
            from: filter_of(s.map, Field::From, s.from),
            to: filter_of(s.map, Field::To, s.to),
            tier: filter_of(s.map, Field::Tier, s.tier),
            action: action_of(s.map, s.probability),
            window: s.window(),
        }
    }
}

impl TimeWindow {
    // Does the window hold the time? It holds its start, and not its end; a closed one holds both.
    #[tactic(auto, unfolding(crate::specs::Rule::holds))]
    pub fn holds(self, now: u64) -> bool
        ensures { result ≡ holds self now }
    {
        match self {
            TimeWindow::Always => true,
            TimeWindow::During { start, end } => start <= now && now < end,
            TimeWindow::Closed { start, end } => start <= now && now <= end,
        }
    }

    // Is the window's end after its start, a closed one's not before it? One that always holds has neither.
    #[tactic(auto, unfolding(crate::specs::Rule::forward))]
    pub fn is_forward(self) -> bool
        ensures { result ≡ forward self }
    {
        match self {
            TimeWindow::Always => true,
            TimeWindow::During { start, end } => start < end,
            TimeWindow::Closed { start, end } => start <= end,
        }
    }
}

impl Rule {
    // Does the rule's window hold the time, and does each filter let the message pass?
    #[tactic(auto, unfolding(crate::specs::Rule::applies))]
    pub fn applies(self, m: MessageContext) -> bool
        ensures { result ≡ applies self m }
    {
        self.window.holds(m.now)
            && passes(self.kind, m.kind)
            && passes(self.from, m.from)
            && passes(self.to, m.to)
            && passes(self.tier, m.tier)
    }
}

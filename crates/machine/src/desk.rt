// What a step sees of the machine: its party, its own queue and its source's. The whole machine is not handed from function to
// function.
ghost use Rattle.std.specs.Prelude.{◌≡◌};
ghost use Rattle.machine.specs.Desk as D;

use queue::places;
use tables::access::{Access, Context, Next, Whose};
use tables::answer::{Answer, Effect, Reply};
use tables::call::{Call, Mark};
use tables::state::{Party, Queue};

// Where the source is the own queue, `own` has its words.
#[derive(Clone, Copy)]
pub struct Desk {
    pub party: Party,
    pub own: Queue,
    pub source: Queue,
}

// Whose step it is, which source it has, and where the two queues' stretches of the items start.
#[derive(Clone, Copy)]
pub struct Stretches {
    pub who: u64,
    pub from: u64,
    pub own: usize,
    pub source: usize,
}

// A row looked up: what it knows, the access it makes, to which queue, and where that queue's stretch starts. `away` is no `Whose`: it says
// that the source is meant and is another queue than the own, which a row's `Whose` does not know.
#[derive(Clone, Copy)]
pub struct Reached {
    pub context: Context,
    pub access: Access,
    pub away: bool,
    pub queue: Queue,
    pub base: usize,
}

// What a step leaves on the desk.
#[derive(Clone, Copy)]
pub struct Stepped {
    pub desk: Desk,
    pub answer: Option<Answer>,
    pub effect: Option<Effect>,
}

// What an act that nothing refuses leaves on the desk, and what is said.
#[derive(Clone, Copy)]
pub struct Turn {
    pub desk: Desk,
    pub reply: Reply,
}

// A turn, and the places of the table that its desk goes back to: the party's and its queue's, and the source's.
#[derive(Clone, Copy)]
pub struct TurnAt {
    pub x: usize,
    pub y: usize,
    pub turn: Turn,
}

// A party where a row's access has brought it.
pub fn moved(next: Next) -> Party
    ensures { result ≡ D.moved next }
{
    Party {
        place: next.place,
        drain: next.drain,
    }
}

// A party whose call has begun: it keeps its drain.
pub fn begun(party: Party, own: Queue, call: Call) -> Party
    ensures { result ≡ D.begun party own call }
{
    Party {
        place: places::start(own.kind, call),
        ..party
    }
}

impl Stretches {
    // The source's queue is another one than the own.
    pub(super) fn is_away(self, whose: Whose) -> bool
        ensures { result ≡ D.away whose (D.same self) }
    {
        whose == Whose::Source && self.from != self.who
    }

    // `base`, `site` and `queue` choose of fields of three types: one function of a pair is no plainer than the `if`.
    pub(super) fn base(self, away: bool) -> usize
        ensures { result ≡ D.base_for away self }
    {
        if away { self.source } else { self.own }
    }

    // The number of the queue that a step reaches.
    pub(super) fn site(self, away: bool) -> u64
        ensures { result ≡ D.site_for away self }
    {
        if away { self.from } else { self.who }
    }
}

impl Desk {
    pub fn context(self, mark: Mark) -> Context
        ensures { result ≡ D.desk_context self mark }
    {
        Context {
            kind: self.own.kind,
            capacity: self.own.capacity,
            from: self.source.kind,
            drain: self.party.drain,
            mark,
        }
    }

    pub(super) fn queue(self, away: bool) -> Queue
        ensures { result ≡ D.queue_for away self }
    {
        if away { self.source } else { self.own }
    }

    // With the queue that a step reached and the party's next place.
    pub(super) fn with(self, away: bool, queue: Queue, next: Next) -> Desk
        ensures { result ≡ D.desk_with away self queue next }
    {
        let party = moved(next);
        if away {
            Desk {
                party,
                source: queue,
                ..self
            }
        } else {
            Desk {
                party,
                own: queue,
                ..self
            }
        }
    }
}

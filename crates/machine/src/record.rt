// A record of parties and queues, wherever it stands: a machine by value, or the words of one in a host's memory. What only reads a
// record is written once, for both.
ghost use Rattle.std.specs.Prelude.{◌≡◌, ◌<◌, length};
ghost use Rattle.tables.specs.declared.state.Machine.{Machine};
ghost use Rattle.tables.specs.Machine.{most, party_at, queue_at};

use tables::state::{Machine, Party, Queue};

pub trait Record {
    // The machine that the definitions read in it.
    ghost machine: { Self → Machine };

    fn parties(&self) -> u32
        ensures { result ≡ (machine self.now).parties };

    // That i is below the limit is asked and no type of it: an index type would be built at each call from the same proof.
    fn party(&self, i: usize) -> Party
        requires { i < most }
        ensures party_is { result ≡ party_at (machine self.now) i }
        ensures parties_many { length (machine self.now).party ≡ most };

    fn queue(&self, i: usize) -> Queue
        requires { i < most }
        ensures queue_is { result ≡ queue_at (machine self.now) i }
        ensures queues_many { length (machine self.now).queue ≡ most };
}

impl Record for Machine {
    ghost machine = { λ m. m };

    fn parties(&self) -> u32 {
        self.parties
    }

    fn party(&self, i: usize) -> Party {
        self.party[i]
    }

    fn queue(&self, i: usize) -> Queue {
        self.queue[i]
    }
}

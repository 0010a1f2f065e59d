// A fresh machine, or refusal 1, 7 or 8.
ghost use Rattle.std.specs.Prelude.{◌≡◌, false, ◌-◌, ◌≤◌, ◌^◌, length, nat_lt};
ghost use Rattle.std.specs.List.{list_any};
ghost use Rattle.words.specs.Edition.{width};
ghost use Rattle.tables.specs.Machine as M;
ghost use Rattle.tables.specs.Machine.{most};
ghost use Rattle.tables.specs.Step as St;

use tables::answer::Refusal;
use tables::place::Place;
use tables::state::{Drain, Kind, MOST, Machine, Opened, Party, Queue};

// A machine with its queues opened, and the sum of their capacities.
#[derive(Clone, Copy)]
struct Filled {
    machine: Machine,
    total: u64,
}

// No parties, all places idle, all words 0.
fn blank(kind: Kind) -> Machine
    ensures { result ≡ St.tables most 0 (St.closed_queues most (St.every_kind most kind)) }
{
    let party = Party {
        place: Place::Idle,
        drain: Drain { at: 0, end: 0 },
    };
    let queue = Queue {
        kind,
        capacity: 0,
        pushes: 0,
        packed: 0,
        completed: 0,
    };
    Machine {
        parties: 0,
        party: [party; MOST],
        queue: [queue; MOST],
    }
}

// Whether a request is above the largest capacity.
fn over(requests: &[u64]) -> bool
    ensures { result ≡ list_any (λ request. nat_lt (2 ^ (width - 1)) request) requests.now }
{
    let largest = words::largest_capacity();
    requests.iter().any(|&request| largest < request)
}

// LIFO: push count p, pop count 0, both heads p; FIFO: all p.
fn fresh(kind: Kind, request: u64, position: u32) -> Queue
    requires { request ≤ 2 ^ (width - 1) }
    ensures { result ≡ St.open_queue width kind request position }
{
    let capacity = words::capacity(request);
    match kind {
        Kind::Lifo => Queue {
            kind,
            capacity,
            pushes: position,
            packed: words::pack(0, position),
            completed: position,
        },
        Kind::Fifo => Queue {
            kind,
            capacity,
            pushes: position,
            packed: words::pack(position, position),
            completed: 0,
        },
    }
}

// The first n queues opened in a blank machine.
fn fill(
    machine: Machine,
    kind: Kind,
    requests: [u64; MOST],
    positions: [u32; MOST],
    n: usize,
) -> Filled
    requires few { n ≤ most }
    requires small { St.over_to width requests n ≡ false }
    requires blank { machine ≡ St.tables most 0 (St.closed_queues most (St.every_kind most kind)) }
    ensures machine_is { result.machine ≡ St.tables most n (St.open_queues width most (St.every_kind most kind) n requests positions) }
    ensures total_is { result.total ≡ M.base_of n (St.open_queues width most (St.every_kind most kind) n requests positions) }
{
    let mut machine = machine;
    let mut total: u64 = 0;
    for i in 0..n {
        let queue = fresh(kind, requests[i], positions[i]);
        total += queue.capacity as u64;
        machine.queue[i] = queue;
    }
    machine.parties = n as u32;
    Filled { machine, total }
}

// Refusals 1, 7 and 8, in that order. Of the items only their number matters: opening writes none. Requests and positions stand apart, as a
// host in C lends them.
pub fn open(
    kind: Kind,
    parties: u64,
    requests: [u64; MOST],
    positions: [u32; MOST],
    items: &[u64],
) -> Opened
    ensures { result ≡ St.opened_as (St.opening width most (St.every_kind most kind) parties requests positions (length items.now)) }
{
    let closed = blank(kind);
    if parties == 0 || parties > MOST as u64 {
        return Opened {
            machine: closed,
            refusal: Some(Refusal::Record),
        };
    }
    let n = parties as usize;
    if over(&requests[..n]) {
        return Opened {
            machine: closed,
            refusal: Some(Refusal::Request),
        };
    }
    let filled = fill(closed, kind, requests, positions, n);
    if (items.len() as u64) < filled.total {
        return Opened {
            machine: closed,
            refusal: Some(Refusal::Items),
        };
    }
    Opened {
        machine: filled.machine,
        refusal: None,
    }
}

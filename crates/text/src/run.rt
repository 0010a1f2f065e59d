// A run of the schedule program whole: input in pieces of any size, output into lent buffers of any size.
ghost use Rattle.std.specs.Prelude.{◌≡◌, ◌+◌, ◌-◌, ◌^◌, ◌<◌, ◌≤◌, ◌⊎◌, [], length, ◌==◌};
ghost use Rattle.words.specs.Edition.{width};
ghost use Rattle.words.specs.Word.{pick};
ghost use Rattle.tables.specs.Machine.{most};
ghost use Rattle.text.specs.Output as O;
ghost use Rattle.text.specs.Feeding as F;
ghost use Rattle.text.specs.Session as N;
ghost use Rattle.text.specs.Feeding.{Gets, GetsParts, Feeds, Rests};
ghost use Rattle.text.specs.Write as Wr;
ghost use Rattle.text.specs.Write.{HasRoom, Puts};

use super::session::{Session, Stage};
use super::write::Out;
use super::{lines, scan};
use machine::rest::Resting;
use machine::{rest, soundness};
use tables::state::{Kind, MOST, Machine};

// So many bytes of a line are kept: one more than the longest has.
const KEPT: usize = 121;

// The line at hand: the first `count` bytes, in memory that is fixed by a rule of the project. No bound on `count`: a run handed in with a larger one is taken as one of all bytes.
#[derive(Clone, Copy)]
pub struct Held {
    pub bytes: [u8; KEPT],
    pub count: usize,
}

// How far the rest lines have come: the next part of a queue's line, 0 its head, then each token, then the newline. A number, since any run
// may be handed to `rests`.
#[derive(Clone, Copy)]
pub struct Cursor {
    pub queue: u64,
    pub part: u64,
}

// A run between two pieces: `held` is the line at hand.
#[derive(Clone, Copy)]
pub struct Run {
    pub session: Session,
    pub machine: Machine,
    pub held: Held,
    pub at: Cursor,
}

// A run after a piece of input: how many of its bytes were used, and how many were written, in numbers, since a run is handed on by value.
#[derive(Clone, Copy)]
pub struct Fed {
    pub run: Run,
    pub used: usize,
    pub put: usize,
}

// A run after some of its rest lines: how many bytes were written, and whether nothing is left to be. The run and the bytes are there
// either way.
#[derive(Clone, Copy)]
pub struct Rested {
    pub run: Run,
    pub put: usize,
    pub done: bool,
}

// Before the first byte.
pub fn start(items: &[u64]) -> Run
    ensures flow_is { F.flow_of result items.now ≡ F.flow (O.fresh most items.now) [] }
    ensures cursor_is { F.cursor_of result ≡ F.cursor 0 0 }
{
    let opened = machine::open::open(Kind::Lifo, 0, [0; MOST], [0; MOST], items);
    Run {
        session: Session::start(),
        machine: opened.machine,
        held: Held::none(),
        at: Cursor { queue: 0, part: 0 },
    }
}

// Whether nothing more will be said, whatever follows: the opening was refused.
pub fn is_over(run: Run) -> bool
    ensures { result ≡ N.is_over run.session.stage }
{
    run.session.stage == Stage::Over
}

// ---- input

impl Held {
    fn none() -> Held
        ensures { F.held_of result ≡ [] }
    {
        Held {
            bytes: [0; KEPT],
            count: 0,
        }
    }

    fn is_none(&self) -> bool
        ensures { result ≡ (length (F.held_of self.now) == 0) }
    {
        self.count == 0
    }

    fn line(&self) -> &[u8]
        ensures { result.now ≡ F.held_of self.now }
    {
        &self.bytes[..self.count.min(KEPT)]
    }

    // More of its bytes; past 121 they are dropped.
    fn keep(&mut self, more: &[u8])
        ensures { F.held_of self.new ≡ F.kept_all (F.held_of self.old) more.now }
    {
        let from = self.count.min(KEPT);
        let end = from + more.len().min(KEPT - from);
        self.bytes[from..end].copy_from_slice(&more[..end - from]);
        self.count = end;
    }
}

impl Run {
    // The line at hand up to its newline, or as much of it as the piece has.
    fn one_line(&mut self, items: &mut [u64], piece: &[u8], used: usize, out: &mut Out) -> usize
        requires within { used < length piece.now }
        requires room { HasRoom out.old 128 }
        ensures gets { Gets piece.now (F.flow_of self.old items.old) used out.old (F.flow_of self.new items.new) result out.new }
        ensures cursor_is { F.cursor_of self.new ≡ F.cursor_of self.old }
        ensures onward { used < result }
    {
        let end = scan::find(piece, used, piece.len(), b'\n');
        self.held.keep(&piece[used..end]);
        if end == piece.len() {
            return end;
        }
        let held = self.held;
        self.session
            .take(&mut self.machine, items, held.line(), out);
        self.held = Held::none();
        end + 1
    }

    // Whole lines, where none is at hand and the machine is open and sound, which is tested once for all of them.
    fn many_lines(&mut self, items: &mut [u64], piece: &[u8], used: usize, out: &mut Out) -> usize
        requires { used ≤ length piece.now }
        ensures gets { Gets piece.now (F.flow_of self.old items.old) used out.old (F.flow_of self.new items.new) result out.new }
        ensures cursor_is { F.cursor_of self.new ≡ F.cursor_of self.old }
    {
        if !self.held.is_none() || !self.session.is_running() {
            return used;
        }
        let Some(starts) = soundness::starts_of(&self.machine, items.len()) else {
            return used;
        };
        lines::lines(
            &mut self.session,
            &mut self.machine,
            starts,
            items,
            piece,
            used,
            out,
        )
    }

    // A piece of input, until it is used up or `out` has no room for a line more. The first line may have begun in an earlier piece.
    fn take(&mut self, items: &mut [u64], piece: &[u8], out: &mut Out) -> usize
        ensures gets { Gets piece.now (F.flow_of self.old items.old) 0 out.old (F.flow_of self.new items.new) result out.new }
        ensures cursor_is { F.cursor_of self.new ≡ F.cursor_of self.old }
        ensures over { (Wr.room_of out.new < F.enough) ⊎ (length piece.now ≤ result) }
    {
        let mut used = 0;
        // No index is counted: a turn goes on by what was used.
        while used < piece.len() && out.has_room() {
            used = self.one_line(items, piece, used, out);
            used = self.many_lines(items, piece, used, out);
        }
        used
    }
}

// A piece of input, as far as `out` has room.
pub fn feed(run: Run, items: &mut [u64], piece: &[u8], out: &mut [u8]) -> Fed
    ensures feeds { Feeds (F.fed_in width most (length out.old) (F.flow_of run items.old) piece.now)
        (F.cursor_of run) result items.new out.old out.new }
    ensures within { result.used ≤ length piece.now }
    ensures onward { F.enough ≤ length out.old → 0 < length piece.now → 0 < result.used }
{
    let mut run = run;
    let mut out = Out::new(out);
    let used = run.take(items, piece, &mut out);
    Fed {
        run,
        used,
        put: out.put,
    }
}

// ---- the end

impl Cursor {
    // The part after one.
    fn after(self, resting: Resting) -> Cursor
        requires { self.queue < 2 ^ 32 }
        ensures { result ≡ F.part_after resting self }
    {
        if self.part <= resting.count as u64 {
            Cursor {
                part: self.part + 1,
                ..self
            }
        } else {
            Cursor {
                queue: self.queue + 1,
                part: 0,
            }
        }
    }
}

// One part of a rest line: its head, a token, or the newline.
fn put_part(items: &[u64], resting: Resting, at: Cursor, out: &mut Out)
    requires { HasRoom out.old 128 }
    ensures { Puts out.old (F.part_of width resting items.now at) out.new }
{
    if at.part == 0 {
        out.rest(at.queue);
    } else if at.part <= resting.count as u64 {
        out.field(rest::token_at(items, resting, (at.part - 1) as u32));
    } else {
        out.push(b"\n");
    }
}

impl Run {
    // How many queues there are to write of: none where the run never opened its machine.
    fn queues(&self) -> u64
        ensures number_is { result ≡ pick (N.is_running self.now.session.stage) self.now.machine.parties 0 }
        ensures near { result < 2 ^ 32 }
    {
        if self.session.is_running() {
            self.machine.parties as u64
        } else {
            0
        }
    }

    // Part after part, until none is left or `out` has no room for one more.
    fn parts(&self, items: &[u64], out: &mut Out) -> Cursor
        ensures gets_parts { GetsParts (N.state_of self.now.session self.now.machine items.now) (F.cursor_of self.now) out.old result out.new }
        ensures over { (Wr.room_of out.new < F.enough)
            ⊎ (O.queues_of (N.state_of self.now.session self.now.machine items.now) ≤ result.queue) }
    {
        let queues = self.queues();
        let mut at = self.at;
        // No `for`: the cursor is kept for the next call, and a turn goes on by a part of a line.
        while at.queue < queues && out.has_room() {
            let resting = rest::resting_of(&self.machine, at.queue);
            put_part(items, resting, at, out);
            at = at.after(resting);
        }
        at
    }

    // The line at hand, if there is one: at the end of the input its newline may be missing.
    fn last_line(&mut self, items: &mut [u64], out: &mut Out)
        ensures flow_is { F.flow_of self.new items.new ≡ (F.last_fed width most (Wr.room_of out.old) (F.flow_of self.old items.old)).flow }
        ensures puts { Puts out.old (F.last_fed width most (Wr.room_of out.old) (F.flow_of self.old items.old)).text out.new }
        ensures cursor_is { F.cursor_of self.new ≡ F.cursor_of self.old }
    {
        if !self.held.is_none() {
            self.take(items, b"\n", out);
        }
    }
}

// The end of the input: the line at hand, then the rest lines, as far as `out` has room; to be called until it is done.
pub fn rests(run: Run, items: &mut [u64], out: &mut [u8]) -> Rested
    ensures { Rests (F.rests_in width most (length out.old) (F.flow_of run items.old) (F.cursor_of run))
        result items.new out.old out.new }
{
    let mut run = run;
    let mut out = Out::new(out);
    run.last_line(items, &mut out);
    if !run.held.is_none() {
        return Rested {
            run,
            put: out.put,
            done: false,
        };
    }
    run.at = run.parts(items, &mut out);
    Rested {
        run,
        put: out.put,
        done: run.queues() <= run.at.queue,
    }
}

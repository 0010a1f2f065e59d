// A run of the schedule program, line by line: the session and the machine beside it, changed where they stand.
ghost use Rattle.std.specs.Prelude.{◌≡◌, ◌+◌, ◌≤◌};
ghost use Rattle.words.specs.Edition.{width};
ghost use Rattle.tables.specs.Machine.{most};
ghost use Rattle.tables.specs.Refusal.{number_of};
ghost use Rattle.tables.specs.Step as St;
ghost use Rattle.text.specs.Session as N;
ghost use Rattle.text.specs.Session.{Told, Took};
ghost use Rattle.text.specs.Write.{HasRoom, Puts};

use super::write::Out;
use super::{Line, read};
use tables::answer::{Refusal, Reply};
use tables::call::Act;
use tables::state::{Kind, MOST, Machine};

// What is wanted next: the machine line, a queue line, begin and step lines; Over: nothing, since the opening was refused.
#[derive(Clone, Copy, PartialEq, Eq)]
pub enum Stage {
    MachineLine,
    QueueLines,
    Running,
    Over,
}

// What was asked stands beside the stage and not in it: the definitions say what it is at every stage (`started`, `queue_asked`).
#[derive(Clone, Copy)]
pub struct Session {
    pub line: u64,
    pub stage: Stage,
    pub kind: Kind,
    pub parties: u64,
    pub asked: u64,
    // Two arrays, since `machine::open::open` takes them so.
    pub requests: [u64; MOST],
    pub positions: [u32; MOST],
}

// Machine, items and buffer are lent apart: a struct of the three references, made anew for each call, is no plainer.
impl Session {
    pub fn start() -> Session
        ensures { result ≡ N.started most }
    {
        Session {
            line: 0,
            stage: Stage::MachineLine,
            kind: Kind::Lifo,
            parties: 0,
            asked: 0,
            requests: [0; MOST],
            positions: [0; MOST],
        }
    }

    pub fn is_running(&self) -> bool
        ensures { result ≡ N.is_running self.now.stage }
    {
        self.stage == Stage::Running
    }

    // ---- refusals

    fn ends(&mut self, refusal: Refusal, out: &mut Out)
        requires { HasRoom out.old 128 }
        ensures { Told (N.ends self.old (number_of refusal)) self.new out.old out.new }
    {
        out.refused(self.line, refusal);
        self.stage = Stage::Over;
    }

    fn misplaced(&mut self, out: &mut Out)
        requires { HasRoom out.old 128 }
        ensures { Told (N.misplaced self.old) self.new out.old out.new }
    {
        match self.stage {
            Stage::MachineLine | Stage::QueueLines => self.ends(Refusal::Line, out),
            Stage::Running => out.refused(self.line, Refusal::Line),
            Stage::Over => {}
        }
    }

    // ---- the opening lines

    fn machine_asked(&mut self, kind: Kind, parties: u64, out: &mut Out)
        requires { HasRoom out.old 128 }
        ensures { Told (N.machine_asked most self.old kind parties) self.new out.old out.new }
    {
        if 0 < parties && parties <= MOST as u64 {
            self.stage = Stage::QueueLines;
            self.kind = kind;
            self.parties = parties;
            self.asked = 0;
        } else {
            self.ends(Refusal::Record, out);
        }
    }

    fn machine_taken(&mut self, kind: Kind, parties: u64, out: &mut Out)
        requires { HasRoom out.old 128 }
        ensures { Told (N.machine_taken most self.old kind parties) self.new out.old out.new }
    {
        if self.stage == Stage::MachineLine {
            self.machine_asked(kind, parties, out);
        } else {
            self.misplaced(out);
        }
    }

    fn queue_asked(&mut self, request: u64, position: u32)
        ensures { self.new ≡ N.queue_asked self.old request position }
    {
        if self.asked < MOST as u64 {
            let at = self.asked as usize;
            self.requests[at] = request;
            self.positions[at] = position;
        }
        self.asked = self.asked.wrapping_add(1);
    }

    // All the queues are asked for: the opening judges them together.
    fn opens(&mut self, m: &mut Machine, items: &[u64], out: &mut Out)
        requires { HasRoom out.old 128 }
        ensures { Took (N.opens width most m.old items.now self.old)
            (N.state_of self.new m.new items.now) out.old out.new }
    {
        let opened = machine::open::open(
            self.kind,
            self.parties,
            self.requests,
            self.positions,
            items,
        );
        match opened.refusal {
            None => {
                *m = opened.machine;
                self.stage = Stage::Running;
            }
            Some(refusal) => self.ends(refusal, out),
        }
    }

    fn queue_read(&mut self, m: &mut Machine, items: &[u64], out: &mut Out)
        requires { HasRoom out.old 128 }
        ensures { Took (N.queue_read width most m.old items.now self.old)
            (N.state_of self.new m.new items.now) out.old out.new }
    {
        if self.asked == self.parties {
            self.opens(m, items, out);
        }
    }

    fn queue_taken(
        &mut self,
        m: &mut Machine,
        items: &[u64],
        request: u64,
        position: u32,
        out: &mut Out,
    )
        requires { HasRoom out.old 128 }
        ensures { Took (N.queue_taken width most m.old items.now self.old request position)
            (N.state_of self.new m.new items.now) out.old out.new }
    {
        if self.stage != Stage::QueueLines {
            self.misplaced(out);
        } else if request <= words::largest_capacity() {
            self.queue_asked(request, position);
            self.queue_read(m, items, out);
        } else {
            self.ends(Refusal::Request, out);
        }
    }

    // ---- the run

    fn acts(&mut self, m: &mut Machine, items: &mut [u64], who: u64, act: Act, out: &mut Out)
        requires { HasRoom out.old 128 }
        ensures { Took (N.acts m.old items.old self.old who (St.acted width most m.old items.old who act))
            (N.state_of self.new m.new items.new) out.old out.new }
    {
        if self.is_running() {
            let acted = machine::apply(*m, items, who, act);
            *m = acted.machine;
            put_outcome(self.line, who, acted.reply, out);
        } else {
            self.misplaced(out);
        }
    }

    // ---- any line

    fn by_kind(&mut self, m: &mut Machine, items: &mut [u64], line: Line, out: &mut Out)
        requires { HasRoom out.old 128 }
        ensures { Took (N.line_taken width most m.old items.old self.old line)
            (N.state_of self.new m.new items.new) out.old out.new }
    {
        match line {
            Line::Machine(kind, parties) => self.machine_taken(kind, parties, out),
            Line::Queue { request, position } => self.queue_taken(m, items, request, position, out),
            Line::Begin(who, call) => self.acts(m, items, who, Act::Begin(call), out),
            Line::Step(who, mark) => self.acts(m, items, who, Act::Step(mark), out),
            Line::Malformed => self.misplaced(out),
        }
    }

    // The next line of the input, its newline apart: any bytes at all. One over 120 bytes, which is not kept, is malformed.
    pub fn take(&mut self, m: &mut Machine, items: &mut [u64], text: &[u8], out: &mut Out)
        requires { HasRoom out.old 128 }
        ensures { Took (N.next_of width most m.old items.old self.old text.now)
            (N.state_of self.new m.new items.new) out.old out.new }
    {
        self.line = self.line.wrapping_add(1);
        self.by_kind(m, items, read::read_line(text), out);
    }
}

// A refusal, or the answer if the call has come to one.
fn put_outcome(line: u64, who: u64, reply: Result<Reply, Refusal>, out: &mut Out)
    requires { HasRoom out.old 128 }
    ensures puts { Puts out.old (N.outcome_text line who reply) out.new }
    ensures near { out.new.put ≤ out.old.put + 128 }
{
    match reply {
        Ok(
            Reply {
                answer: Some(answer),
                ..
            },
        ) => out.answer(who, answer),
        Ok(_) => {}
        Err(refusal) => out.refused(line, refusal),
    }
}

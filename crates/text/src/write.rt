// What is printed, written into a lent buffer, each piece after the one before.
ghost use Rattle.std.specs.Prelude.{◌≡◌, ◌+◌, ◌≤◌, length, drop, nat_le};
ghost use Rattle.tables.specs.Answer.{answer_row, listed};
ghost use Rattle.tables.specs.Refusal.{number_of};
ghost use Rattle.text.specs.Ascii.{ascii};
ghost use Rattle.text.specs.Number.{decimal_of};

use tables::answer;
use tables::answer::{Answer, Refusal, Values};

// A buffer with so much room takes a line, or a part of a rest line. Each function that writes one asks for it: a type that has the room
// would lose it by the writing.
const ENOUGH: usize = 128;

// A number of 64 bits has at most so many digits.
const DIGITS: usize = 20;

// A lent buffer, and how many of its bytes are put so far.
#[derive(Drop)]
pub struct Out<'a> {
    pub bytes: &'a mut [u8],
    pub put: usize,
    ghost within: { put ≤ length bytes.now },
}

impl<'a> Out<'a> {
    ghost use Rattle.text.specs.Write as Wr;
    ghost use Rattle.text.specs.Write.{HasRoom, Puts};

    pub fn new(bytes: &'a mut [u8]) -> Out<'a>
        ensures same { result.bytes.ghost_name ≡ bytes.entry.ghost_name }
        ensures bytes_are { result.bytes.now ≡ bytes.old }
        ensures put_is { result.put ≡ 0 }
        ensures room_is { Wr.room_of result ≡ length bytes.old }
    {
        Out { bytes, put: 0 }
    }

    // Whether a line, or a part of a rest line, has room.
    pub fn has_room(&self) -> bool
        ensures { result ≡ nat_le 128 (Wr.room_of self.now) }
    {
        ENOUGH <= self.bytes.len() - self.put
    }

    pub fn push(&mut self, text: &[u8])
        requires { HasRoom self.old (length text.now) }
        ensures { Puts self.old text.now self.new }
    {
        let end = self.put + text.len();
        let bytes = &mut *self.bytes;
        bytes[self.put..end].copy_from_slice(text);
        self.put = end;
    }

    fn decimal(&mut self, n: u64)
        requires { HasRoom self.old 20 }
        ensures puts { Puts self.old (decimal_of n) self.new }
        ensures near { self.new.put ≤ self.old.put + 20 }
    {
        let mut text = [0; DIGITS];
        let from = digits(n, &mut text);
        self.push(&text[from..]);
    }

    pub fn field(&mut self, n: u64)
        requires { HasRoom self.old 21 }
        ensures puts { Puts self.old (Wr.field_for n) self.new }
        ensures near { self.new.put ≤ self.old.put + 21 }
    {
        self.push(b"\t");
        self.decimal(n);
    }

    // A field, if there is a number for it.
    fn maybe(&mut self, n: Option<u64>)
        requires { HasRoom self.old 21 }
        ensures puts { Puts self.old (Wr.fields_for (listed n)) self.new }
        ensures near { self.new.put ≤ self.old.put + 21 }
    {
        if let Some(n) = n {
            self.field(n);
        }
    }

    fn values(&mut self, values: Values)
        requires { HasRoom self.old 42 }
        ensures puts { Puts self.old (Wr.fields_for (Wr.numbers_of values)) self.new }
        ensures near { self.new.put ≤ self.old.put + 42 }
    {
        self.maybe(values.token);
        self.maybe(values.count);
    }

    pub fn answer(&mut self, party: u64, answer: Answer)
        requires { HasRoom self.old 128 }
        ensures puts { Puts self.old (Wr.answer_of party answer) self.new }
        ensures near { self.new.put ≤ self.old.put + 128 }
    {
        self.push(b"answer");
        self.field(party);
        self.push(b"\t");
        self.push(word(answer));
        self.values(answer::answer_row(answer).values);
        self.push(b"\n");
    }

    // Cold, so that the loop over lines has it apart: without it, a line costs some 8 instructions more. A refusal's number is one digit,
    // put at once with what stands around it: as a field, a refused line cost some 50 instructions more.
    #[cold]
    pub fn refused(&mut self, line: u64, refusal: Refusal)
        requires { HasRoom self.old 128 }
        ensures puts { Puts self.old (Wr.refused_of line (number_of refusal)) self.new }
        ensures near { self.new.put ≤ self.old.put + 128 }
    {
        self.push(b"refused");
        self.field(line);
        self.push(&[b'\t', b'0' + u8::from(refusal), b'\n']);
    }

    // A rest line comes in pieces, since its tokens may be more than a buffer holds: its head, a field a token, a newline.
    pub fn rest(&mut self, queue: u64)
        requires { HasRoom self.old 128 }
        ensures puts { Puts self.old (Wr.rest_head queue) self.new }
        ensures near { self.new.put ≤ self.old.put + 128 }
    {
        self.push(b"rest");
        self.field(queue);
    }
}

// n's digits fill the text from its end on; the first of them is answered. No `Display`, here and below: nothing is promised of what it
// writes, and each byte is promised here (`Puts`).
fn digits(n: u64, text: &mut [u8; DIGITS]) -> usize
    ensures within { result ≤ 20 }
    ensures digits_are { drop result text.new ≡ decimal_of n }
{
    let mut rest = n;
    for i in (0..DIGITS).rev() {
        text[i] = b'0' + (rest % 10) as u8;
        rest /= 10;
        if rest == 0 {
            return i;
        }
    }
    0
}

fn word(answer: Answer) -> &'static [u8]
    ensures is { result.now ≡ ascii (answer_row answer).word }
    ensures short { length result.now ≤ 8 }
{
    match answer {
        Answer::Pushed => b"pushed",
        Answer::Full(_) => b"full",
        Answer::Popped(_) => b"popped",
        Answer::None => b"none",
        Answer::Extended(_) => b"extended",
        Answer::Stolen(_) => b"stolen",
        Answer::Taken { .. } => b"taken",
        Answer::Drain(_) => b"drain",
        Answer::Item(_) => b"item",
        Answer::Done => b"done",
        Answer::Closed => b"closed",
        Answer::Busy => b"busy",
        Answer::Empty => b"empty",
        Answer::Spare(_) => b"spare",
        Answer::Yes => b"yes",
        Answer::No => b"no",
    }
}

// Reads a schedule on standard input and writes its output. What that is stands in text::run; here bytes are only moved.
#![tactic(auto)]

ghost use Rattle.std.specs.Prelude.{◌≤◌, length};

use std::io::{Read, Write};
use text::run;

// How many bytes are read or written at a time.
const PIECE: usize = 65536;

// What can fail.
#[derive(Clone, Copy)]
enum Fault {
    Input,
    Output,
}

impl Fault {
    // What is then said.
    fn message(self) -> &'static [u8] {
        match self {
            Fault::Input => b"schedule: the input cannot be read\n",
            Fault::Output => b"schedule: the output cannot be written\n",
        }
    }
}

fn run(
    input: &mut impl Read,
    output: &mut impl Write,
    buf: &mut [u8],
    items: &mut [u64],
    out: &mut [u8],
) -> Result<(), Fault>
    requires { 128 ≤ length out.old }
{
    let mut r = run::start(items);
    // A `for`, since each loop is proved to end; so is the other.
    for _ in 0..u64::MAX {
        if run::is_over(r) {
            break;
        }
        let n = input.read(buf).map_err(|_| Fault::Input)?;
        if n == 0 {
            break;
        }
        let mut used = 0;
        // No index is counted: a turn goes on by what was used.
        while used < n {
            let fed = run::feed(r, items, &buf[used..n], out);
            output
                .write_all(&out[..fed.put])
                .map_err(|_| Fault::Output)?;
            r = fed.run;
            used += fed.used;
        }
    }
    for _ in 0..u64::MAX {
        let rested = run::rests(r, items, out);
        output
            .write_all(&out[..rested.put])
            .map_err(|_| Fault::Output)?;
        if rested.done {
            break;
        }
        r = rested.run;
    }
    Ok(())
}

fn main(rt: HostRuntime) {
    let mut buf = [0; PIECE];
    let mut out = [0; PIECE];
    let mut items = [0u64; 4096]; // item slots, for all queues together
    let mut input = rt.stdin();
    let mut output = rt.stdout();
    if let Err(fault) = run(&mut input, &mut output, &mut buf, &mut items, &mut out) {
        let _ = rt.stderr().write_all(fault.message());
    }
}

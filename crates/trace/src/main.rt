// The trace program: it reads request records from standard input, puts them to the kernel's door from a fresh table on, and prints a line
// for each. What is printed is decided by the crates `replay` and `text`; here bytes come and go. The lines of a part are written before
// the next part is read, so that a slow pipe is answered as it speaks.
#![tactic(auto)]

ghost use Rattle.std.specs.Prelude.{◌≡◌};
ghost use Rattle.rules.specs.Trace.{short_line};
ghost use Rattle.text.specs.Text.{trace_text};
ghost use Rattle.trace.specs.Going.{Ended};

use buffer::Buffer;
use streams::Program;

// A block holds 1,024 records, so that a file's reads leave nothing over; a line takes at most 48 bytes.
const RECORDS: usize = 1024;

const BLOCK: usize = RECORDS * rules::REQUEST;

const LINES: usize = RECORDS * 48;

// What the run comes to: how many bytes have come, and how many records are served.
#[derive(Clone, Copy)]
struct Served {
    bytes: u64,
    number: u64,
}

// No more is read: the line of the bytes that are held stands ready, and is written if the input has ended.
fn close(program: Program<'_>, held: usize, ended: bool, lines: &mut Buffer<LINES>)
    ensures { lines.new ≡ trace_text (short_line held) }
{
    lines.clear();
    replay::put_end(held, lines);
    if ended {
        let _ = program.write(lines.as_slice());
    }
}

// The whole input is traced, part by part. A failure is said on standard error and ends the trace. Each of the three programs has this loop of
// its own: what they do with a part and when they end differs, and a closure's contract would be the loop's invariant over again.
fn run(program: Program<'_>, table: &mut [u8; rules::TABLE], lines: &mut Buffer<LINES>) -> Served
    ensures { Ended table.old result.bytes result.number table.new lines.new }
{
    let mut block = Buffer::<BLOCK>::new();
    let mut bytes: u64 = 0;
    let mut number: u64 = 0;
    let mut ended = false;
    for _ in 0..streams::READS {
        let Ok(n) = program.read_behind(&mut block) else {
            break;
        };
        if n == 0 {
            ended = true;
            break;
        }
        // A cast: no `From` leads from a usize to it.
        bytes += n as u64;
        lines.clear();
        number = replay::serve_part(table, number, &mut block, lines);
        if program.write(lines.as_slice()).is_err() {
            break;
        }
    }
    close(program, block.len(), ended, lines);
    Served { bytes, number }
}

fn main(rt: HostRuntime) {
    let mut table = replay::fresh();
    let mut lines = Buffer::new();
    run(
        Program::of(streams::of(&rt), b"trace"),
        &mut table,
        &mut lines,
    );
}

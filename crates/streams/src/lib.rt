// A program's standard input and output: a read behind the bytes that are held, and a write of what stands ready. A failure is said on
// standard error, with the program's name before it.
#![tactic(auto)]

ghost use Rattle.std.specs.Prelude.{◌≡◌, ◌+◌, ◌≤◌, length, take, IfOk, OnErr};

use buffer::Buffer;
use std::io::{Print, Read, Result, Stderr, Stdin, Stdout};

mod lent;

pub use lent::{Come, read_behind, say_front, write_front};

// How many reads a program makes at the most: more than any machine lives for.
pub const READS: u64 = 1125899906842624;

// A program's three streams, as its `main` is given them.
#[derive(Clone, Copy)]
pub struct Streams {
    pub input: Stdin,
    pub output: Stdout,
    pub errors: Stderr,
}

// The streams of the process.
pub fn of(rt: &HostRuntime) -> Streams {
    Streams {
        input: rt.stdin(),
        output: rt.stdout(),
        errors: rt.stderr(),
    }
}

// The bytes go to standard error.
fn say_bytes(stdio: Streams, bytes: &[u8]) {
    let _ = stdio.errors.write_all(bytes);
}

// A program's name and what failed, on standard error.
fn say_failure(stdio: Streams, name: &[u8], what: &[u8]) {
    say_bytes(stdio, name);
    say_bytes(stdio, what);
}

// A read failed.
fn say_unread(stdio: Streams, name: &[u8]) {
    say_failure(stdio, name, b": standard input can't be read\n");
}

// The bytes go to standard output.
fn write_bytes(stdio: Streams, name: &[u8], bytes: &[u8]) -> Result<()> {
    let written = stdio.output.write_all(bytes);
    if written.is_err() {
        say_failure(stdio, name, b": standard output can't be written\n");
    }
    written
}

// A program's streams, and its name.
#[derive(Clone, Copy)]
pub struct Program<'a> {
    streams: Streams,
    name: &'a [u8],
}

impl<'a> Program<'a> {
    // The program of that name, with those streams.
    pub fn of(streams: Streams, name: &'a [u8]) -> Program<'a> {
        Program { streams, name }
    }

    // One read of standard input, behind the bytes that the block holds: these stay. How many came is given back, and 0 at the end.
    pub fn read_behind<const N: usize>(&self, block: &mut Buffer<N>) -> Result<usize>
        ensures come { IfOk result (λ n. length block.new ≡ length block.old + n) }
        ensures held { take (length block.old) block.new ≡ block.old }
        ensures failed { OnErr result (block.new ≡ block.old) }
        ensures room { length block.new ≤ N }
    {
        let mut part = [0u8; N];
        let held = block.len();
        let mut input = self.streams.input;
        match input.read(&mut part[..N - held]) {
            Ok(n) => {
                block.extend(&part[..n]);
                Ok(n)
            }
            Err(why) => {
                say_unread(self.streams, self.name);
                Err(why)
            }
        }
    }

    // The bytes go to standard output.
    pub fn write(&self, bytes: &[u8]) -> Result<()> {
        write_bytes(self.streams, self.name, bytes)
    }

    // The bytes go to standard error.
    pub fn say(&self, bytes: &[u8]) {
        say_bytes(self.streams, bytes);
    }
}

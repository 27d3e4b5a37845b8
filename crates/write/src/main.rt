// The program `write`: a listing on standard input, its request records on standard output. It differs from `list` by its way alone: both are one
// call of what they share, and a program has a `main` of its own.
#![tactic(auto)]

use buffer::Buffer;
use listing::Way;
use streams::Program;

fn main(rt: HostRuntime) {
    let mut block = Buffer::new();
    let mut out = Buffer::new();
    exchange::turn_all(
        Program::of(streams::of(&rt), b"write"),
        Way::ToRecords,
        &mut block,
        &mut out,
    );
}

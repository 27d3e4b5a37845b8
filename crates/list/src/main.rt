// The program `list`: request records on standard input, their listing on standard output. It differs from `write` by its way alone.
#![tactic(auto)]

use buffer::Buffer;
use listing::Way;
use streams::Program;

fn main(rt: HostRuntime) {
    let mut block = Buffer::new();
    let mut out = Buffer::new();
    exchange::turn_all(
        Program::of(streams::of(&rt), b"list"),
        Way::ToListing,
        &mut block,
        &mut out,
    );
}

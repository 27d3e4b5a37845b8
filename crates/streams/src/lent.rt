// The same for a caller that lends bytes of its own and hands over the name at each call.
ghost use Rattle.std.specs.Prelude.{◌≤◌, ◌≡◌, length, take};

use crate::{Streams, say_bytes, say_unread, write_bytes};
use std::io::Read;

// What a read leaves: so many bytes are at hand, and whether it failed.
#[derive(Clone, Copy)]
pub struct Come {
    pub n: usize,
    pub failed: bool,
}

// One read of standard input, behind the bytes of the block that are held: these stay.
pub fn read_behind(stdio: Streams, name: &[u8], block: &mut [u8], held: usize) -> Come
    requires { held ≤ length block.old }
    ensures within { (held ≤ result.n) × (result.n ≤ length block.new) }
    ensures held { take held block.new ≡ take held block.old }
{
    let mut input = stdio.input;
    let (k, failed) = match input.read(&mut block[held..]) {
        Ok(k) => (k, false),
        Err(_) => (0, true),
    };
    if failed {
        say_unread(stdio, name);
    }
    Come {
        n: held + k,
        failed,
    }
}

// The first `n` bytes go to standard output: whether they did.
pub fn write_front(stdio: Streams, name: &[u8], bytes: &[u8], n: usize) -> bool
    requires { n ≤ length bytes.now }
{
    write_bytes(stdio, name, &bytes[..n]).is_ok()
}

// The first `n` bytes go to standard error.
pub fn say_front(stdio: Streams, bytes: &[u8], n: usize)
    requires { n ≤ length bytes.now }
{
    say_bytes(stdio, &bytes[..n]);
}

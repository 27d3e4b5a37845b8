// Does each thread stand at a place of its own in its line, with no gap before it? Of each the number of its line is noted, 0 for none, and
// its place, and each is held against all others. What is noted of the threads is noted once more behind them, as in a ring: so as many
// entries as there are threads, from any entry on, are those of all threads.
#![tactic(auto)]

ghost use Rattle.std.specs.Prelude.{◌≡◌, false, ◌↔◌, ℕ, ◌+◌, ◌≤◌, ◌<◌, length, replicate, set};
ghost use Rattle.rules.specs.Basic.{all_below};
ghost use Rattle.rules.specs.Board.{most_threads};
ghost use Rattle.places.specs.Rings.{Entries, Ring, ring_length, closed, half, entry_in, entry_at, count_below, placed, Near};

use rules::MOST_THREADS;
use std::marker::Model;

// The entries that a ring has room for, on whatever board.
pub const RING: usize = 2 * MOST_THREADS;

// What is noted of the threads. Two arrays of bytes and not one of pairs: so all threads are asked at once, in vectors. How many threads
// there are is handed over and does not stand here: so the compiler knows it.
#[derive(Drop)]
pub struct Noted {
    lines: [u8; RING],
    places: [u8; RING],
}

impl Model for Noted {
    ghost Value = { Entries };

    ghost view = { λ a. record { lines = a.lines; places = a.places } };
}

// ONE THREAD

// How many threads stand in a line?
fn length_of(lines: &[u8], line: u8) -> u8
    requires { length lines.now ≤ most_threads }
    ensures { result ≡ count_below (length lines.now) (entry_in lines.now line) }
{
    let mut length: u8 = 0;
    for l in lines {
        length += u8::from(*l == line);
    }
    length
}

// Has any of these that place of the line? All are asked, also after one that has it: in vectors, without a branch.
fn shared(lines: &[u8], places: &[u8], line: u8, place: u8) -> bool
    requires { length places.now ≡ length lines.now }
    ensures { (result ≡ false) ↔ ((k : ℕ) → k < length lines.now → entry_at lines.now places.now line place k ≡ false) }
{
    let mut found = false;
    for (l, p) in lines.iter().zip(places) {
        found |= (*l == line) & (*p == place);
    }
    found
}

// In no line a thread's place is 0; in a line of that length it is one of 1 to the length, and not shared. All of it is asked, without a branch,
// so that all threads are asked at once.
fn misplaced(line: u8, place: u8, length: u8, shared: bool) -> bool
    ensures { (result ≡ false) ↔ ((line ≡ 0 → place ≡ 0) × ((line ≡ 0 → ⊥) → (1 ≤ place) × (place ≤ length) × (shared ≡ false))) }
{
    let stands = line != 0;
    (!stands & (place != 0)) | (stands & (shared | (place == 0) | (place > length)))
}

// Is thread `j` of `n` misplaced? Of two threads that share a place one stands in the half of the ring before the other, so that
// each need only ask the half before itself.
fn misplaced_at(lines: &[u8], places: &[u8], n: usize, j: usize) -> bool
    requires { (j < n) × Ring n lines.now × Ring n places.now }
    ensures { (result ≡ false) ↔ Near n lines.now places.now j }
{
    let half = n / 2;
    let line = lines[j + n];
    let place = places[j + n];
    let from = j + half;
    let taken = shared(
        &lines[from..from + half],
        &places[from..from + half],
        line,
        place,
    );
    let length = length_of(&lines[j..j + n], line);
    misplaced(line, place, length, taken)
}

// ALL THREADS

impl Noted {
    // Nothing is noted yet.
    pub fn new() -> Self
        ensures lines { result.lines ≡ replicate ring_length 0 }
        ensures places { result.places ≡ replicate ring_length 0 }
    {
        Noted {
            lines: [0; RING],
            places: [0; RING],
        }
    }

    // Of thread `i` the number of its line is noted, and its place.
    pub fn note(&mut self, i: usize, line: u8, place: u8)
        requires { i < ring_length }
        ensures lines { self.new.lines ≡ set self.old.lines i line }
        ensures places { self.new.places ≡ set self.old.places i place }
    {
        self.lines[i] = line;
        self.places[i] = place;
    }

    // Is every one of `n` threads well placed? All are asked here too.
    pub fn all_placed(&mut self, n: usize) -> bool
        requires few { n ≤ most_threads }
        requires even { half n + half n ≡ n }
        ensures answer { result ≡ all_below n (placed n self.old.lines self.old.places) }
        ensures lines { self.new.lines ≡ closed n self.old.lines }
        ensures places { self.new.places ≡ closed n self.old.places }
    {
        let lines = &mut self.lines[..];
        lines.copy_within(0..n, n);
        let places = &mut self.places[..];
        places.copy_within(0..n, n);
        let mut bad = false;
        for j in 0..n {
            bad |= misplaced_at(&self.lines, &self.places, n, j);
        }
        !bad
    }
}

// The same of what is noted in two slices that are lent. A loop of its own: in the kernel it is the struct's arrays that all threads are asked
// of at once.
pub fn all_placed(lines: &mut [u8], places: &mut [u8], n: usize) -> bool
    requires { Ring n lines.old × Ring n places.old }
    ensures answer { result ≡ all_below n (placed n lines.old places.old) }
    ensures lines { lines.new ≡ closed n lines.old }
    ensures places { places.new ≡ closed n places.old }
{
    lines.copy_within(0..n, n);
    places.copy_within(0..n, n);
    let mut bad = false;
    for j in 0..n {
        bad |= misplaced_at(lines, places, n, j);
    }
    !bad
}

// Lines, and what the records of their members have in common: the first eight bytes of a record say at one look whether its thread stands in
// a line, and whether it is the first there.
#![tactic(auto)]

ghost use Rattle.std.specs.Prelude.{◌≡◌, ◌*◌, eqb};
ghost use Rattle.std.specs.Int.Bits.{bit_and};
ghost use Rattle.rules.specs.Board.{record_length};
ghost use Rattle.rules.specs.State.{State, at};
ghost use Rattle.rules.specs.Lines.{wait_line, line, in_line, is_first};
ghost use Rattle.layout.specs.Boards.{HasThread};
ghost use Rattle.layout.specs.Held.{Long, Holds};
ghost use Rattle.words.specs.Long.{long_at};
ghost use Rattle.marks.specs.Named.{named, named_or_nowhere};
ghost use Rattle.marks.specs.Numbers.{line_number};
ghost use Rattle.marks.specs.Marks.{mark_of, first_mark};

use rules::{Thread, Wait};

// LINES

// "There is a ready line per priority, a line per semaphore, and a line of senders per receiving thread."
#[derive(Clone, Copy)]
pub enum Line {
    Ready { priority: u8 },
    Waiters { semaphore: u8 },
    Senders { thread: u8 },
}

// The line of a thread in use, by its wait.
fn wait_line(w: Wait, suspended: bool, priority: u8) -> Option<Line>
    ensures { named_or_nowhere result ≡ wait_line w suspended priority }
{
    match w {
        Wait::Nothing { .. } => {
            if suspended {
                None
            } else {
                Some(Line::Ready { priority })
            }
        }
        Wait::Delay { .. } | Wait::Receive { .. } => None,
        Wait::Send { to, .. } => Some(Line::Senders { thread: to }),
        Wait::Semaphore { on, .. } => Some(Line::Waiters { semaphore: on }),
    }
}

// The line that a thread stands in, if it stands in one.
pub fn line_of(th: Thread) -> Option<Line>
    ensures { named_or_nowhere result ≡ line th }
{
    if th.used {
        wait_line(th.wait, th.suspended, th.priority)
    } else {
        None
    }
}

// The number of a line; 0 where there is none.
pub fn number_of(line: Option<Line>) -> u16
    ensures { result ≡ line_number (named_or_nowhere line) }
{
    match line {
        None => 0,
        Some(Line::Ready { priority }) => 3 * u16::from(priority) + 1,
        Some(Line::Waiters { semaphore }) => 3 * u16::from(semaphore) + 2,
        Some(Line::Senders { thread }) => 3 * u16::from(thread) + 3,
    }
}

// MARKS

// Which bits of a record's first eight bytes tell that its thread stands in a line, and what they are there.
#[derive(Clone, Copy)]
pub struct Mark {
    pub mask: u64,
    pub bytes: u64,
}

// All five bytes that tell of a ready thread.
const READY: u64 = 1099511627775;

// The byte of use, and the wait's kind and object.
const WAITING: u64 = 255 + 65535 * 16777216;

// The mark of a line.
pub fn line_mark(line: Line) -> Mark
    ensures { result ≡ mark_of (named line) }
{
    match line {
        Line::Ready { priority } => Mark {
            mask: READY,
            bytes: 1 + 256 * u64::from(priority),
        },
        Line::Waiters { semaphore } => Mark {
            mask: WAITING,
            bytes: 1 + 4 * 16777216 + 4294967296 * u64::from(semaphore),
        },
        Line::Senders { thread } => Mark {
            mask: WAITING,
            bytes: 1 + 3 * 16777216 + 4294967296 * u64::from(thread),
        },
    }
}

// No record has this mark.
const NOBODY: Mark = Mark { mask: 0, bytes: 1 };

// The mark of the line of that number. In line 0 nobody stands, nor in one whose object no byte can name.
pub fn mark_of(line: u16) -> Mark
    ensures { (l : _) → line ≡ line_number l → result ≡ mark_of l }
{
    if line == 0 {
        return NOBODY;
    }
    let object = (line - 1) / 3;
    if object > 255 {
        return NOBODY;
    }
    let object = object as u8;
    match (line - 1) % 3 {
        0 => line_mark(Line::Ready { priority: object }),
        1 => line_mark(Line::Waiters { semaphore: object }),
        _ => line_mark(Line::Senders { thread: object }),
    }
}

// The mark of the line's first thread.
pub fn first_mark(line: Line) -> Mark
    ensures { result ≡ first_mark (named line) }
{
    let m = line_mark(line);
    Mark {
        mask: m.mask + 255 * 1099511627776,
        bytes: m.bytes + 1099511627776,
    }
}

// Does thread `j`'s record have the mark?
pub fn has_mark(t: &[u8], j: usize, m: Mark) -> bool
    requires { HasThread t.now j × Long t.now }
    ensures bytes { result ≡ eqb (bit_and (long_at t.now (j * record_length)) m.mask) m.bytes }
    ensures line { (s : State) (l : _) → Holds t.now s → m ≡ mark_of l → result ≡ in_line l (at s.threads j) }
    ensures first { (s : State) (l : _) → Holds t.now s → m ≡ first_mark l → result ≡ is_first l (at s.threads j) }
{
    records::head(t, j) & m.mask == m.bytes
}

// The same for a caller that lends bytes.
ghost use Rattle.std.specs.Prelude.{◌≤◌, length};
ghost use Rattle.rules.specs.Board.{printer};
ghost use Rattle.rules.specs.Table.{decode};
ghost use Rattle.text.specs.Puts.{Puts};
ghost use Rattle.lanes.specs.Report.{report_text};
ghost use Rattle.lanes.specs.Kept.{of, Kept};
ghost use Rattle.lags.specs.Room.{SaysSound, report_room};

use buffer::Buffer;
use rules::{TABLE, THREADS};

// The room for the longest report: `stopped`, and a line of each thread.
const ROOM: usize = 8 + THREADS * 35;

// The whole report goes to the start of `out`; the place after it is given back.
pub fn put_report(table: &[u8], accounts: &[u64], stopped: bool, out: &mut [u8]) -> usize
    requires says_sound { SaysSound table.now }
    requires kept { Kept 0 accounts.now }
    requires report_room_in_bounds { report_room ≤ length out.old }
    ensures text { Puts out.old 0 (report_text stopped (of accounts.now) (decode printer table.now)) out.new result }
    ensures room { result ≤ report_room }
{
    let mut own_table = [0u8; TABLE];
    own_table.copy_from_slice(table);
    let mut own_accounts = [0u64; THREADS];
    own_accounts.copy_from_slice(accounts);
    let mut report = Buffer::<ROOM>::new();
    crate::put_lanes(&own_table, &own_accounts, stopped, &mut report);
    let end = report.len();
    out[..end].copy_from_slice(report.as_slice());
    end
}

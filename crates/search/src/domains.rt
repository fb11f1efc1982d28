// A domain by its handle.
ghost use Rattle.std.specs.Prelude.{◌≤◌, length};
ghost use Rattle.words.specs.Layout.{handle_at, max_live};
ghost use Rattle.table.specs.Entry.{live};
ghost use Rattle.search.specs.Domain.{Named};

use words::layout::{LIVE_AT, handle_at};

// The depth of the live domain with this handle, or of the innermost for 0.
pub fn find_domain(table: &[u32], handle: u32) -> Option<u32>
    requires { (handle_at max_live ≤ length table.now) × (live table.now ≤ max_live) }
    ensures { Named table.now handle result }
{
    let live = table[LIVE_AT];
    if handle == 0 {
        return (live != 0).then_some(live);
    }
    (1..live + 1).find(|depth| table[handle_at(*depth as usize - 1)] == handle)
}

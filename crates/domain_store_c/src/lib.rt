// The functions of C: each export calls the function of its name in `domain_store`, and promises the same of it. A crate is built as a library or as a
// static library and not as both, so what other crates stand on and what C links are two.
// stays: each is as the function of its name in domain_store, the C interface
#![tactic(auto)]

ghost use Rattle.std.specs.Prelude.{◌≡◌, length};
ghost use Rattle.ranges.specs.Ranges.{one_range};
ghost use Rattle.store.specs.Outcome.{buffers, outcome};
ghost use Rattle.store.specs.Calls.{make_call, open_call, create_call};
ghost use Rattle.store.specs.Means.{list_means};
ghost use Rattle.add.specs.Add.{add_call};
ghost use Rattle.delete.specs.Delete.{delete_call};
ghost use Rattle.commit.specs.Commit.{commit_call};
ghost use Rattle.advance.specs.Advance.{advance_call};
ghost use Rattle.restore.specs.Restore.{restore_call};
ghost use Rattle.look.specs.Look.{look_place};
ghost use Rattle.domain_store.specs.Boundary.{eight, listed_in_c, listed_by, looked_in_c, looked_by, OffsetWithin, Returns};

use ranges::Range;

// Makes a fresh store.
#[unsafe(no_mangle)]
pub extern "C" fn ds_make(
    memory: &[u8],
    bodies: &[u8],
    table: &mut [u32],
    budget: u64,
    steps: &mut u64,
) -> u32
    ensures { Returns make_call budget (buffers memory.now bodies.now table.old)
        result steps.new (buffers memory.now bodies.now table.new) }
{
    domain_store::ds_make(memory, bodies, table, budget, steps)
}

// Puts the pending pairs in place.
#[unsafe(no_mangle)]
pub extern "C" fn ds_open(
    memory: &[u8],
    bodies: &[u8],
    table: &mut [u32],
    budget: u64,
    steps: &mut u64,
) -> u32
    ensures { Returns open_call budget (buffers memory.now bodies.now table.old)
        result steps.new (buffers memory.now bodies.now table.new) }
{
    domain_store::ds_open(memory, bodies, table, budget, steps)
}

// Adds a domain inside the innermost, and names its handle.
#[unsafe(no_mangle)]
pub extern "C" fn ds_create(
    memory: &[u8],
    bodies: &[u8],
    table: &mut [u32],
    budget: u64,
    steps: &mut u64,
    handle: &mut u32,
) -> u32
    ensures told { Returns create_call budget (buffers memory.now bodies.now table.old)
        result steps.new (buffers memory.now bodies.now table.new) }
    ensures named { handle.new
        ≡ (outcome (create_call (buffers memory.now bodies.now table.old)) budget
        (buffers memory.now bodies.now table.old)).report.handle }
{
    domain_store::ds_create(memory, bodies, table, budget, steps, handle)
}

// Holds cells in the innermost domain.
#[unsafe(no_mangle)]
pub extern "C" fn ds_add(
    memory: &[u8],
    bodies: &mut [u8],
    table: &mut [u32],
    handle: u32,
    first: u32,
    count: u32,
    kind: u32,
    rule: u32,
    label: u32,
    budget: u64,
    steps: &mut u64,
) -> u32
    ensures { Returns (add_call handle (one_range first count kind rule label)) budget (buffers memory.now bodies.old table.old)
        result steps.new (buffers memory.now bodies.new table.new) }
{
    domain_store::ds_add(
        memory, bodies, table, handle, first, count, kind, rule, label, budget, steps,
    )
}

// The same for the ranges of a lent list.
#[unsafe(no_mangle)]
pub extern "C" fn ds_add_ranges(
    memory: &[u8],
    bodies: &mut [u8],
    table: &mut [u32],
    handle: u32,
    ranges: &[Range],
    budget: u64,
    steps: &mut u64,
) -> u32
    ensures { Returns (add_call handle ranges.now) budget (buffers memory.now bodies.old table.old)
        result steps.new (buffers memory.now bodies.new table.new) }
{
    domain_store::ds_add_ranges(memory, bodies, table, handle, ranges, budget, steps)
}

// Frees cells of a domain.
#[unsafe(no_mangle)]
pub extern "C" fn ds_delete(
    memory: &[u8],
    bodies: &[u8],
    table: &mut [u32],
    handle: u32,
    first: u32,
    count: u32,
    budget: u64,
    steps: &mut u64,
) -> u32
    ensures { Returns (delete_call handle first count) budget (buffers memory.now bodies.now table.old)
        result steps.new (buffers memory.now bodies.now table.new) }
{
    domain_store::ds_delete(memory, bodies, table, handle, first, count, budget, steps)
}

// Ends the innermost domain.
#[unsafe(no_mangle)]
pub extern "C" fn ds_commit(
    memory: &[u8],
    bodies: &[u8],
    table: &mut [u32],
    handle: u32,
    budget: u64,
    steps: &mut u64,
) -> u32
    ensures { Returns (commit_call handle) budget (buffers memory.now bodies.now table.old)
        result steps.new (buffers memory.now bodies.now table.new) }
{
    domain_store::ds_commit(memory, bodies, table, handle, budget, steps)
}

// Gives the read-write cells of the innermost domain memory's bytes.
#[unsafe(no_mangle)]
pub extern "C" fn ds_advance(
    memory: &[u8],
    bodies: &mut [u8],
    table: &mut [u32],
    handle: u32,
    budget: u64,
    steps: &mut u64,
) -> u32
    ensures { Returns (advance_call handle) budget (buffers memory.now bodies.old table.old)
        result steps.new (buffers memory.now bodies.new table.new) }
{
    domain_store::ds_advance(memory, bodies, table, handle, budget, steps)
}

// Puts memory back as a domain and those inside it hold it.
#[unsafe(no_mangle)]
pub extern "C" fn ds_restore(
    memory: &mut [u8],
    bodies: &[u8],
    table: &mut [u32],
    handle: u32,
    budget: u64,
    steps: &mut u64,
) -> u32
    ensures { Returns (restore_call handle) budget (buffers memory.old bodies.now table.old)
        result steps.new (buffers memory.new bodies.now table.new) }
{
    domain_store::ds_restore(memory, bodies, table, handle, budget, steps)
}

// Gives the number of live domains and their handles.
#[unsafe(no_mangle)]
pub extern "C" fn ds_list(
    memory: &[u8],
    bodies: &[u8],
    table: &[u32],
    handles: &mut [u32; 8],
    count: &mut u32,
) -> u32
    ensures listed { listed_in_c result count.new ≡ listed_by (list_means (buffers memory.now bodies.now table.now)) }
    ensures handles { length handles.old ≡ 8 → eight handles.new
        ≡ eight (list_means (buffers memory.now bodies.now table.now)).handles }
{
    domain_store::ds_list(memory, bodies, table, handles, count)
}

// Tells where the 64 bytes stand that restore would leave in a cell: they lie inside the buffer named.
#[unsafe(no_mangle)]
pub extern "C" fn ds_look(
    memory: &[u8],
    bodies: &[u8],
    table: &[u32],
    handle: u32,
    cell: u32,
    place: &mut u32,
    offset: &mut u64,
    rule: &mut u32,
) -> u32
    ensures found { looked_in_c result place.new offset.new rule.new
        ≡ looked_by (look_place handle cell (buffers memory.now bodies.now table.now)) }
    ensures within { OffsetWithin place.new offset.new rule.new (buffers memory.now bodies.now table.now) }
{
    domain_store::ds_look(memory, bodies, table, handle, cell, place, offset, rule)
}

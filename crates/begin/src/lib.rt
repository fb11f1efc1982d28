// The calls that know no holdings: make, open, create and list. Their definitions and the laws of their meaning stand in `store`, beside those that serve
// every call.
#![tactic(auto)]

ghost use Rattle.std.specs.Prelude.{◌≡◌, ◌≤◌, ◌<◌, length, take, get_or};
ghost use Rattle.words.specs.Layout.{slots_of, table_words, max_slots, max_live, handle_at};
ghost use Rattle.words.specs.Stores.{stores, tab};
ghost use Rattle.table.specs.Entry.{handle};
ghost use Rattle.changes.specs.Staged.{Journaled};
ghost use Rattle.changes.specs.Head.{head_stores};
ghost use Rattle.store.specs.Outcome.{buffers, Makes};
ghost use Rattle.store.specs.Answer.{number_in, report, listing};
ghost use Rattle.store.specs.Checks.{create_check, lent};
ghost use Rattle.store.specs.Calls.{fresh_word, make_plan, make_call, open_call, domain_words, create_words, create_call};
ghost use Rattle.store.specs.Means.{make_means, open_means, create_means, list_means, Shows};

use changes::head_words::Head;
use changes::writer::write_head_words;
use std::array;
use store::answers::{Answer, Ended, Listing, Refusal};
use store::questions::{answer_of, asked, open_check, plain_check};
use table::lengths_ok;
use words::apply_pending;
use words::layout::{
    BODIES_AT, CELLS_AT, LIVE_AT, MAGIC, MAGIC_AT, MAX_LIVE, NEXT_AT, PENDING_AT, SLOTS_AT,
    bodies_of, cells_of, handle_at, pairs_at, slots_of,
};

// ---- make

// Word i of a fresh table.
#[tactic(auto, unfolding(store::specs::Calls::fresh_word))]
fn fresh_word(cells: u32, slots: u32, bodies: u32, i: usize) -> u32
    ensures { result ≡ fresh_word cells slots bodies i }
{
    match i {
        CELLS_AT => cells,
        SLOTS_AT => slots,
        BODIES_AT => bodies,
        NEXT_AT => 1,
        _ => 0,
    }
}

// Make's stores. Word 0 is cleared first and by itself, with a test of the budget behind it, so that its store is never dead to the
// compiler: from then on until its last store there is no store here.
fn make_words(table: &mut [u32], cells: u32, slots: u32, bodies: u32, budget: usize)
    requires { (slots ≤ max_slots) × (length table.old ≡ table_words slots) }
    ensures { table.new ≡ stores (take budget (make_plan cells slots bodies)) table.old }
{
    if budget == 0 {
        return;
    }
    table[MAGIC_AT] = 0;
    let end = pairs_at(slots as usize);
    for i in 1..budget.min(end) {
        table[i] = fresh_word(cells, slots, bodies, i);
    }
    if end < budget {
        table[MAGIC_AT] = MAGIC;
    }
}

// Makes a fresh store: no domains, next handle 1, no entries.
#[tactic(auto, using(table::proofs::Checks::lengths_facts))]
pub fn make(memory: &[u8], bodies: &[u8], table: &mut [u32], budget: usize) -> Answer
    ensures made { Makes make_call budget (buffers memory.now bodies.now table.old)
        (report result) (buffers memory.now bodies.now table.new) }
    ensures means { Shows make_means budget (buffers memory.now bodies.now table.old)
        (report result) (buffers memory.now bodies.now table.new) }
{
    if !lengths_ok(memory.len(), bodies.len(), table.len()) {
        return Err(Refusal::Lengths);
    }
    let cells = cells_of(memory.len()) as u32;
    let places = bodies_of(bodies.len()) as u32;
    let slots = slots_of(table.len());
    make_words(table, cells, slots as u32, places, budget);
    answer_of(pairs_at(slots) + 1, 0, budget)
}

// ---- open

// Puts the pending pairs in place.
#[tactic(auto, using(store::proofs::Checks::open_lengths))]
pub fn open(memory: &[u8], bodies: &[u8], table: &mut [u32], budget: usize) -> Answer
    ensures made { Makes open_call budget (buffers memory.now bodies.now table.old)
        (report result) (buffers memory.now bodies.now table.new) }
    ensures means { Shows open_means budget (buffers memory.now bodies.now table.old)
        (report result) (buffers memory.now bodies.now table.new) }
{
    open_check(memory.len(), bodies.len(), table)?;
    let p = table[PENDING_AT] as usize;
    if p == 0 {
        return Ok(Ended::Done {
            steps: 0,
            handle: 0,
        });
    }
    apply_pending(table, pairs_at(slots_of(table.len())), p, budget);
    answer_of(p + 1, 0, budget)
}

// ---- create

// The questions put to create.
#[tactic(auto, using(store::proofs::Refused::asking, store::proofs::Checks::store_lengths), unfolding(store::specs::Checks::create_check))]
fn create_check(memory: usize, bodies: usize, table: &[u32]) -> Result<(), Refusal>
    ensures { number_in result ≡ create_check (lent memory bodies table.now) }
{
    plain_check(memory, bodies, table)?;
    asked(table[LIVE_AT] < MAX_LIVE, Refusal::TooManyDomains)?;
    asked(table[NEXT_AT] < u32::MAX, Refusal::NoHandleLeft)
}

// The words of create: the number of live domains, the next handle, and the new domain's handle.
fn create_head(live: u32, handle: u32) -> Head
    requires { (live < max_live) × (handle < 4294967295) }
    ensures { head_stores result ≡ domain_words live handle }
{
    Head::none()
        .with(LIVE_AT, live + 1)
        .with(NEXT_AT, handle + 1)
        .with(handle_at(live as usize), handle)
}

// Create's part on the table. Returns its steps uncut.
fn create_words(table: &mut [u32], budget: usize) -> usize
    requires long { (length table.old ≡ table_words (slots_of (length table.old))) × (slots_of (length table.old) ≤ max_slots) }
    requires few { (get_or table.old 4 0 < max_live) × (get_or table.old 5 0 < 4294967295) }
    ensures { Journaled (slots_of (length table.old)) (create_words table.old) budget table.old result table.new }
{
    let head = create_head(table[LIVE_AT], table[NEXT_AT]);
    let slots = slots_of(table.len());
    write_head_words(table, slots, &head, budget)
}

// Adds a domain inside the innermost, and names its handle.
#[tactic(auto, using(store::proofs::Checks::create_lengths, store::proofs::Checks::create_live, store::proofs::Checks::create_next))]
pub fn create(memory: &[u8], bodies: &[u8], table: &mut [u32], budget: usize) -> Answer
    ensures made { Makes create_call budget (buffers memory.now bodies.now table.old)
        (report result) (buffers memory.now bodies.now table.new) }
    ensures means { Shows create_means budget (buffers memory.now bodies.now table.old)
        (report result) (buffers memory.now bodies.now table.new) }
{
    create_check(memory.len(), bodies.len(), table)?;
    let handle = table[NEXT_AT];
    let need = create_words(table, budget);
    answer_of(need, handle, budget)
}

// ---- list

// Words 8 to 15.
fn read_handles(table: &[u32]) -> [u32; 8]
    requires { handle_at max_live ≤ length table.now }
    ensures { result ≡ tab max_live (handle table.now) }
{
    array::from_fn(|k| table[handle_at(k)])
}

// Gives the number of live domains and their handles.
#[tactic(auto, using(store::proofs::Checks::store_lengths))]
pub fn list(memory: &[u8], bodies: &[u8], table: &[u32]) -> Result<Listing, Refusal>
    ensures { listing result ≡ list_means (buffers memory.now bodies.now table.now) }
{
    plain_check(memory.len(), bodies.len(), table)?;
    Ok(Listing {
        count: table[LIVE_AT],
        handles: read_handles(table),
    })
}

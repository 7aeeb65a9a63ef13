//! The slots of a queue. Those with a message form one linked list, and the spare ones another.
ghost use Rattle.std.specs.Prelude.{◌≡◌, ◌+◌, ◌<◌, ◌≤◌, ℕ, length, IfOk, get_or};
ghost use Rattle.mq_slots.specs.Cells.{cell_at, linked, unlinked, IsFresh};
ghost use Rattle.mq_slots.specs.Messages.{messages};

use std::alloc::{AllocError, Global};

/// The priority of the head of the list, above that of every message.
pub const HEAD: u32 = 32_768;

/// The priority of a spare slot.
pub const SPARE: u32 = 32_769;

/// A slot. One with a message has the message's priority and sequence number, and in `next` the
/// index of the slot whose message is received next. The head of that list is slot 0, which never
/// has a message. A spare slot has in `place` the number of spare slots from it on, and in `next`
/// the index of the next one.
#[derive(Clone, Copy, Debug, PartialEq, Eq)]
pub struct Cell {
    pub place: u64,
    pub prio: u32,
    pub next: u32,
}

/// The head of an empty list, and `spare` spare slots, each linked to the one before it.
pub fn fresh(alloc: Global, spare: u32) -> Result<Vec<Cell>, AllocError>
    requires { spare ≤ 4096 }
    ensures { IfOk result (λ cells. IsFresh cells.items spare) }
{
    let mut cells = Vec::with_capacity(alloc, spare as usize + 1)?;
    cells.push_reserved(Cell {
        prio: HEAD,
        place: 0,
        next: 0,
    });
    for depth in 0..spare {
        cells.push_reserved(Cell {
            prio: SPARE,
            place: u64::from(depth) + 1,
            next: depth,
        });
    }
    Ok(cells)
}

/// The slot at an index.
#[inline(always)]
pub fn at(cells: &[Cell], index: u32) -> Cell
    requires { index < length cells.now }
    ensures { result ≡ cell_at cells.now index }
{
    cells[index as usize]
}

/// Puts a message into the spare slot `new`, and links that slot after the slot `before`.
#[inline(always)]
pub fn link(cells: &mut Vec<Cell>, before: u32, new: u32, prio: u32, place: u64)
    requires before { before < length cells.old.items }
    requires new { new < length cells.old.items }
    ensures { cells.new.items ≡ linked cells.old.items before new prio place }
{
    let next = cells[before as usize].next;
    cells[before as usize].next = new;
    cells[new as usize] = Cell { prio, place, next };
}

/// Unlinks the slot of the first message, and links it before the `count` spare slots that begin at
/// `spare`.
#[inline(always)]
pub fn unlink(cells: &mut Vec<Cell>, first: u32, spare: u32, count: u32)
    requires head { 0 < length cells.old.items }
    requires first { first < length cells.old.items }
    requires count { count < 4096 }
    ensures { cells.new.items ≡ unlinked cells.old.items first spare count }
{
    cells[0].next = cells[first as usize].next;
    cells[first as usize] = Cell {
        prio: SPARE,
        place: u64::from(count) + 1,
        next: spare,
    };
}

// The index at which the message of entry `place` joins others, of which the latest is first.
fn turn_of(messages: &[(u32, u64)], place: u64) -> usize
    ensures inside { result ≤ length messages.now }
    ensures behind { (i : ℕ) → i < result → place ≤ (get_or messages.now i (0, 0)).1 }
    ensures before { result < length messages.now →
        (get_or messages.now result (0, 0)).1 < place }
{
    for i in 0..messages.len() {
        if messages[i].1 < place {
            return i;
        }
    }
    messages.len()
}

/// The messages in these slots, each as its priority and its sequence number, the latest first.
#[tactic(auto, using(crate::proofs::Listing::listing))]
pub fn messages(alloc: Global, cells: &[Cell]) -> Result<Vec<(u32, u64)>, AllocError>
    ensures { IfOk result (λ found. found.items ≡ messages cells.now) }
{
    let mut found = Vec::new(alloc);
    for index in (0..cells.len()).rev() {
        let cell = cells[index];
        if cell.prio < HEAD {
            let turn = turn_of(&found, cell.place);
            found.insert(turn, (cell.prio, cell.place))?;
        }
    }
    Ok(found)
}

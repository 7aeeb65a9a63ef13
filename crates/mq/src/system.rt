//! The queues that processes share: how they are made and ended.
ghost use Rattle.std.specs.Prelude.{ℕ, Some, ◌≡◌, ◌≤◌, ◌<◌, [], map, slice_get, vec_len, vec_capacity};
ghost use Rattle.std.specs.List.{All};
ghost use Rattle.mq_state.specs.Buffers.{waiting_room};
ghost use Rattle.mq.specs.Calls.{IsRoomOf};

use crate::guarded::Guarded;
use crate::process::{Process, process_of, seat_of};
use fast_mutex::{Look, Missing};
use mq_ledger::history::History;
use mq_model::faults::Fault;
use mq_model::journals::Journal;
use mq_model::limits::PROCESSES;
use mq_state::books::Books;
use std::alloc::Global;
use std::marker::Model;
use std::sync::Mutex;

// Reserved space for the seats of all processes, so that `Mq::finish` takes no memory.
#[derive(Drop)]
struct Room<T> {
    seats: Vec<T>,
    ghost shape: { (seats.items ≡ []) × (32 ≤ vec_capacity seats) },
}

/// Message queues that processes share, over a lock. Contracts see the identity of the lock, which
/// includes the number of processes.
#[derive(Drop)]
pub struct Mq<L: Look<Guarded>> {
    lock: L,
    n: u32,
    stored: bool,
    // It is never locked: the mutex only lets threads share an `Mq`, although seats may move
    // between threads but not be shared.
    room: Mutex<Room<L::Seat>>,
}

impl<L: Look<Guarded>> Model for Mq<L> {
    ghost use Rattle.std.specs.Prelude.{◌≡◌, ◌≤◌};
    ghost use Rattle.fast_mutex.specs.Items.{LockId};
    ghost use Rattle.mq.specs.Calls.{fixed_of, bounds_in, stored_in};

    ghost Value = { LockId };

    ghost view = { λ q. L.id q.lock };

    ghost invariant = { λ q. ((L.id q.lock).fixed ≡ fixed_of (L.id q.lock).count
        (bounds_in (L.id q.lock).fixed) (stored_in (L.id q.lock).fixed)) ×
        (q.n ≡ (L.id q.lock).count) × (q.n ≤ 32) × (q.stored ≡ stored_in (L.id q.lock).fixed) };
}

impl<L: Look<Guarded>> Mq<L> {
    ghost use Rattle.std.specs.Prelude.{◌≡◌, ◌≤◌, ◌<◌, ◌⊎◌, ◌↔◌, true, false, [], Some, None, Err, IfOk, IfErr, IsOk, vec_len};
    ghost use Rattle.std.specs.List.{All};
    ghost use Rattle.fast_mutex.specs.Items.{Grows, tickets_from, tickets_with};
    ghost use Rattle.mq_model.specs.Legality.{Legal};
    ghost use Rattle.mq_model.specs.declared.faults.Fault.TheVariants.{Invalid, NoMemory};
    ghost use Rattle.mq.specs.Calls.{author, fixed_of, bounds_in, stored_in};

    // The system of n processes over these queues. If memory is refused, the queues come back.
    fn over(alloc: Global, n: u32, books: Books) -> Result<(Mq<L>, Vec<Process<L>>), Books>
        requires some { 1 ≤ n }
        requires few { n ≤ 32 }
        requires processes { books.n ≡ n }
        ensures count { IfOk result (λ r. r.0.count ≡ n) }
        ensures bounds { IfOk result (λ r. bounds_in r.0.fixed ≡ books.bounds) }
        ensures stored { IfOk result (λ r. stored_in r.0.fixed ≡ books.stored) }
        ensures processes { IfOk result (λ r. r.1.items ≡ tickets_with r.0 books.records 1 n) }
        ensures back { IfErr result (λ b. b ≡ books) }
    {
        let Ok(seats) = Vec::with_capacity(alloc, PROCESSES as usize) else {
            return Err(books);
        };
        let room = Mutex::new(Room { seats });
        let Ok(processes) = Vec::with_capacity(alloc, n as usize) else {
            return Err(books);
        };
        let stored = books.is_stored();
        let rooms = rooms_of(&books);
        match L::new(alloc, n, Guarded::holding(books)) {
            Ok((lock, seats)) => {
                let mq = Mq {
                    lock,
                    n,
                    stored,
                    room,
                };
                Ok((mq, processes_of(seats, &rooms, processes)))
            }
            Err((state, _)) => Err(state.books),
        }
    }

    /// A system that continues from these queues, and its processes in order. Each process counts
    /// as having left their journal. If it has an open wait there, `waiting` says so, and its next
    /// call is `collect` or `withdraw`. Fails with `Invalid` if the queues have no processes, or
    /// with `NoMemory` if memory was refused. Then the queues come back.
    pub fn resume(alloc: Global, books: Books) -> Result<(Mq<L>, Vec<Process<L>>), (Books, Fault)>
        ensures count { IfOk result (λ r. r.0.count ≡ books.n) }
        ensures bounds { IfOk result (λ r. bounds_in r.0.fixed ≡ books.bounds) }
        ensures stored { IfOk result (λ r. stored_in r.0.fixed ≡ books.stored) }
        ensures processes { IfOk result (λ r.
            r.1.items ≡ tickets_with r.0 books.records 1 books.n) }
        ensures back { IfErr result (λ e. e.0 ≡ books) }
        ensures faults { IfErr result (λ e. (e.1 ≡ NoMemory) ⊎
            ((e.1 ≡ Invalid) × ((books.n ≡ 0) ⊎ (32 < books.n)))) }
    {
        let n = books.processes();
        if n == 0 || n > PROCESSES {
            return Err((books, Fault::Invalid));
        }
        match Mq::over(alloc, n, books) {
            Ok(system) => Ok(system),
            Err(books) => Err((books, Fault::NoMemory)),
        }
    }

    /// A system of n processes without queues, and the processes 1 to n in order, each of which has
    /// left the empty journal. The journal is stored. Fails with `Invalid` if n is not from 1 to
    /// 32, or with `NoMemory` if memory was refused.
    pub fn new(alloc: Global, n: u32) -> Result<(Mq<L>, Vec<Process<L>>), Fault>
        ensures invalid { ((1 ≤ n) × (n ≤ 32)) ⊎ (result ≡ Err Invalid) }
        ensures faults { IfErr result (λ e. (e ≡ NoMemory) ⊎
            ((e ≡ Invalid) × ((n ≡ 0) ⊎ (32 < n)))) }
        ensures count { IfOk result (λ r. r.0.count ≡ n) }
        ensures bounds { IfOk result (λ r. bounds_in r.0.fixed ≡ None) }
        ensures stored { IfOk result (λ r. stored_in r.0.fixed ≡ true) }
        ensures processes { IfOk result (λ r. r.1.items ≡ tickets_from r.0 1 n) }
    {
        if n == 0 || n > PROCESSES {
            return Err(Fault::Invalid);
        }
        let Ok(books) = Books::new(alloc, n) else {
            return Err(Fault::NoMemory);
        };
        match Mq::over(alloc, n, books) {
            Ok(system) => Ok(system),
            Err(_) => Err(Fault::NoMemory),
        }
    }

    /// The same, with a journal of at most `entries` entries and `bytes` payload bytes, those of
    /// names and messages. It takes all memory here, so no call of a process fails with `NoMemory`.
    /// A call that finds no room fails with `JournalFull`. Fails itself with `Invalid` if n is not
    /// from 1 to 32, or with `NoMemory` if memory was refused.
    pub fn bounded(
        alloc: Global,
        n: u32,
        entries: u64,
        bytes: u64,
    ) -> Result<(Mq<L>, Vec<Process<L>>), Fault>
        ensures invalid { ((1 ≤ n) × (n ≤ 32)) ⊎ (result ≡ Err Invalid) }
        ensures faults { IfErr result (λ e. (e ≡ NoMemory) ⊎
            ((e ≡ Invalid) × ((n ≡ 0) ⊎ (32 < n)))) }
        ensures count { IfOk result (λ r. r.0.count ≡ n) }
        ensures bounds { IfOk result (λ r.
            bounds_in r.0.fixed ≡ Some (record { entries = entries; bytes = bytes })) }
        ensures stored { IfOk result (λ r. stored_in r.0.fixed ≡ true) }
        ensures processes { IfOk result (λ r. r.1.items ≡ tickets_from r.0 1 n) }
    {
        if n == 0 || n > PROCESSES {
            return Err(Fault::Invalid);
        }
        let Ok(books) = Books::bounded(alloc, n, entries, bytes) else {
            return Err(Fault::NoMemory);
        };
        match Mq::over(alloc, n, books) {
            Ok(system) => Ok(system),
            Err(_) => Err(Fault::NoMemory),
        }
    }

    /// A system of n processes whose journal is a history variable: contracts speak of it, and no
    /// byte of it is stored. It keeps only what later replies depend on, and uses that memory again
    /// (see [`Books::unstored`]). Fails with `Invalid` if n is not from 1 to 32, or with `NoMemory`
    /// if memory was refused.
    pub fn unstored(alloc: Global, n: u32) -> Result<(Mq<L>, Vec<Process<L>>), Fault>
        ensures invalid { ((1 ≤ n) × (n ≤ 32)) ⊎ (result ≡ Err Invalid) }
        ensures faults { IfErr result (λ e. (e ≡ NoMemory) ⊎
            ((e ≡ Invalid) × ((n ≡ 0) ⊎ (32 < n)))) }
        ensures count { IfOk result (λ r. r.0.count ≡ n) }
        ensures bounds { IfOk result (λ r. bounds_in r.0.fixed ≡ None) }
        ensures stored { IfOk result (λ r. stored_in r.0.fixed ≡ false) }
        ensures processes { IfOk result (λ r. r.1.items ≡ tickets_from r.0 1 n) }
    {
        if n == 0 || n > PROCESSES {
            return Err(Fault::Invalid);
        }
        let Ok(books) = Books::unstored(alloc, n) else {
            return Err(Fault::NoMemory);
        };
        match Mq::over(alloc, n, books) {
            Ok(system) => Ok(system),
            Err(_) => Err(Fault::NoMemory),
        }
    }

    /// The same, but an open that creates a queue also takes the memory that later calls on it need
    /// (see [`Books::prepaid`]). Then no send, receive, notify, collect or withdraw takes memory.
    /// Tests show this; no contract says it. Fails with `Invalid` if n is not from 1 to 32, or with
    /// `NoMemory` if memory was refused.
    pub fn prepaid(alloc: Global, n: u32) -> Result<(Mq<L>, Vec<Process<L>>), Fault>
        ensures invalid { ((1 ≤ n) × (n ≤ 32)) ⊎ (result ≡ Err Invalid) }
        ensures faults { IfErr result (λ e. (e ≡ NoMemory) ⊎
            ((e ≡ Invalid) × ((n ≡ 0) ⊎ (32 < n)))) }
        ensures count { IfOk result (λ r. r.0.count ≡ n) }
        ensures bounds { IfOk result (λ r. bounds_in r.0.fixed ≡ None) }
        ensures stored { IfOk result (λ r. stored_in r.0.fixed ≡ false) }
        ensures processes { IfOk result (λ r. r.1.items ≡ tickets_from r.0 1 n) }
    {
        if n == 0 || n > PROCESSES {
            return Err(Fault::Invalid);
        }
        let Ok(books) = Books::prepaid(alloc, n) else {
            return Err(Fault::NoMemory);
        };
        match Mq::over(alloc, n, books) {
            Ok(system) => Ok(system),
            Err(_) => Err(Fault::NoMemory),
        }
    }

    /// Whether the journal is stored.
    pub fn is_stored(&self) -> bool
        ensures { result ≡ stored_in self.now.fixed }
    {
        self.stored
    }

    /// Ends the system and returns its stored journal, if all n processes are given. Otherwise
    /// everything comes back unchanged. Open waits are allowed. Takes no memory, and never waits.
    /// The journal has entries of the processes 1 to n only.
    pub fn finish(self, processes: Vec<Process<L>>) -> Result<Journal, Missing<Mq<L>, Process<L>>>
        requires made { All (λ p. p.lock ≡ self) processes.items }
        requires stored { stored_in self.fixed ≡ true }
        ensures all { (vec_len processes ≡ self.count) ↔ IsOk result }
        ensures legal { IfOk result (λ journal. Legal journal.records) }
        ensures processes { IfOk result (λ journal.
            All (λ r. r.entry.process ≤ self.count) journal.records) }
        ensures grows { IfOk result (λ journal.
            All (λ p. Grows author p.number p.left journal.records []) processes.items) }
        ensures back { IfErr result (λ m. (m.whole ≡ self) × (m.parts ≡ processes)) }
    {
        match self.retire(processes) {
            Ok(books) => Ok(books.into_journal()),
            Err(missing) => Err(missing),
        }
    }

    /// Ends a system whose journal is not stored, and returns its history, if all n processes are
    /// given. Otherwise everything comes back unchanged. The history has no bytes, but the contract
    /// says the same about it as [`finish`](Mq::finish) says about the journal.
    pub fn finish_unstored(
        self,
        processes: Vec<Process<L>>,
    ) -> Result<History, Missing<Mq<L>, Process<L>>>
        requires made { All (λ p. p.lock ≡ self) processes.items }
        requires stored { stored_in self.fixed ≡ false }
        ensures all { (vec_len processes ≡ self.count) ↔ IsOk result }
        ensures legal { IfOk result (λ history. Legal history.past) }
        ensures processes { IfOk result (λ history.
            All (λ r. r.entry.process ≤ self.count) history.past) }
        ensures grows { IfOk result (λ history.
            All (λ p. Grows author p.number p.left history.past []) processes.items) }
        ensures back { IfErr result (λ m. (m.whole ≡ self) × (m.parts ≡ processes)) }
    {
        match self.retire(processes) {
            Ok(books) => Ok(books.into_history()),
            Err(missing) => Err(missing),
        }
    }

    /// Ends the system and returns the queues, from which another can continue, if all n processes
    /// are given. Otherwise everything comes back unchanged. Open waits are allowed. Takes no
    /// memory, and never waits.
    pub fn retire(self, processes: Vec<Process<L>>) -> Result<Books, Missing<Mq<L>, Process<L>>>
        requires { All (λ p. p.lock ≡ self) processes.items }
        ensures all { (vec_len processes ≡ self.count) ↔ IsOk result }
        ensures count { IfOk result (λ books. books.n ≡ self.count) }
        ensures bounds { IfOk result (λ books. books.bounds ≡ bounds_in self.fixed) }
        ensures stored { IfOk result (λ books. books.stored ≡ stored_in self.fixed) }
        ensures grows { IfOk result (λ books.
            All (λ p. Grows author p.number p.left books.records []) processes.items) }
        ensures back { IfErr result (λ m. (m.whole ≡ self) × (m.parts ≡ processes)) }
    {
        if processes.len() != self.n as usize {
            return Err(Missing {
                whole: self,
                parts: processes,
            });
        }
        match self
            .lock
            .finish(seats_of(processes, self.room.into_inner().seats))
        {
            Ok(state) => Ok(state.books),
            Err(_) => unreachable!(),
        }
    }

    /// The futex words, for threads that sleep on them outside Rattle (`FutexWords::address` of
    /// `fast_mutex`).
    pub fn futex_words(&self) -> Option<*const u64> {
        self.lock.futex_words().address()
    }

    pub(crate) fn lock(&self) -> &L
        ensures id { L.id result.now ≡ self.now }
        ensures fixed { self.now.fixed ≡ fixed_of self.now.count (bounds_in self.now.fixed)
            (stored_in self.now.fixed) }
    {
        &self.lock
    }
}

// The buffer length that the open wait of each process needs. Index p is for process p.
fn rooms_of(books: &Books) -> [Option<usize>; 33]
    ensures { (p : ℕ) → p < 33 →
        slice_get result p ≡ Some (waiting_room books.now.records p) }
{
    let mut rooms = [None; 33];
    for process in 0..33 {
        rooms[process as usize] = books.waiting(process);
    }
    rooms
}

// The processes of these seats, in the same order. `rooms` has the buffer length that the open wait
// of each process needs, at the index of its number.
fn processes_of<L: Look<Guarded>>(
    seats: Vec<L::Seat>,
    rooms: &[Option<usize>; 33],
    mut processes: Vec<Process<L>>,
) -> Vec<Process<L>>
    requires empty { processes.items ≡ [] }
    requires room { vec_len seats ≤ vec_capacity processes }
    requires waits { All (λ s. IsRoomOf rooms.now (L.ticket s)) seats.items }
    ensures items { result.items ≡ map L.ticket seats.items }
    ensures len { vec_len result ≡ vec_len seats }
{
    'seats: for seat in seats {
        let waits = rooms[L::number(&seat) as usize];
        processes.push(process_of(seat, waits)).unwrap();
    }
    processes
}

// The seats of these processes, in the same order.
fn seats_of<L: Look<Guarded>>(processes: Vec<Process<L>>, mut seats: Vec<L::Seat>) -> Vec<L::Seat>
    requires empty { seats.items ≡ [] }
    requires room { vec_len processes ≤ vec_capacity seats }
    ensures items { map L.ticket result.items ≡ processes.items }
    ensures len { vec_len result ≡ vec_len processes }
{
    'processes: for process in processes {
        seats.push(seat_of(process)).unwrap();
    }
    seats
}

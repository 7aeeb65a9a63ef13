//! More callers: rows for further processes and threads.
ghost use Rattle.std.specs.Prelude.{◌≡◌, ◌<◌, ◌≤◌, ◌+◌, IfOk, OnOk, OnErr, vec_len, vec_capacity};
ghost use Rattle.mq_state.specs.Kept.{notice_room};
ghost use Rattle.mq_state.specs.Raising.{IsEmptyInbox, IsRaised};

use crate::notices::{self, Inbox};
use crate::tables::{PREPAID_NOTICES, Tables, last_process, notice_room};
use mq_model::callers::Caller;
use mq_model::entries::Call;
use mq_model::owners::Owner;
use std::alloc::AllocError;

impl Tables {
    // Adds the row of the first thread of one more process, with its inbox. There must be room.
    fn add_process(&mut self, inbox: Inbox)
        requires few { self.old.n < 32 }
        requires callers { vec_len self.old.callers < vec_capacity self.old.callers }
        requires calls { vec_len self.old.calls < vec_capacity self.old.calls }
        requires owners { vec_len self.old.owners < vec_capacity self.old.owners }
        requires inboxes { vec_len self.old.inboxes < vec_capacity self.old.inboxes }
        requires inbox { IsEmptyInbox (notice_room self.old.bounds) inbox }
        ensures raised { IsRaised self.old self.new }
        ensures n { self.new.n ≡ self.old.n + 1 }
        ensures callers { (vec_len self.new.callers ≡ vec_len self.old.callers + 1) ×
            (vec_capacity self.new.callers ≡ vec_capacity self.old.callers) }
        ensures calls { (vec_len self.new.calls ≡ vec_len self.old.calls + 1) ×
            (vec_capacity self.new.calls ≡ vec_capacity self.old.calls) }
        ensures owners { (vec_len self.new.owners ≡ vec_len self.old.owners + 1) ×
            (vec_capacity self.new.owners ≡ vec_capacity self.old.owners) }
        ensures inboxes { (vec_len self.new.inboxes ≡ vec_len self.old.inboxes + 1) ×
            (vec_capacity self.new.inboxes ≡ vec_capacity self.old.inboxes) }
    {
        self.callers.push_reserved(Caller::free());
        self.calls.push_reserved(Call::Collect);
        self.owners.push_reserved(Owner::free());
        self.inboxes.push_reserved(inbox);
        self.n += 1;
    }

    // Adds the row of one more thread of a process that has its row. There must be room.
    fn add_thread(&mut self)
        requires processes { 32 ≤ self.old.n }
        requires few { self.old.n < 2048 }
        requires callers { vec_len self.old.callers < vec_capacity self.old.callers }
        requires calls { vec_len self.old.calls < vec_capacity self.old.calls }
        ensures raised { IsRaised self.old self.new }
        ensures n { self.new.n ≡ self.old.n + 1 }
        ensures callers { (vec_len self.new.callers ≡ vec_len self.old.callers + 1) ×
            (vec_capacity self.new.callers ≡ vec_capacity self.old.callers) }
        ensures calls { (vec_len self.new.calls ≡ vec_len self.old.calls + 1) ×
            (vec_capacity self.new.calls ≡ vec_capacity self.old.calls) }
    {
        self.callers.push_reserved(Caller::free());
        self.calls.push_reserved(Call::Collect);
        self.n += 1;
    }

    // The room for notices that each inbox has from the start.
    fn inbox_room(&self) -> Result<usize, AllocError>
        ensures { IfOk result (λ room. notice_room self.now.bounds ≤ room) }
    {
        let room = notice_room(self.bounds)?;
        Ok(room.max(if self.is_prepaid { PREPAID_NOTICES } else { 0 }))
    }

    /// Adds rows for the callers up to n, and for their processes. If it fails, memory was refused,
    /// and the tables say the same of the same callers.
    pub fn raise(&mut self, n: u32) -> Result<(), AllocError>
        requires { n ≤ 2048 }
        ensures raised { IsRaised self.old self.new }
        ensures enough { OnOk result (n ≤ self.new.n) }
        ensures exact { OnOk result (self.old.n ≤ n → self.new.n ≡ n) }
        ensures err { OnErr result (self.new.n ≡ self.old.n) }
    {
        if n <= self.n {
            return Ok(());
        }
        let rows = (n - self.n) as usize;
        let processes = (last_process(n) - last_process(self.n)) as usize;
        let room = self.inbox_room()?;
        let mut inboxes = notices::empty(self.alloc, processes, room)?;
        self.callers.reserve(rows)?;
        self.calls.reserve(rows)?;
        self.owners.reserve(processes)?;
        self.inboxes.reserve(processes)?;
        while let Some(inbox) = inboxes.pop() {
            self.add_process(inbox);
        }
        while self.n < n {
            self.add_thread();
        }
        Ok(())
    }
}

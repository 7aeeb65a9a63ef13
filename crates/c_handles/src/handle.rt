//! The handle that C holds.
ghost use Rattle.std.specs.Prelude.{◌≡◌, is_some};

use crate::member::Member;
use crate::numbers::EMPTY;
use crate::requests::Message;
use crate::seal::Seal;
use crate::tried::Tried;
use crate::{numbers, with_member};
use mq::{Call, Returned};
use std::alloc::Global;
use std::ptr::null;

/// A process that C holds, with what C needs for sleeping and waking, about which nothing is
/// proved. A handle of zero bytes is empty.
#[repr(C)]
#[derive(Drop)]
pub struct Handle {
    seal: Seal,
    full: bool,
    // the processes whose waits its last call answered: bit p - 1 stands for process p
    answered: u32,
    // the number of its process
    number: u32,
    // the futex words of its system
    futex_words: *const u64,
    // Padding, so that no two handles of an array share a cache line. Otherwise calls of one would
    // take the line from the other.
    apart: [u64; 12],
    ghost fullness: { full ≡ is_some seal.member },
}

impl Handle {
    ghost use Rattle.std.specs.Prelude.{◌≡◌, Some, None, IfSome, IfNone};
    ghost use Rattle.c_handles.specs.Systems.{is_empty};

    /// Whether the handle has no process.
    pub fn is_empty(&self) -> bool
        ensures { result ≡ is_empty self.now }
    {
        !self.full
    }

    /// Takes the member out, if there is one.
    #[inline(always)]
    pub fn take(&mut self, alloc: Global) -> Option<Box<Member>>
        ensures some { IfSome result (λ member. self.old.seal.member ≡ Some member.value) }
        ensures none { IfNone result (self.old.seal.member ≡ None) }
        ensures empty { self.new.seal.member ≡ None }
    {
        if !self.full {
            return None;
        }
        self.full = false;
        Some(self.seal.take(alloc))
    }

    /// Takes the member out for good. The handle also forgets the futex words of its system, which
    /// may end with the member.
    pub fn end(&mut self, alloc: Global) -> Option<Box<Member>>
        ensures some { IfSome result (λ member. self.old.seal.member ≡ Some member.value) }
        ensures none { IfNone result (self.old.seal.member ≡ None) }
        ensures empty { self.new.seal.member ≡ None }
    {
        self.futex_words = null();
        self.take(alloc)
    }

    /// Puts a member in.
    #[inline(always)]
    pub fn put(&mut self, member: Box<Member>)
        requires { self.old.seal.member ≡ None }
        ensures { self.new.seal.member ≡ Some member.value }
    {
        self.answered = member.answered_others();
        self.seal = Seal::of(member);
        self.full = true;
    }

    /// Puts the member of a new system in.
    pub fn begin(&mut self, member: Box<Member>)
        requires { self.old.seal.member ≡ None }
        ensures { self.new.seal.member ≡ Some member.value }
    {
        self.number = member.number();
        self.futex_words = member.futex_words().unwrap_or(null());
        self.put(member);
    }
}

/// Takes the member out of a handle, evaluates `$made` with it, and puts it back. `None` if there
/// is no member.
#[macro_export]
macro_rules! with_member {
    ($handle:ident, $alloc:ident, |$member:ident| $made:expr) => {
        match $handle.take($alloc) {
            None => None,
            Some(mut $member) => {
                let made = $made;
                $handle.put($member);
                Some(made)
            }
        }
    };
}

impl Handle {
    ghost use Rattle.std.specs.Prelude.{◌≡◌, None, length};
    ghost use Rattle.mq_state.specs.Requests.{Brings};
    ghost use Rattle.mq_model.specs.declared.entries.Call.{Call};
    ghost use Rattle.mq.specs.Calls.{OneCall, ReceiveCall};
    ghost use Rattle.mq.specs.Says.{start_send_says, start_receive_says};
    ghost use Rattle.mq.specs.Kinds.{IsOf, IsCall};
    ghost use Rattle.c_handles.specs.Handles.{process_in};
    ghost use Rattle.c_handles.specs.Tries.{Gives, GivesWith};
    ghost use Rattle.c_handles.specs.Codes.{told, code_of, written, sent_code, got_code, message_got};

    /// As [`Member::make`], if there is a member.
    pub fn make<A: Returned>(
        &mut self,
        alloc: Global,
        call: Call,
        given: &[u8],
        buf: &mut [u8],
    ) -> Option<Tried<A>>
        requires brings { Brings call given.now (length buf.old) }
        requires kind { IsOf A.kind call }
        ensures { let kind = A.kind in GivesWith (buf.new ≡ buf.old) (λ old new result.
            IsCall kind.says old new call given.now buf.old buf.new result)
            (λ tried. tried) (process_in self.old) (process_in self.new) result }
    {
        with_member!(self, alloc, |member| member.make(call, given, buf))
    }

    /// Tries to send. Returns the code of what [`make`](Handle::make) would return.
    #[inline(always)]
    pub fn start_send(&mut self, alloc: Global, d: u32, bytes: &[u8], prio: u32) -> u32
        ensures { Gives (λ old new result.
            OneCall start_send_says old new (Call.MqSend d prio (length bytes.now)) bytes.now
            result) (code_of sent_code) (process_in self.old) (process_in self.new) result }
    {
        let Some(mut member) = self.take(alloc) else {
            return EMPTY;
        };
        let sent = member.send_at_once(d, bytes, prio);
        self.put(member);
        match sent {
            Some(tried) => numbers::sent(Some(tried)),
            None => self.send_apart(alloc, d, bytes, prio),
        }
    }

    // The same for a process in any state.
    #[inline(never)]
    fn send_apart(&mut self, alloc: Global, d: u32, bytes: &[u8], prio: u32) -> u32
        ensures { Gives (λ old new result.
            OneCall start_send_says old new (Call.MqSend d prio (length bytes.now)) bytes.now
            result) (code_of sent_code) (process_in self.old) (process_in self.new) result }
    {
        let len = bytes.len() as u64;
        let tried = self.make(alloc, Call::MqSend { d, prio, len }, bytes, &mut []);
        numbers::sent(tried)
    }

    /// Tries to receive, in the same way, and writes the length and priority of the message.
    #[inline(always)]
    pub fn start_receive(
        &mut self,
        alloc: Global,
        d: u32,
        buf: &mut [u8],
        message: &mut Message,
    ) -> u32
        ensures { GivesWith (buf.new ≡ buf.old) (λ old new result.
            ReceiveCall start_receive_says old new (Call.MqReceive d (length buf.old)) buf.old
            buf.new result) (λ t.
            told (code_of got_code t) (written (message_got message.old) message.old t))
            (process_in self.old) (process_in self.new) (told result message.new) }
    {
        let Some(mut member) = self.take(alloc) else {
            return EMPTY;
        };
        let got = member.receive_at_once(d, buf);
        self.put(member);
        match got {
            Some(tried) => numbers::got(Some(tried), message),
            None => self.receive_apart(alloc, d, buf, message),
        }
    }

    // The same for a process in any state.
    #[inline(never)]
    fn receive_apart(&mut self, alloc: Global, d: u32, buf: &mut [u8], message: &mut Message) -> u32
        ensures { GivesWith (buf.new ≡ buf.old) (λ old new result.
            ReceiveCall start_receive_says old new (Call.MqReceive d (length buf.old)) buf.old
            buf.new result) (λ t.
            told (code_of got_code t) (written (message_got message.old) message.old t))
            (process_in self.old) (process_in self.new) (told result message.new) }
    {
        let room = buf.len() as u64;
        let tried = self.make(alloc, Call::MqReceive { d, room }, &[], buf);
        numbers::got(tried, message)
    }
}

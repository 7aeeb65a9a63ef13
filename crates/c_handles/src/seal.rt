//! A box of a member whose type hides its content, so that it can be passed to C.
ghost use Rattle.std.specs.Prelude.{◌≡◌, Option, Some, None};
ghost use Rattle.c_handles.specs.declared.member.Member.{Member};
ghost use Rattle.c_handles.specs.Owning.{seal_owns, member_coded};

use crate::member::Member;
use crate::parts::Parts;
use std::alloc::Global;
use std::marker::{Model, Send};
use std::mem;
use std::ptr::null_mut;

/// A sealed box, or none: one pointer.
#[repr(C)]
#[derive(Drop)]
pub struct Seal {
    at: *mut u8,
    alloc: Global,
    pub ghost member: { Option Member } by { member_coded },
}

impl Model for Seal {
    ghost also_owns = { λ s. seal_owns s.alloc s.at s.member };
}

impl Seal {
    fn empty(alloc: Global) -> Seal
        ensures { result.member ≡ None }
    {
        Seal {
            at: null_mut(),
            alloc,
        }
    }

    fn of_parts(parts: Parts<Member, Global>) -> Seal
        ensures { result.member ≡ Some parts.value }
    {
        let Parts { ptr, alloc } = parts;
        Seal {
            at: ptr as *mut u8,
            alloc,
        }
    }

    fn into_parts(self) -> Parts<Member, Global>
        requires { (d : Member) × (self.member ≡ Some d) }
        ensures { self.member ≡ Some result.value }
    {
        let Seal { at, alloc } = self;
        Parts {
            ptr: at as *mut Member,
            alloc,
        }
    }

    /// Seals a box.
    pub fn of(member: Box<Member>) -> Seal
        ensures { result.member ≡ Some member.value }
    {
        Seal::of_parts(Parts::of(member))
    }

    /// Takes the box out.
    pub fn take(&mut self, alloc: Global) -> Box<Member>
        requires { (d : Member) × (self.old.member ≡ Some d) }
        ensures taken { self.old.member ≡ Some result.value }
        ensures empty { self.new.member ≡ None }
    {
        let full = mem::replace(self, Seal::empty(alloc));
        full.into_parts().into_box()
    }
}

// The threads of a C program may pass it to each other.
unsafe impl Send for Seal {}

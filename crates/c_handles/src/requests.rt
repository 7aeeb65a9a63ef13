//! The structs that a C program and the exports exchange.
ghost use Rattle.std.specs.Prelude.{◌≡◌, Some, None, IfOk, IfErr, if◌then◌else◌};
ghost use Rattle.c_handles.specs.Openings.{access_of, attr_of, name_fault, open_fault, flags_of};

use mq::{Access, Attr, Deadline, Fault, Name, OpenFlags};

/// The arguments of an open.
#[repr(C)]
pub struct Opening {
    /// The limits of the queue that it creates, if `limited`.
    pub maxmsg: i64,
    pub msgsize: i64,
    /// 0 to receive, 1 to send, 2 for both.
    pub access: u32,
    pub create: bool,
    pub exclusive: bool,
    pub nonblock: bool,
    pub limited: bool,
}

/// The attributes of a descriptor and of its queue.
#[repr(C)]
#[derive(Clone, Copy)]
pub struct Attributes {
    pub maxmsg: i64,
    pub msgsize: i64,
    pub curmsgs: i64,
    pub nonblock: bool,
}

/// A message that was received: the number of its bytes in the buffer, and its priority.
#[repr(C)]
#[derive(Clone, Copy)]
pub struct Message {
    pub len: usize,
    pub prio: u32,
}

/// The room that a journal still has, in entries and payload bytes.
#[repr(C)]
#[derive(Clone, Copy)]
pub struct Room {
    pub entries: u64,
    pub bytes: u64,
}

/// A time of the clock of the program (`struct timespec`).
#[repr(C)]
#[derive(Clone, Copy)]
pub struct Moment {
    pub sec: i64,
    pub nsec: i64,
}

impl Moment {
    /// The time as a deadline.
    pub fn deadline(&self) -> Deadline
        ensures { result ≡ record { sec = self.now.sec; nsec = self.now.nsec } }
    {
        Deadline {
            sec: self.sec,
            nsec: self.nsec,
        }
    }
}

/// The access mode with this number.
pub fn access_of(number: u32) -> Option<Access>
    ensures { result ≡ access_of number }
{
    match number {
        0 => Some(Access::Read),
        1 => Some(Access::Write),
        2 => Some(Access::Both),
        _ => None,
    }
}

/// The limits in the arguments of an open.
pub fn limits(opening: &Opening) -> Option<Attr>
    ensures { result ≡ attr_of opening.now }
{
    if !opening.limited {
        return None;
    }
    Some(Attr {
        maxmsg: opening.maxmsg,
        msgsize: opening.msgsize,
    })
}

/// The value of a registration, or none for a removal.
pub fn registration(registers: bool, value: u64) -> Option<u64>
    ensures { result ≡ (if registers then Some value else None) }
{
    if registers { Some(value) } else { None }
}

/// The name with these bytes.
pub fn read_name(bytes: &[u8]) -> Result<Name, Fault>
    ensures ok { IfOk result (λ name. (name ≡ bytes.now) × (name_fault bytes.now ≡ None)) }
    ensures err { IfErr result (λ fault. name_fault bytes.now ≡ Some fault) }
{
    match Name::read(bytes) {
        Ok(name) => Ok(name),
        Err(fault) => Err(fault),
    }
}

/// The name and the flags of an open.
pub fn read_open(name: &[u8], opening: &Opening) -> Result<(Name, OpenFlags), Fault>
    ensures ok { IfOk result (λ read. (read.0 ≡ name.now) × (read.1 ≡ flags_of opening.now) ×
        (open_fault name.now opening.now ≡ None)) }
    ensures err { IfErr result (λ fault. open_fault name.now opening.now ≡ Some fault) }
{
    let Some(access) = access_of(opening.access) else {
        return Err(Fault::Invalid);
    };
    let name = read_name(name)?;
    let flags = OpenFlags {
        access,
        create: opening.create,
        excl: opening.exclusive,
        nonblock: opening.nonblock,
    };
    Ok((name, flags))
}

//! The errors of calls.
ghost use Rattle.std.specs.Prelude.{◌≡◌};

use thiserror::Error;

/// The error of a call. It prints as the name that POSIX gives it (`errno.h`). `NOMEMORY` and
/// `JOURNALFULL` are errors of this library.
#[derive(Clone, Copy, Debug, PartialEq, Eq, Error)]
#[error("{}", self.name())]
pub enum Fault {
    /// The call would wait, and its descriptor is nonblocking (`EAGAIN`).
    Again,
    /// The process does not hold the descriptor, or not with the access that the call needs
    /// (`EBADF`).
    BadDescriptor,
    /// The queue already has a registration (`EBUSY`).
    Busy,
    /// The name is bound, and the open asks for a new queue (`EEXIST`).
    Exists,
    /// The priority, the attributes, the form of the name, the removal or the deadline is not valid
    /// for the call (`EINVAL`).
    Invalid,
    /// The process already holds 16 descriptors (`EMFILE`).
    TooManyOpen,
    /// The message is longer than `msgsize`, or the buffer is shorter (`EMSGSIZE`).
    MessageSize,
    /// The name has more than 255 bytes after its slash (`ENAMETOOLONG`).
    NameTooLong,
    /// The name is not bound (`ENOENT`).
    NoEntry,
    /// 64 queues already exist (`ENOSPC`).
    NoSpace,
    /// Memory was refused. Nothing has changed.
    NoMemory,
    /// The call would wait and its deadline has passed, or the deadline passed while it waited
    /// (`ETIMEDOUT`).
    TimedOut,
    /// The journal has bounds, and no room for the call. Nothing has changed.
    JournalFull,
}

impl Fault {
    ghost use Rattle.mq_model.specs.Fault.{number_of, text_of};

    /// This library's own number of the error, from 1 to 13.
    pub fn number(&self) -> u32
        ensures { result ≡ number_of self.now }
    {
        match self {
            Fault::Again => 1,
            Fault::BadDescriptor => 2,
            Fault::Busy => 3,
            Fault::Exists => 4,
            Fault::Invalid => 5,
            Fault::TooManyOpen => 6,
            Fault::MessageSize => 7,
            Fault::NameTooLong => 8,
            Fault::NoEntry => 9,
            Fault::NoSpace => 10,
            Fault::NoMemory => 11,
            Fault::TimedOut => 12,
            Fault::JournalFull => 13,
        }
    }

    /// The name that POSIX gives the error (`errno.h`), such as `EAGAIN`.
    pub fn name(&self) -> &'static str
        ensures { result.now ≡ text_of self.now }
    {
        match self {
            Fault::Again => "EAGAIN",
            Fault::BadDescriptor => "EBADF",
            Fault::Busy => "EBUSY",
            Fault::Exists => "EEXIST",
            Fault::Invalid => "EINVAL",
            Fault::TooManyOpen => "EMFILE",
            Fault::MessageSize => "EMSGSIZE",
            Fault::NameTooLong => "ENAMETOOLONG",
            Fault::NoEntry => "ENOENT",
            Fault::NoSpace => "ENOSPC",
            Fault::NoMemory => "NOMEMORY",
            Fault::TimedOut => "ETIMEDOUT",
            Fault::JournalFull => "JOURNALFULL",
        }
    }
}

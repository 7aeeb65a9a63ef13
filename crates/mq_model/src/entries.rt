//! Calls and their replies, as the journal has them.
ghost use Rattle.std.specs.Prelude.{◌≡◌, true, false};
ghost use Rattle.mq_model.specs.Messages.{priority_given, is_send, is_receive};
ghost use Rattle.mq_model.specs.Deadlines.{deadline_of};
ghost use Rattle.mq_model.specs.Descriptors.{descriptor_of};
ghost use Rattle.mq_model.specs.Names.{is_open, is_unlink, creates, unlinks};

use crate::faults::Fault;

/// What a descriptor may be used for: the access mode in `oflag` of `mq_open`.
#[derive(Clone, Copy, Debug, PartialEq, Eq)]
pub enum Access {
    /// Only receiving (`O_RDONLY`).
    Read,
    /// Only sending (`O_WRONLY`).
    Write,
    /// Sending and receiving (`O_RDWR`).
    Both,
}

/// The flags of an open (`oflag` of `mq_open`), as in `OpenFlags::read_write().create()`.
#[derive(Clone, Copy, Debug, PartialEq, Eq)]
pub struct OpenFlags {
    /// What the descriptor may be used for.
    pub access: Access,
    /// Creates the queue if the name is not bound (`O_CREAT`).
    pub create: bool,
    /// With `create`, the open fails if the name is bound (`O_EXCL`). Without `create` it has no
    /// effect.
    pub excl: bool,
    /// Calls on the descriptor fail with `Again` if they would wait (`O_NONBLOCK`). Each descriptor
    /// has a flag of its own.
    pub nonblock: bool,
}

impl OpenFlags {
    /// A descriptor only for receiving (`O_RDONLY`), with no other flag.
    pub fn read_only() -> OpenFlags
        ensures { result ≡ record {
          access = Access.Read;
          create = false;
          excl = false;
          nonblock = false;
        } }
    {
        OpenFlags::with_access(Access::Read)
    }

    /// A descriptor only for sending (`O_WRONLY`), with no other flag.
    pub fn write_only() -> OpenFlags
        ensures { result ≡ record {
          access = Access.Write;
          create = false;
          excl = false;
          nonblock = false;
        } }
    {
        OpenFlags::with_access(Access::Write)
    }

    /// A descriptor for sending and receiving (`O_RDWR`), with no other flag.
    pub fn read_write() -> OpenFlags
        ensures { result ≡ record {
          access = Access.Both;
          create = false;
          excl = false;
          nonblock = false;
        } }
    {
        OpenFlags::with_access(Access::Both)
    }

    /// A descriptor with this access and no other flag.
    pub fn with_access(access: Access) -> OpenFlags
        ensures { result ≡ record {
          access = access;
          create = false;
          excl = false;
          nonblock = false;
        } }
    {
        OpenFlags {
            access,
            create: false,
            excl: false,
            nonblock: false,
        }
    }

    /// These flags and `O_CREAT`.
    pub fn create(self) -> OpenFlags
        ensures { result ≡ record {
          access = self.access;
          create = true;
          excl = self.excl;
          nonblock = self.nonblock;
        } }
    {
        OpenFlags {
            create: true,
            ..self
        }
    }

    /// These flags and `O_EXCL`.
    pub fn exclusive(self) -> OpenFlags
        ensures { result ≡ record {
          access = self.access;
          create = self.create;
          excl = true;
          nonblock = self.nonblock;
        } }
    {
        OpenFlags { excl: true, ..self }
    }

    /// These flags and `O_NONBLOCK`.
    pub fn nonblocking(self) -> OpenFlags
        ensures { result ≡ record {
          access = self.access;
          create = self.create;
          excl = self.excl;
          nonblock = true;
        } }
    {
        OpenFlags {
            nonblock: true,
            ..self
        }
    }
}

/// The limits of a queue, as the open that creates it gives them (`mq_attr` of `mq_open`). They are
/// valid if `maxmsg` is 1 to 4,096 and `msgsize` 1 to 65,536. A queue that is created without them
/// has 10 and 8,192.
#[derive(Clone, Copy, Debug, PartialEq, Eq)]
pub struct Attr {
    /// The maximum number of messages in the queue (`mq_maxmsg`).
    pub maxmsg: i64,
    /// The maximum number of bytes of a message (`mq_msgsize`).
    pub msgsize: i64,
}

/// The attributes of a descriptor and of its queue (`mq_getattr`).
#[derive(Clone, Copy, Debug, PartialEq, Eq)]
pub struct Status {
    /// Whether calls on the descriptor fail if they would wait (`O_NONBLOCK` in `mq_flags`).
    /// `mq_setattr` uses only this field.
    pub nonblock: bool,
    /// The maximum number of messages in the queue (`mq_maxmsg`).
    pub maxmsg: i64,
    /// The maximum number of bytes of a message (`mq_msgsize`).
    pub msgsize: i64,
    /// The number of messages in the queue (`mq_curmsgs`).
    pub curmsgs: i64,
}

/// A message that was received (`mq_receive`). Its bytes are at the start of the buffer.
#[derive(Clone, Copy, Debug, PartialEq, Eq)]
pub struct Received {
    /// The number of its bytes.
    pub len: usize,
    /// The priority that its send gave, 0 to 32,767.
    pub prio: u32,
}

/// A time of the caller's clock, or the deadline of a timed call (`struct timespec` of
/// `mq_timedsend` and `mq_timedreceive`). Times are compared by seconds first, and then by
/// nanoseconds.
#[derive(Clone, Copy, Debug, PartialEq, Eq, PartialOrd, Ord)]
pub struct Deadline {
    /// Seconds since the start of the caller's clock; negative before it.
    pub sec: i64,
    /// Nanoseconds, 0 to 999,999,999. A timed call that would wait fails with `Invalid` if its
    /// deadline has others.
    pub nsec: i64,
}

/// A call that a caller made. The name of an open or unlink, and the message of a send, are in the
/// payload of the record.
#[derive(Clone, Copy, Debug, PartialEq, Eq)]
pub enum Call {
    /// `mq_open` with these flags, and with the limits of a new queue if they were given.
    MqOpen {
        flags: OpenFlags,
        attr: Option<Attr>,
    },
    /// `mq_close` of descriptor `d`.
    MqClose {
        d: u32,
    },
    /// `mq_unlink` of the name in the payload.
    MqUnlink,
    /// `mq_send` by descriptor `d`, of a message of `len` bytes with priority `prio`.
    MqSend {
        d: u32,
        prio: u32,
        len: u64,
    },
    /// `mq_receive` by descriptor `d`, into a buffer of `room` bytes.
    MqReceive {
        d: u32,
        room: u64,
    },
    /// `mq_timedsend` by descriptor `d`, of a message of `len` bytes with priority `prio`. It waits
    /// until the time `until` at the latest. It was made at the time `now` of the caller's clock.
    MqTimedSend {
        d: u32,
        prio: u32,
        len: u64,
        until: Deadline,
        now: Deadline,
    },
    /// `mq_timedreceive` by descriptor `d`, into a buffer of `room` bytes. It waits until the time
    /// `until` at the latest. It was made at the time `now` of the caller's clock.
    MqTimedReceive {
        d: u32,
        room: u64,
        until: Deadline,
        now: Deadline,
    },
    /// `mq_getattr` of descriptor `d`.
    MqGetattr {
        d: u32,
    },
    /// `mq_setattr` of descriptor `d`, with the new `O_NONBLOCK`.
    MqSetattr {
        d: u32,
        nonblock: bool,
    },
    /// `mq_notify` by descriptor `d`: a registration with the value of its notice, or a removal if
    /// there is none.
    MqNotify {
        d: u32,
        value: Option<u64>,
    },
    /// A request for the oldest notice that the process has not yet taken. POSIX has no such call:
    /// it sends signals.
    NextNotice,
    /// The end of the open wait of the caller, after an entry that serves it. POSIX has no such
    /// call: the blocked call returns.
    Collect,
    /// The end of the open wait of the caller, which no entry serves and whose deadline has passed
    /// at the time `now` of the caller's clock. POSIX has no such call: the blocked timed call
    /// returns `ETIMEDOUT`.
    Withdraw {
        now: Deadline,
    },
}

impl Call {
    /// The priority that a send gives its message, and 0 for any other call (`mq_send`).
    pub fn priority(self) -> u32
        ensures { result ≡ priority_given self }
    {
        match self {
            Call::MqSend { d: _, prio, len: _ } => prio,
            Call::MqTimedSend {
                d: _,
                prio,
                len: _,
                until: _,
                now: _,
            } => prio,
            _ => 0,
        }
    }

    /// The descriptor that the call names.
    pub fn descriptor(self) -> Option<u32>
        ensures { result ≡ descriptor_of self }
    {
        match self {
            Call::MqClose { d } => Some(d),
            Call::MqSend { d, .. } => Some(d),
            Call::MqReceive { d, .. } => Some(d),
            Call::MqTimedSend { d, .. } => Some(d),
            Call::MqTimedReceive { d, .. } => Some(d),
            Call::MqGetattr { d } => Some(d),
            Call::MqSetattr { d, .. } => Some(d),
            Call::MqNotify { d, .. } => Some(d),
            _ => None,
        }
    }

    /// Whether the call is an `mq_open`.
    pub fn is_open(self) -> bool
        ensures { result ≡ is_open self }
    {
        match self {
            Call::MqOpen { .. } => true,
            _ => false,
        }
    }

    /// Whether the call is an `mq_unlink`.
    pub fn is_unlink(self) -> bool
        ensures { result ≡ is_unlink self }
    {
        match self {
            Call::MqUnlink => true,
            _ => false,
        }
    }

    /// Whether the call with this reply is an open that created its queue.
    pub fn creates(self, reply: Reply) -> bool
        ensures { result ≡ creates self reply }
    {
        match reply {
            Reply::Opened { d: _, created } => created && self.is_open(),
            _ => false,
        }
    }

    /// Whether the call with this reply is an unlink that succeeded.
    pub fn unlinks(self, reply: Reply) -> bool
        ensures { result ≡ unlinks self reply }
    {
        match reply {
            Reply::Done => self.is_unlink(),
            _ => false,
        }
    }

    /// Whether the call sends a message, with or without a deadline.
    pub fn is_send(self) -> bool
        ensures { result ≡ is_send self }
    {
        match self {
            Call::MqSend { .. } => true,
            Call::MqTimedSend { .. } => true,
            _ => false,
        }
    }

    /// Whether the call receives a message, with or without a deadline.
    pub fn is_receive(self) -> bool
        ensures { result ≡ is_receive self }
    {
        match self {
            Call::MqReceive { .. } => true,
            Call::MqTimedReceive { .. } => true,
            _ => false,
        }
    }

    /// The deadline of a timed call, and none for any other call.
    pub fn deadline(self) -> Option<Deadline>
        ensures { result ≡ deadline_of self }
    {
        match self {
            Call::MqTimedSend {
                d: _,
                prio: _,
                len: _,
                until,
                now: _,
            } => Some(until),
            Call::MqTimedReceive {
                d: _,
                room: _,
                until,
                now: _,
            } => Some(until),
            _ => None,
        }
    }
}

/// The reply to a call. A place is the sequence number of a record of the journal, from 0. It also
/// names a message (the place of its send), a wait (the place of the call that waits) and a
/// registration (the place of its notify).
#[derive(Clone, Copy, Debug, PartialEq, Eq)]
pub enum Reply {
    /// The descriptor of an open, 0 to 15, and whether the open created its queue.
    Opened {
        d: u32,
        created: bool,
    },
    /// The message entered its queue. `notified` is the registration that this notified.
    Queued {
        notified: Option<u64>,
    },
    /// The message went to the receive that has waited since the record `wait`.
    Handed {
        wait: u64,
    },
    /// The call waits: from now on the caller has an open wait.
    Waits,
    /// The message of the send `place` was received. Then the message of the waiting send
    /// `admitted` entered the queue, and this notified the registration `notified`.
    Got {
        place: u64,
        admitted: Option<u64>,
        notified: Option<u64>,
    },
    /// The open wait ended. `by` is the entry that served it.
    Collected {
        by: u64,
    },
    /// The open wait that began with the record `wait` ended without being served.
    Withdrawn {
        wait: u64,
    },
    /// The attributes: for a getattr the current ones, for a setattr those from before the call.
    Attrs(Status),
    /// The value of the oldest notice that the process had not taken, or none.
    Notice(Option<u64>),
    /// A close, unlink or notify succeeded.
    Done,
    /// The call failed, and changed nothing but the journal.
    Refused(Fault),
}

/// A call with its reply, and who made it.
#[derive(Clone, Copy, Debug, PartialEq, Eq)]
pub struct Entry {
    /// The number of the caller, 1 to 2,048 in a legal journal: a process, for its first thread, or
    /// caller o + 32 * t, for another thread of process o ([`crate::callers::owner_of`]).
    pub process: u32,
    pub call: Call,
    pub reply: Reply,
}

/// What a process holds under a descriptor: an open description of a queue. The queue is named by
/// the place of the open that created it.
#[derive(Clone, Copy, Debug, PartialEq, Eq)]
pub struct Description {
    pub queue: u64,
    pub access: Access,
    pub nonblock: bool,
}

/// A registration for notification: the place of the notify that made it, its process and
/// descriptor, and the value given to it.
#[derive(Clone, Copy, Debug, PartialEq, Eq)]
pub struct Registration {
    pub place: u64,
    pub process: u32,
    pub d: u32,
    pub value: u64,
}

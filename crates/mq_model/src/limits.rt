//! The limits of this library on systems, processes, queues and messages (`limits.h`, `mq_open`,
//! `mq_send`).

/// The maximum number of processes of a system. They are numbered from 1.
pub const PROCESSES: u32 = 32;

/// The maximum number of callers of a system, the threads of its processes. They are numbered from
/// 1, and the first 32 are the first threads of the processes.
pub const CALLERS: u32 = 2048;

/// The maximum number of descriptors of a process. They are numbered from 0 (`MQ_OPEN_MAX`).
pub const DESCRIPTORS: usize = 16;

/// The maximum number of queues that exist.
pub const QUEUES: u64 = 64;

/// The maximum number of bytes of a name after its slash (`NAME_MAX`).
pub const NAME_BYTES: usize = 255;

/// The maximum number of messages in a queue: the greatest `mq_maxmsg`.
pub const MESSAGES: i64 = 4096;

/// The maximum number of bytes of a message: the greatest `mq_msgsize`.
pub const MESSAGE_BYTES: i64 = 65536;

/// The number of priorities. They are numbered from 0 (`MQ_PRIO_MAX`).
pub const PRIORITIES: u32 = 32768;

/// The nanoseconds of a second. Those of a time are fewer (`mq_timedsend`).
pub const NANOSECONDS: i64 = 1_000_000_000;

/// `mq_maxmsg` of a queue that is created without attributes.
pub const DEFAULT_MESSAGES: i64 = 10;

/// `mq_msgsize` of a queue that is created without attributes.
pub const DEFAULT_MESSAGE_BYTES: i64 = 8192;

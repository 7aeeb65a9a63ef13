//! The systems that are measured, their queue and its messages.
ghost use Rattle.std.specs.Prelude.{◌≡◌, IfOk};
ghost use Rattle.fast_mutex.specs.Items.{tickets_from};
ghost use Rattle.measure.specs.Ready.{IsReady};

use fast_mutex::FastMutex;
use mq::{Guarded, Mq, Process};
use mq_model::entries::{Attr, OpenFlags};
use mq_model::faults::Fault;
use mq_model::names::Name;
use std::alloc::Global;
use std::sync::Wait;

/// The lock of the systems.
pub type Lamport = FastMutex<Guarded>;

/// The bytes of a message.
pub const SIZE: usize = 16;

/// A message.
pub const MESSAGE: [u8; SIZE] = *b"sixteen bytes ..";

/// A system of n processes, which stores its journal or not.
pub fn make(
    alloc: Global,
    n: u32,
    stores: bool,
) -> Result<(Mq<Lamport>, Vec<Process<Lamport>>), Fault>
    ensures processes { IfOk result (λ r. r.1.items ≡ tickets_from r.0 1 n) }
{
    if stores {
        Mq::new(alloc, n)
    } else {
        Mq::unstored(alloc, n)
    }
}

/// Opens the queue for sends and receives that may wait, and creates it if there is none.
pub fn open<R: Wait>(rt: &R, mq: &Mq<Lamport>, process: &mut Process<Lamport>) -> Result<u32, Fault>
    requires ready { IsReady mq.now process.old }
    ensures ready { IsReady mq.now process.new }
{
    let name = Name::read(b"/measured")?;
    let limits = Attr {
        maxmsg: 10,
        msgsize: SIZE as i64,
    };
    process.open(
        rt,
        mq,
        &name,
        OpenFlags::read_write().create(),
        Some(limits),
    )
}

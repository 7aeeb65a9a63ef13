//! Which processes of a phase may still call.
use crate::turns::Share;
use arrayvec::ArrayVec;
use fast_mutex::Look;
use mq::{Guarded, Process};
use mq_model::limits::PROCESSES;
use std::alloc::{AllocError, Global};
use std::sync::atomic::{AtomicBool, Ordering};

/// The maximum number of processes of a phase.
const MOST: usize = PROCESSES as usize;

/// A process of a phase, and whether it has made its last call in it.
#[derive(Drop)]
pub struct Peer {
    number: u32,
    is_through: AtomicBool,
}

/// The processes of these shares, in order. Those without calls have made their last call from the
/// start.
pub fn peers_of<L: Look<Guarded>>(
    alloc: Global,
    shares: &[Share<'_, Process<L>>],
) -> Result<Vec<Peer>, AllocError> {
    let mut peers = Vec::with_capacity(alloc, shares.len())?;
    for share in shares {
        peers.push(Peer {
            number: share.process.number(),
            is_through: AtomicBool::new(share.turns.is_empty()),
        })?;
    }
    Ok(peers)
}

/// The processes that may still call. Some of them may have made their last call by now, but no
/// other process calls again.
pub fn calling(peers: &[Peer]) -> ArrayVec<u32, MOST> {
    let mut numbers = ArrayVec::new();
    for peer in peers {
        if !peer.is_through.load(Ordering::SeqCst) {
            // There is room for every process.
            let _ = numbers.try_push(peer.number);
        }
    }
    numbers
}

/// Marks that the process makes no further call in this phase.
pub fn leave(peers: &[Peer], process: u32) {
    for peer in peers {
        if peer.number == process {
            peer.is_through.store(true, Ordering::SeqCst);
        }
    }
}

/// Marks that no process makes a further call in this phase, because the phase was called off.
pub fn leave_all(peers: &[Peer]) {
    for peer in peers {
        peer.is_through.store(true, Ordering::SeqCst);
    }
}

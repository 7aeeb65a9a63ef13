//! The part of a state key for the processes of a script.
ghost use Rattle.std.specs.Prelude.{◌≡◌, ◌++◌, OnOk};
ghost use Rattle.mq_equivalence.specs.Key.{codes};
ghost use Rattle.script_orders.specs.Likeness.{seat_code};

use crate::turn::Seat;
use mq_equivalence::parts::push_bytes;
use std::alloc::AllocError;

// Appends how many lines a process has begun, and the text of its replies.
fn push_seat(key: &mut Vec<u64>, seat: &Seat) -> Result<(), AllocError>
    ensures { OnOk result (key.new.items ≡ key.old.items ++ seat_code seat.now) }
{
    let text = seat.text();
    key.push(seat.begun() as u64)?;
    key.push(text.len() as u64)?;
    push_bytes(key, text)
}

/// Appends these numbers for each process.
pub fn push_seats(key: &mut Vec<u64>, seats: &[Seat]) -> Result<(), AllocError>
    ensures { OnOk result (key.new.items ≡ key.old.items ++ codes seat_code seats.now) }
{
    for seat in seats {
        push_seat(key, seat)?;
    }
    Ok(())
}

//! How much memory a system with bounds takes.
ghost use Rattle.std.specs.Prelude.{◌≡◌, ◌<◌, ◌^◌, IfSome, IsNone, ◌↔◌, ◌≤◌};
ghost use Rattle.mq_state.specs.Memory.{memory_of};

/// How many bytes of memory [`Books::bounded`](crate::books::Books::bounded) takes for these
/// numbers of processes, entries and payload bytes, on a machine with 64-bit addresses. `None` if
/// the number does not fit in a u64. For the 64 queues it takes 5,256,272 bytes, whatever the
/// bounds.
pub fn memory_of(n: u32, entries: u64, bytes: u64) -> Option<u64>
    ensures some { IfSome result (λ total. total ≡ memory_of n entries bytes) }
    ensures none { IsNone result ↔ (2 ^ 64 ≤ memory_of n entries bytes) }
{
    let entries = u128::from(entries);
    let processes = (u128::from(n) + 1) * (8 * entries + 1_064);
    let total = u128::from(bytes) + 120 * entries + processes + 5_256_272;
    u64::try_from(total).ok()
}

//! The bounds of a journal.
ghost use Rattle.std.specs.Prelude.{◌≡◌, ◌<◌};
ghost use Rattle.mq_model.specs.Bounds.{exceeds};

/// What a journal may hold: this number of entries, and this number of payload bytes, those of
/// names and messages.
#[derive(Clone, Copy, Debug, PartialEq, Eq)]
pub struct Bounds {
    pub entries: u64,
    pub bytes: u64,
}

/// Whether this number of entries or of payload bytes exceeds the bounds. Without bounds nothing
/// does.
pub fn exceeds(bounds: Option<Bounds>, entries: u64, bytes: u64) -> bool
    ensures { result ≡ exceeds bounds entries bytes }
{
    match bounds {
        None => false,
        Some(bounds) => bounds.entries < entries || bounds.bytes < bytes,
    }
}

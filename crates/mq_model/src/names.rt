//! Names of queues.
ghost use Rattle.std.specs.Prelude.{◌≡◌, IfOk, IsOk, ◌↔◌, IsTrue, IsFalse};
ghost use Rattle.std.specs.List.{list_all};
ghost use Rattle.mq_model.specs.Name.{is_name_byte, is_name, has_name_form};

use crate::faults::Fault;
use crate::limits;
use arrayvec::ArrayVec;
use std::marker::Model;

/// The maximum number of bytes of a name, with its slash.
pub const NAME_CAPACITY: usize = limits::NAME_BYTES + 1;

/// The name of a queue: a slash, then 1 to 255 bytes without a slash and without NUL (`mq_open`).
#[derive(Debug, Drop)]
pub struct Name {
    text: ArrayVec<u8, NAME_CAPACITY>,
}

impl Model for Name {
    ghost use Rattle.std.specs.Prelude.{List, ℕ, IsTrue};
    ghost use Rattle.mq_model.specs.Name.{is_name};

    ghost Value = { List ℕ };

    ghost view = { λ n. n.text.items };

    ghost invariant = { λ n. IsTrue (is_name n.text.items) };
}

// Whether the byte may follow the slash.
fn is_name_byte(b: u8) -> bool
    ensures { result ≡ is_name_byte b }
{
    b != b'/' && b != 0
}

fn are_name_bytes(bytes: &[u8]) -> bool
    ensures { result ≡ list_all is_name_byte bytes.now }
{
    bytes.iter().all(|b| is_name_byte(*b))
}

// Whether the bytes are a slash and then at least one byte, each of them allowed in a name.
fn has_name_form(bytes: &[u8]) -> bool
    ensures { result ≡ has_name_form bytes.now }
{
    bytes.len() > 1 && bytes[0] == b'/' && are_name_bytes(&bytes[1..])
}

/// Whether the bytes are a name.
pub fn is_name(bytes: &[u8]) -> bool
    ensures { result ≡ is_name bytes.now }
{
    has_name_form(bytes) && bytes.len() <= NAME_CAPACITY
}

impl Name {
    ghost use Rattle.mq_model.specs.Name.{is_short};

    /// Reads a name from its bytes. Fails with `NameTooLong` if its only mistake is that more than
    /// 255 bytes follow the slash, and otherwise with `Invalid`. Takes no memory.
    pub fn read(bytes: &[u8]) -> Result<Name, Fault>
        ensures form { IsOk result ↔ IsTrue (is_name bytes.now) }
        ensures ok { IfOk result (λ name. name ≡ bytes.now) }
        ensures too_long { (result ≡ Err Fault.NameTooLong) ↔ IsTrue (has_name_form bytes.now) ×
            IsFalse (is_short bytes.now) }
        ensures invalid { (result ≡ Err Fault.Invalid) ↔ IsFalse (has_name_form bytes.now) }
    {
        if !has_name_form(bytes) {
            return Err(Fault::Invalid);
        }
        if bytes.len() > NAME_CAPACITY {
            return Err(Fault::NameTooLong);
        }
        let mut text = ArrayVec::new();
        let _ = text.try_extend_from_slice(bytes);
        Ok(Name { text })
    }

    /// The bytes of the name, with the slash.
    pub fn bytes(&self) -> &[u8]
        ensures value { result.now ≡ self.now }
        ensures form { IsTrue (is_name result.now) }
    {
        self.text.as_slice()
    }
}

//! The two forms of a state, and the parts that only JSON has.
ghost use Rattle.std.specs.Prelude.{◌≡◌, ◌++◌, OnOk};

use std::alloc::AllocError;

/// The form of a state.
#[derive(Clone, Copy, PartialEq, Eq)]
pub enum Form {
    /// Lines for people.
    Text,
    /// One line for programs.
    Json,
}

impl Form {
    ghost use Rattle.journal_views.specs.State.{between, in_json, label};

    // Appends what only JSON has.
    pub(crate) fn push(self, text: &mut Vec<u8>, bytes: &str) -> Result<(), AllocError>
        ensures { OnOk result (text.new.items ≡ text.old.items ++ in_json self bytes.now) }
    {
        match self {
            Form::Text => Ok(()),
            Form::Json => text.extend_from_slice(bytes.as_bytes()),
        }
    }

    // Appends the name of a further member of an object.
    pub(crate) fn push_label(self, text: &mut Vec<u8>, name: &str) -> Result<(), AllocError>
        ensures { OnOk result (text.new.items ≡ text.old.items ++ label self name.now) }
    {
        self.push(text, ",\"")?;
        self.push(text, name)?;
        self.push(text, "\":")
    }

    // Appends what separates the item of a list at this index from the one before.
    pub(crate) fn push_between(self, text: &mut Vec<u8>, index: usize) -> Result<(), AllocError>
        ensures { OnOk result (text.new.items ≡ text.old.items ++ between self index) }
    {
        if index > 0 {
            self.push(text, ",")
        } else {
            Ok(())
        }
    }
}

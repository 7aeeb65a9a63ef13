//! The words of calls, in scripts and in journals.
ghost use Rattle.std.specs.Prelude.{◌≡◌};
ghost use Rattle.script_text.specs.Verbs.{verb_written};

/// The word for a kind of call. Scripts have no `collect` and no `withdraw`, and journals no
/// `exit`.
#[derive(Clone, Copy, PartialEq, Eq)]
pub enum Verb {
    Open,
    Close,
    Unlink,
    Send,
    Receive,
    TimedSend,
    TimedReceive,
    Getattr,
    Setattr,
    Notify,
    Notice,
    Exit,
    Collect,
    Withdraw,
}

const VERBS: [Verb; 14] = [
    Verb::Open,
    Verb::Close,
    Verb::Unlink,
    Verb::Send,
    Verb::Receive,
    Verb::TimedSend,
    Verb::TimedReceive,
    Verb::Getattr,
    Verb::Setattr,
    Verb::Notify,
    Verb::Notice,
    Verb::Exit,
    Verb::Collect,
    Verb::Withdraw,
];

impl Verb {
    ghost use Rattle.std.specs.Prelude.{◌≡◌};
    ghost use Rattle.script_text.specs.Verbs.{verb_text};

    /// The word of the verb.
    pub fn text(self) -> &'static [u8]
        ensures { result.now ≡ verb_text self }
    {
        match self {
            Verb::Open => b"open",
            Verb::Close => b"close",
            Verb::Unlink => b"unlink",
            Verb::Send => b"send",
            Verb::Receive => b"recv",
            Verb::TimedSend => b"tsend",
            Verb::TimedReceive => b"trecv",
            Verb::Getattr => b"getattr",
            Verb::Setattr => b"setattr",
            Verb::Notify => b"notify",
            Verb::Notice => b"notice",
            Verb::Exit => b"exit",
            Verb::Collect => b"collect",
            Verb::Withdraw => b"withdraw",
        }
    }
}

/// The verb with this word.
#[tactic(auto, unfolding(crate::specs::Verbs::verb_written))]
pub fn verb_of(word: &[u8]) -> Option<Verb>
    ensures { result ≡ verb_written word.now }
{
    VERBS.iter().copied().find(|verb| word == verb.text())
}

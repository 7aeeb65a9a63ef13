//! The kinds of operations, and the words for them.
ghost use Rattle.std.specs.Prelude.{◌≡◌};
ghost use Rattle.exploration.specs.Kinds.{kind_written};

/// What a thread is about to do, or did.
#[derive(Clone, Copy, PartialEq, Eq)]
pub enum Kind {
    Lock,
    Unlock,
    Send,
    Receive,
    SemWait,
    Post,
    Register,
    Wake,
    Signal,
    Broadcast,
    Join,
    Start,
    Create,
    TryLock,
    SemTry,
    Sleep,
    Yield,
    Exit,
    Open,
    Close,
    Unlink,
    GetAttr,
    SetAttr,
    Notify,
    Collect,
    Clock,
    ReadLock,
    WriteLock,
    RwUnlock,
    Barrier,
    Once,
    FutexWait,
    FutexWake,
    Write,
}

const KINDS: [Kind; 34] = [
    Kind::Lock,
    Kind::Unlock,
    Kind::Send,
    Kind::Receive,
    Kind::SemWait,
    Kind::Post,
    Kind::Register,
    Kind::Wake,
    Kind::Signal,
    Kind::Broadcast,
    Kind::Join,
    Kind::Start,
    Kind::Create,
    Kind::TryLock,
    Kind::SemTry,
    Kind::Sleep,
    Kind::Yield,
    Kind::Exit,
    Kind::Open,
    Kind::Close,
    Kind::Unlink,
    Kind::GetAttr,
    Kind::SetAttr,
    Kind::Notify,
    Kind::Collect,
    Kind::Clock,
    Kind::ReadLock,
    Kind::WriteLock,
    Kind::RwUnlock,
    Kind::Barrier,
    Kind::Once,
    Kind::FutexWait,
    Kind::FutexWake,
    Kind::Write,
];

impl Kind {
    ghost use Rattle.std.specs.Prelude.{◌≡◌};
    ghost use Rattle.exploration.specs.Kinds.{kind_text};

    /// The word of the kind.
    pub fn text(self) -> &'static [u8]
        ensures { result.now ≡ kind_text self }
    {
        match self {
            Kind::Lock => b"lock",
            Kind::Unlock => b"unlock",
            Kind::Send => b"send",
            Kind::Receive => b"receive",
            Kind::SemWait => b"semwait",
            Kind::Post => b"post",
            Kind::Register => b"register",
            Kind::Wake => b"wake",
            Kind::Signal => b"signal",
            Kind::Broadcast => b"broadcast",
            Kind::Join => b"join",
            Kind::Start => b"start",
            Kind::Create => b"create",
            Kind::TryLock => b"trylock",
            Kind::SemTry => b"semtry",
            Kind::Sleep => b"sleep",
            Kind::Yield => b"yield",
            Kind::Exit => b"exit",
            Kind::Open => b"open",
            Kind::Close => b"close",
            Kind::Unlink => b"unlink",
            Kind::GetAttr => b"getattr",
            Kind::SetAttr => b"setattr",
            Kind::Notify => b"notify",
            Kind::Collect => b"collect",
            Kind::Clock => b"clock",
            Kind::ReadLock => b"rdlock",
            Kind::WriteLock => b"wrlock",
            Kind::RwUnlock => b"rwunlock",
            Kind::Barrier => b"barrier",
            Kind::Once => b"once",
            Kind::FutexWait => b"futexwait",
            Kind::FutexWake => b"futexwake",
            Kind::Write => b"write",
        }
    }
}

/// The kind with this word.
#[tactic(auto, unfolding(crate::specs::Kinds::kind_written))]
pub fn kind_of(word: &[u8]) -> Option<Kind>
    ensures { result ≡ kind_written word.now }
{
    KINDS.iter().copied().find(|kind| word == kind.text())
}

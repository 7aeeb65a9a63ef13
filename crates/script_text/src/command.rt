//! The calls of a script, and the words for them.
ghost use Rattle.std.specs.Prelude.{◌≡◌, map};
ghost use Rattle.std.specs.List.{list_all};
ghost use Rattle.std.specs.Option.{option_map};
ghost use Rattle.script_text.specs.Grammar.{said, command_written, open_written, attr_written, close_written, unlink_written, send_written, receive_written, deadline_written, text_written, timed_send_written, until_written, timed_receive_written, getattr_written, setattr_written, notify_written, notice_written, exit_written, value_written, access_written, are_options, flags_written, flag_written, is_at_most_once, is_option_letter, option_letters, room_written};

use crate::verb::{Verb, verb_of};
use mq_model::entries::{Access, Attr, Deadline, OpenFlags};
use mq_model::limits::MESSAGE_BYTES;
use text_io::words::{integer, number, small_number};

/// A call of a script. `T` holds the bytes of names and messages. In a program it is a slice of the
/// script.
#[derive(Clone, Copy)]
pub enum Command<T> {
    Open {
        name: T,
        flags: OpenFlags,
        attr: Option<Attr>,
    },
    Close {
        d: u32,
    },
    Unlink {
        name: T,
    },
    Send {
        d: u32,
        prio: u32,
        message: T,
    },
    Receive {
        d: u32,
        room: usize,
    },
    TimedSend {
        d: u32,
        prio: u32,
        until: Deadline,
        message: T,
    },
    TimedReceive {
        d: u32,
        room: usize,
        until: Deadline,
    },
    Getattr {
        d: u32,
    },
    Setattr {
        d: u32,
        nonblock: bool,
    },
    Notify {
        d: u32,
        value: Option<u64>,
    },
    Notice,
    Exit,
}

/// The access mode of a letter.
fn access_of(letter: u8) -> Option<Access>
    ensures { result ≡ access_written letter }
{
    match letter {
        b'r' => Some(Access::Read),
        b'w' => Some(Access::Write),
        b'b' => Some(Access::Both),
        _ => None,
    }
}

/// The letters for create, exclusive and nonblocking.
const OPTION_LETTERS: [u8; 3] = *b"cxn";

// The letters of an open after its access mode: each at most once.
fn are_options(letters: &[u8]) -> bool
    ensures { result ≡ are_options letters.now }
{
    are_option_letters(letters) && are_distinct_options(letters)
}

fn are_option_letters(letters: &[u8]) -> bool
    ensures { result ≡ list_all is_option_letter letters.now }
{
    letters.iter().all(|b| is_option_letter(*b))
}

fn is_option_letter(b: u8) -> bool
    ensures { result ≡ is_option_letter b }
{
    OPTION_LETTERS.contains(&b)
}

fn are_distinct_options(letters: &[u8]) -> bool
    ensures { result ≡ list_all (is_at_most_once letters.now) option_letters }
{
    OPTION_LETTERS
        .iter()
        .all(|letter| is_at_most_once(letters, *letter))
}

fn is_at_most_once(letters: &[u8], letter: u8) -> bool
    ensures { result ≡ is_at_most_once letters.now letter }
{
    letters.iter().filter(|b| **b == letter).count() <= 1
}

/// The flags of an open: a letter for the access mode, then letters for those that are set.
pub fn flags_of(word: &[u8]) -> Option<OpenFlags>
    ensures { result ≡ flags_written word.now }
{
    let (letter, letters) = word.split_first()?;
    let access = access_of(*letter)?;
    if !are_options(letters) {
        return None;
    }
    Some(OpenFlags {
        access,
        create: letters.contains(&b'c'),
        excl: letters.contains(&b'x'),
        nonblock: letters.contains(&b'n'),
    })
}

/// The new nonblocking flag of a `setattr`.
fn flag_of(word: &[u8]) -> Option<bool>
    ensures { result ≡ flag_written word.now }
{
    match number(word)? {
        0 => Some(false),
        1 => Some(true),
        _ => None,
    }
}

/// The buffer length of a `recv` or `trecv`, at most that of the longest message.
fn room_of(word: &[u8]) -> Option<usize>
    ensures { result ≡ room_written word.now }
{
    let room = small_number(word)?;
    if i64::from(room) > MESSAGE_BYTES {
        return None;
    }
    Some(room as usize)
}

/// The call that the words after the process mean.
pub fn command_of<'s>(words: &[&'s [u8]]) -> Option<Command<&'s [u8]>>
    ensures { option_map said result ≡ command_written (map (λ word. word.now) words.now) }
{
    match words {
        [word, arguments @ ..] => match verb_of(word)? {
            Verb::Open => open_of(arguments),
            Verb::Close => close_of(arguments),
            Verb::Unlink => unlink_of(arguments),
            Verb::Send => send_of(arguments),
            Verb::Receive => receive_of(arguments),
            Verb::TimedSend => timed_send_of(arguments),
            Verb::TimedReceive => timed_receive_of(arguments),
            Verb::Getattr => getattr_of(arguments),
            Verb::Setattr => setattr_of(arguments),
            Verb::Notify => notify_of(arguments),
            Verb::Notice => notice_of(arguments),
            Verb::Exit => exit_of(arguments),
            Verb::Collect | Verb::Withdraw => None,
        },
        [] => None,
    }
}

fn open_of<'s>(words: &[&'s [u8]]) -> Option<Command<&'s [u8]>>
    ensures { option_map said result ≡ open_written (map (λ word. word.now) words.now) }
{
    match words {
        [name, flags, limits @ ..] => Some(Command::Open {
            name,
            flags: flags_of(flags)?,
            attr: attr_of(limits)?,
        }),
        _ => None,
    }
}

/// The limits of a queue, which may be left out.
fn attr_of(words: &[&[u8]]) -> Option<Option<Attr>>
    ensures { result ≡ attr_written (map (λ word. word.now) words.now) }
{
    match words {
        [] => Some(None),
        [maxmsg, msgsize] => Some(Some(Attr {
            maxmsg: integer(maxmsg)?,
            msgsize: integer(msgsize)?,
        })),
        _ => None,
    }
}

fn close_of<'s>(words: &[&'s [u8]]) -> Option<Command<&'s [u8]>>
    ensures { option_map said result ≡ close_written (map (λ word. word.now) words.now) }
{
    match words {
        [d] => Some(Command::Close {
            d: small_number(d)?,
        }),
        _ => None,
    }
}

fn unlink_of<'s>(words: &[&'s [u8]]) -> Option<Command<&'s [u8]>>
    ensures { option_map said result ≡ unlink_written (map (λ word. word.now) words.now) }
{
    match words {
        [name] => Some(Command::Unlink { name }),
        _ => None,
    }
}

fn send_of<'s>(words: &[&'s [u8]]) -> Option<Command<&'s [u8]>>
    ensures { option_map said result ≡ send_written (map (λ word. word.now) words.now) }
{
    match words {
        [d, prio] => Some(Command::Send {
            d: small_number(d)?,
            prio: small_number(prio)?,
            message: &[],
        }),
        [d, prio, message] => Some(Command::Send {
            d: small_number(d)?,
            prio: small_number(prio)?,
            message,
        }),
        _ => None,
    }
}

fn receive_of<'s>(words: &[&'s [u8]]) -> Option<Command<&'s [u8]>>
    ensures { option_map said result ≡ receive_written (map (λ word. word.now) words.now) }
{
    match words {
        [d, room] => Some(Command::Receive {
            d: small_number(d)?,
            room: room_of(room)?,
        }),
        _ => None,
    }
}

fn timed_send_of<'s>(words: &[&'s [u8]]) -> Option<Command<&'s [u8]>>
    ensures { option_map said result ≡ timed_send_written (map (λ word. word.now) words.now) }
{
    match words {
        [d, prio, sec, nsec, text @ ..] => Some(Command::TimedSend {
            d: small_number(d)?,
            prio: small_number(prio)?,
            until: deadline_of(sec, nsec)?,
            message: text_of(text)?,
        }),
        _ => None,
    }
}

/// The text of a send, which may be left out.
fn text_of<'s>(words: &[&'s [u8]]) -> Option<&'s [u8]>
    ensures { option_map (λ text. text.now) result ≡
        text_written (map (λ word. word.now) words.now) }
{
    match words {
        [] => Some(&[]),
        [text] => Some(text),
        _ => None,
    }
}

fn timed_receive_of<'s>(words: &[&'s [u8]]) -> Option<Command<&'s [u8]>>
    ensures { option_map said result ≡ timed_receive_written (map (λ word. word.now) words.now) }
{
    match words {
        [d, room, until @ ..] => Some(Command::TimedReceive {
            d: small_number(d)?,
            room: room_of(room)?,
            until: until_of(until)?,
        }),
        _ => None,
    }
}

// A deadline, in two words.
fn until_of(words: &[&[u8]]) -> Option<Deadline>
    ensures { result ≡ until_written (map (λ word. word.now) words.now) }
{
    match words {
        [sec, nsec] => deadline_of(sec, nsec),
        _ => None,
    }
}

/// The seconds and nanoseconds of a deadline. Their ranges are not checked.
pub fn deadline_of(sec: &[u8], nsec: &[u8]) -> Option<Deadline>
    ensures { result ≡ deadline_written sec.now nsec.now }
{
    Some(Deadline {
        sec: integer(sec)?,
        nsec: integer(nsec)?,
    })
}

fn getattr_of<'s>(words: &[&'s [u8]]) -> Option<Command<&'s [u8]>>
    ensures { option_map said result ≡ getattr_written (map (λ word. word.now) words.now) }
{
    match words {
        [d] => Some(Command::Getattr {
            d: small_number(d)?,
        }),
        _ => None,
    }
}

fn setattr_of<'s>(words: &[&'s [u8]]) -> Option<Command<&'s [u8]>>
    ensures { option_map said result ≡ setattr_written (map (λ word. word.now) words.now) }
{
    match words {
        [d, nonblock] => Some(Command::Setattr {
            d: small_number(d)?,
            nonblock: flag_of(nonblock)?,
        }),
        _ => None,
    }
}

fn notify_of<'s>(words: &[&'s [u8]]) -> Option<Command<&'s [u8]>>
    ensures { option_map said result ≡ notify_written (map (λ word. word.now) words.now) }
{
    match words {
        [d, value] => Some(Command::Notify {
            d: small_number(d)?,
            value: value_of(value)?,
        }),
        _ => None,
    }
}

fn notice_of<'s>(words: &[&'s [u8]]) -> Option<Command<&'s [u8]>>
    ensures { option_map said result ≡ notice_written (map (λ word. word.now) words.now) }
{
    match words {
        [] => Some(Command::Notice),
        _ => None,
    }
}

fn exit_of<'s>(words: &[&'s [u8]]) -> Option<Command<&'s [u8]>>
    ensures { option_map said result ≡ exit_written (map (λ word. word.now) words.now) }
{
    match words {
        [] => Some(Command::Exit),
        _ => None,
    }
}

/// The value of a `notify`: a number, or `-` for a removal.
fn value_of(word: &[u8]) -> Option<Option<u64>>
    ensures { result ≡ value_written word.now }
{
    if word == b"-".as_slice() {
        Some(None)
    } else {
        Some(Some(number(word)?))
    }
}

//! The words of calls.
ghost use Rattle.std.specs.Prelude.{◌≡◌, ◌++◌, IfOk, codes, string_bytes};
ghost use Rattle.std.specs.List.{join_with_byte};
ghost use Rattle.std.specs.Option.{option_map};
ghost use Rattle.journal_format.specs.Reading.{call_at, call_behind, close_at, getattr_at, notify_at, open_at, read_off, receive_at, send_at, setattr_at, timed_receive_at, timed_send_at, withdraw_at, words_at};
ghost use Rattle.journal_format.specs.Text.{access_letter, call_words, flag_word, flags_word, letter_if, moment_words};

use crate::words::{
    flag_of, limits_of, moment_of, number_of, number_or_of, small_number_of, word_of,
};
use mq_model::entries::{Access, Attr, Call, Deadline, OpenFlags};
use script_text::command::flags_of;
use script_text::verb::{Verb, verb_of};
use std::alloc::{AllocError, Global};

/// The words of a call, without a name or a message.
pub fn call_text(alloc: Global, call: &Call) -> Result<String, AllocError>
    ensures { IfOk result (λ text. string_bytes text ≡ join_with_byte 32 (call_words call.now)) }
{
    match *call {
        Call::MqOpen { flags, attr } => open_text(alloc, flags, attr),
        Call::MqClose { d } => format!(in alloc; "close {d}"),
        Call::MqUnlink => String::from_str(alloc, "unlink"),
        Call::MqSend { d, prio, len } => format!(in alloc; "send {d} {prio} {len}"),
        Call::MqReceive { d, room } => format!(in alloc; "recv {d} {room}"),
        Call::MqTimedSend {
            d,
            prio,
            len,
            until,
            now,
        } => {
            let moments = moments_text(alloc, until, now)?;
            format!(in alloc; "tsend {d} {prio} {len} {moments}")
        }
        Call::MqTimedReceive {
            d,
            room,
            until,
            now,
        } => {
            let moments = moments_text(alloc, until, now)?;
            format!(in alloc; "trecv {d} {room} {moments}")
        }
        Call::MqGetattr { d } => format!(in alloc; "getattr {d}"),
        Call::MqSetattr { d, nonblock } => {
            let flag = flag_text(nonblock);
            format!(in alloc; "setattr {d} {flag}")
        }
        Call::MqNotify { d, value: None } => format!(in alloc; "notify {d} -"),
        Call::MqNotify {
            d,
            value: Some(value),
        } => format!(in alloc; "notify {d} {value}"),
        Call::NextNotice => String::from_str(alloc, "notice"),
        Call::Collect => String::from_str(alloc, "collect"),
        Call::Withdraw { now } => {
            let Deadline { sec, nsec } = now;
            format!(in alloc; "withdraw at {sec} {nsec}")
        }
    }
}

fn open_text(alloc: Global, flags: OpenFlags, attr: Option<Attr>) -> Result<String, AllocError>
    ensures { IfOk result (λ text. string_bytes text ≡
        join_with_byte 32 (call_words (Call.MqOpen flags attr))) }
{
    let flags = flags_text(alloc, flags)?;
    match attr {
        None => format!(in alloc; "open {flags}"),
        Some(Attr { maxmsg, msgsize }) => {
            format!(in alloc; "open {flags} limits {maxmsg} {msgsize}")
        }
    }
}

fn flags_text(alloc: Global, flags: OpenFlags) -> Result<String, AllocError>
    ensures { IfOk result (λ text. string_bytes text ≡ flags_word flags) }
{
    let access = access_letter(flags.access);
    let create = letter_if(flags.create, "c");
    let excl = letter_if(flags.excl, "x");
    let nonblock = letter_if(flags.nonblock, "n");
    format!(in alloc; "{access}{create}{excl}{nonblock}")
}

fn access_letter(access: Access) -> &'static str
    ensures { result.now ≡ access_letter access }
{
    match access {
        Access::Read => "r",
        Access::Write => "w",
        Access::Both => "b",
    }
}

fn letter_if(set: bool, letter: &'static str) -> &'static str
    ensures { result.now ≡ letter_if set letter.entry.now }
{
    if set { letter } else { "" }
}

/// 1 if nonblocking, else 0.
pub(crate) fn flag_text(nonblock: bool) -> &'static str
    ensures { result.now ≡ flag_word nonblock }
{
    if nonblock { "1" } else { "0" }
}

// The deadline and the time of a timed call.
fn moments_text(alloc: Global, until: Deadline, now: Deadline) -> Result<String, AllocError>
    ensures { IfOk result (λ text. string_bytes text ≡
        join_with_byte 32 (moment_words (codes "until") until ++ moment_words (codes "at") now)) }
{
    let (sec, nsec) = (until.sec, until.nsec);
    let (now_sec, now_nsec) = (now.sec, now.nsec);
    format!(in alloc; "until {sec} {nsec} at {now_sec} {now_nsec}")
}

/// The call that the next words mean, without its name or message.
#[tactic(auto, unfolding(crate::specs::Reading::call_at))]
pub fn call_of<'w, 's>(words: &'w [&'s [u8]]) -> Option<(Call, &'w [&'s [u8]])>
    ensures { option_map read_off result ≡ call_at (words_at words.now) }
{
    let (word, words) = word_of(words)?;
    let verb = verb_of(word)?;
    call_behind(verb, words)
}

// The call that the words after its verb mean.
fn call_behind<'w, 's>(verb: Verb, words: &'w [&'s [u8]]) -> Option<(Call, &'w [&'s [u8]])>
    ensures { option_map read_off result ≡ call_behind verb (words_at words.now) }
{
    match verb {
        Verb::Open => open_of(words),
        Verb::Close => close_of(words),
        Verb::Unlink => Some((Call::MqUnlink, words)),
        Verb::Send => send_of(words),
        Verb::Receive => receive_of(words),
        Verb::TimedSend => timed_send_of(words),
        Verb::TimedReceive => timed_receive_of(words),
        Verb::Getattr => getattr_of(words),
        Verb::Setattr => setattr_of(words),
        Verb::Notify => notify_of(words),
        Verb::Notice => Some((Call::NextNotice, words)),
        Verb::Collect => Some((Call::Collect, words)),
        Verb::Withdraw => withdraw_of(words),
        Verb::Exit => None,
    }
}

#[tactic(auto, unfolding(crate::specs::Reading::open_at))]
fn open_of<'w, 's>(words: &'w [&'s [u8]]) -> Option<(Call, &'w [&'s [u8]])>
    ensures { option_map read_off result ≡ open_at (words_at words.now) }
{
    let (word, words) = word_of(words)?;
    let flags = flags_of(word)?;
    let (attr, words) = limits_of(words)?;
    Some((Call::MqOpen { flags, attr }, words))
}

#[tactic(auto, unfolding(crate::specs::Reading::close_at))]
fn close_of<'w, 's>(words: &'w [&'s [u8]]) -> Option<(Call, &'w [&'s [u8]])>
    ensures { option_map read_off result ≡ close_at (words_at words.now) }
{
    let (d, words) = small_number_of(words)?;
    Some((Call::MqClose { d }, words))
}

#[tactic(auto, unfolding(crate::specs::Reading::send_at))]
fn send_of<'w, 's>(words: &'w [&'s [u8]]) -> Option<(Call, &'w [&'s [u8]])>
    ensures { option_map read_off result ≡ send_at (words_at words.now) }
{
    let (d, words) = small_number_of(words)?;
    let (prio, words) = small_number_of(words)?;
    let (len, words) = number_of(words)?;
    Some((Call::MqSend { d, prio, len }, words))
}

#[tactic(auto, unfolding(crate::specs::Reading::receive_at))]
fn receive_of<'w, 's>(words: &'w [&'s [u8]]) -> Option<(Call, &'w [&'s [u8]])>
    ensures { option_map read_off result ≡ receive_at (words_at words.now) }
{
    let (d, words) = small_number_of(words)?;
    let (room, words) = number_of(words)?;
    Some((Call::MqReceive { d, room }, words))
}

#[tactic(auto, unfolding(crate::specs::Reading::timed_send_at))]
fn timed_send_of<'w, 's>(words: &'w [&'s [u8]]) -> Option<(Call, &'w [&'s [u8]])>
    ensures { option_map read_off result ≡ timed_send_at (words_at words.now) }
{
    let (d, words) = small_number_of(words)?;
    let (prio, words) = small_number_of(words)?;
    let (len, words) = number_of(words)?;
    let (until, words) = moment_of(words)?;
    let (now, words) = moment_of(words)?;
    let call = Call::MqTimedSend {
        d,
        prio,
        len,
        until,
        now,
    };
    Some((call, words))
}

#[tactic(auto, unfolding(crate::specs::Reading::timed_receive_at))]
fn timed_receive_of<'w, 's>(words: &'w [&'s [u8]]) -> Option<(Call, &'w [&'s [u8]])>
    ensures { option_map read_off result ≡ timed_receive_at (words_at words.now) }
{
    let (d, words) = small_number_of(words)?;
    let (room, words) = number_of(words)?;
    let (until, words) = moment_of(words)?;
    let (now, words) = moment_of(words)?;
    let call = Call::MqTimedReceive {
        d,
        room,
        until,
        now,
    };
    Some((call, words))
}

#[tactic(auto, unfolding(crate::specs::Reading::getattr_at))]
fn getattr_of<'w, 's>(words: &'w [&'s [u8]]) -> Option<(Call, &'w [&'s [u8]])>
    ensures { option_map read_off result ≡ getattr_at (words_at words.now) }
{
    let (d, words) = small_number_of(words)?;
    Some((Call::MqGetattr { d }, words))
}

#[tactic(auto, unfolding(crate::specs::Reading::setattr_at))]
fn setattr_of<'w, 's>(words: &'w [&'s [u8]]) -> Option<(Call, &'w [&'s [u8]])>
    ensures { option_map read_off result ≡ setattr_at (words_at words.now) }
{
    let (d, words) = small_number_of(words)?;
    let (nonblock, words) = flag_of(words)?;
    Some((Call::MqSetattr { d, nonblock }, words))
}

#[tactic(auto, unfolding(crate::specs::Reading::notify_at))]
fn notify_of<'w, 's>(words: &'w [&'s [u8]]) -> Option<(Call, &'w [&'s [u8]])>
    ensures { option_map read_off result ≡ notify_at (words_at words.now) }
{
    let (d, words) = small_number_of(words)?;
    let (value, words) = number_or_of(b"-", words)?;
    Some((Call::MqNotify { d, value }, words))
}

#[tactic(auto, unfolding(crate::specs::Reading::withdraw_at))]
fn withdraw_of<'w, 's>(words: &'w [&'s [u8]]) -> Option<(Call, &'w [&'s [u8]])>
    ensures { option_map read_off result ≡ withdraw_at (words_at words.now) }
{
    let (now, words) = moment_of(words)?;
    Some((Call::Withdraw { now }, words))
}

//! The lines of a trace.
ghost use Rattle.std.specs.Prelude.{◌≤◌, IfSome};

use crate::kind::kind_of;
use crate::operation::{
    Ability, Also, Choice, End, MOST_THREADS, MOST_VARIANTS, Operation, Parked,
};
use std::alloc::{AllocError, Global};
use text_io::words::{count_of, number, small_number, words};

/// What a line of a trace says.
#[derive(Drop)]
pub enum Record {
    /// The threads that are parked before the next step.
    At(Vec<Parked>),
    Chose(Choice),
    Also(Also),
    /// The result of the step: an error, 0 if there is none, and a value.
    Gave(u32, u64),
    /// A queue, how many messages it can hold, and how many it held when it was first seen.
    Room(u32, u32, u32),
    /// The threads that are parked at the end.
    Left(Vec<Parked>),
    /// How the run ended, and whether it fails.
    End(End, bool),
}

fn ability_of(word: &[u8]) -> Option<Ability> {
    match word {
        b"0" => Some(Ability::Cannot),
        b"1" => Some(Ability::Can),
        b"2" => Some(Ability::Late),
        _ => None,
    }
}

// A sum of 1, 2 and 4, each at most once.
fn flags_of(word: &[u8]) -> Option<u32>
    ensures { IfSome result (λ n. n ≤ 7) }
{
    let flags = small_number(word)?;
    if flags <= 7 { Some(flags) } else { None }
}

fn operation_of(kind: &[u8], object: &[u8], flags: &[u8], argument: &[u8]) -> Option<Operation> {
    let kind = kind_of(kind)?;
    let object = small_number(object)?;
    let flags = flags_of(flags)?;
    let argument = small_number(argument)?;
    Some(Operation {
        kind,
        object,
        argument,
        has_deadline: flags % 2 == 1,
        is_try: flags / 2 % 2 == 1,
    })
}

fn parked_by(thread: &[u8], operation: Operation, ability: &[u8], variants: &[u8]) -> Option<Parked>
    ensures { IfSome result (λ p. (1 ≤ p.thread) × (p.thread ≤ 64) ×
        (1 ≤ p.variants) × (p.variants ≤ 64)) }
{
    let thread = count_of(MOST_THREADS, thread)?;
    let ability = ability_of(ability)?;
    let variants = count_of(MOST_VARIANTS, variants)?;
    Some(Parked {
        thread,
        operation,
        ability,
        variants,
    })
}

// THREAD:KIND:OBJECT:FLAGS:ABLE:VARIANTS:ARGUMENT
fn parked_of(alloc: Global, word: &[u8]) -> Result<Option<Parked>, AllocError> {
    let parts: Vec<&[u8]> = word.split(|b| *b == b':').collect(alloc)?;
    match parts.as_slice() {
        [thread, kind, object, flags, ability, variants, argument] => {
            match operation_of(kind, object, flags, argument) {
                Some(operation) => Ok(parked_by(thread, operation, ability, variants)),
                None => Ok(None),
            }
        }
        _ => Ok(None),
    }
}

fn all_parked(alloc: Global, words: &[&[u8]]) -> Result<Option<Vec<Parked>>, AllocError> {
    let mut all = Vec::new(alloc);
    for word in words {
        match parked_of(alloc, word)? {
            Some(parked) => all.push(parked)?,
            None => return Ok(None),
        }
    }
    Ok(Some(all))
}

fn chose(thread: &[u8], variant: &[u8]) -> Option<Record> {
    let thread = small_number(thread)?;
    let variant = small_number(variant)?;
    Some(Record::Chose(Choice { thread, variant }))
}

fn also(kind: &[u8], object: &[u8]) -> Option<Record> {
    let kind = kind_of(kind)?;
    let object = small_number(object)?;
    Some(Record::Also(Also { kind, object }))
}

fn gave(error: &[u8], value: &[u8]) -> Option<Record> {
    let error = small_number(error)?;
    let value = number(value)?;
    Some(Record::Gave(error, value))
}

fn room(object: &[u8], most: &[u8], held: &[u8]) -> Option<Record> {
    let object = small_number(object)?;
    let most = small_number(most)?;
    let held = small_number(held)?;
    Some(Record::Room(object, most, held))
}

fn end_of(word: &[u8]) -> Option<End> {
    match word {
        b"done" => Some(End::Done),
        b"deadlock" => Some(End::Deadlock),
        b"steps" => Some(End::Steps),
        b"unfit" => Some(End::Unfit),
        b"slept" => Some(End::Slept),
        b"died" => Some(End::Died),
        b"hung" => Some(End::Hung),
        _ => None,
    }
}

fn end(how: &[u8], fails: &[u8]) -> Option<Record> {
    let end = end_of(how)?;
    match fails {
        b"0" => Some(Record::End(end, false)),
        b"1" => Some(Record::End(end, true)),
        _ => None,
    }
}

/// What a line says, or `None` if it is not one of the protocol.
pub fn record_of(alloc: Global, line: &[u8]) -> Result<Option<Record>, AllocError> {
    let words = words(alloc, line)?;
    match words.as_slice() {
        [b"at", threads @ ..] => Ok(all_parked(alloc, threads)?.map(Record::At)),
        [b"chose", thread, variant] => Ok(chose(thread, variant)),
        [b"also", kind, object] => Ok(also(kind, object)),
        [b"gave", error, value] => Ok(gave(error, value)),
        [b"room", object, most] => Ok(room(object, most, b"0")),
        [b"room", object, most, held] => Ok(room(object, most, held)),
        [b"left", threads @ ..] => Ok(all_parked(alloc, threads)?.map(Record::Left)),
        [b"end", how, fails] => Ok(end(how, fails)),
        _ => Ok(None),
    }
}

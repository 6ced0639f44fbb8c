// Numbers, names, targets and words, and what a line of fields says.
ghost use Rattle.std.specs.Prelude.{◌≡◌, [], ◌&&◌};
ghost use Rattle.std.specs.List.{list_all};
ghost use Rattle.script_text.specs.Words.{suits_name, begins_name, is_name, number_field, name_field, target_field, and_then, runs, arguments, bare_word, block_word, word_of, line_of};
ghost use Rattle.std.specs.Str.{bytes_eq};
ghost use Rattle.script_text.specs.declared.commands.Command.TheVariants as commands;
ghost use Rattle.script_text.specs.Digits.{number_from, number_more};

use crate::commands::{Command, Line, Target};
use crate::faults::Cause;

/// The words that a line may begin with.
#[derive(Clone, Copy, Debug, PartialEq, Eq)]
pub enum Word {
    Round,
    Thread,
    Lock,
    Unlock,
    Walk,
    Compact,
    Alloc,
    Zalloc,
    Realloc,
    Inplace,
    Free,
    Size,
    Get,
    Put,
}

impl Word {
    pub fn read(field: &[u8]) -> Option<Word>
        ensures { result ≡ word_of field.now }
    {
        match Word::bare(field) {
            Some(word) => Some(word),
            None => Word::of_block(field),
        }
    }

    fn bare(field: &[u8]) -> Option<Word>
        ensures { result ≡ bare_word field.now }
    {
        if same(field, b"round") {
            return Some(Word::Round);
        }
        if same(field, b"thread") {
            return Some(Word::Thread);
        }
        if same(field, b"lock") {
            return Some(Word::Lock);
        }
        if same(field, b"unlock") {
            return Some(Word::Unlock);
        }
        if same(field, b"walk") {
            return Some(Word::Walk);
        }
        same(field, b"compact").then_some(Word::Compact)
    }

    /// The words that have fields behind them.
    pub fn of_block(field: &[u8]) -> Option<Word>
        ensures { result ≡ block_word field.now }
    {
        if same(field, b"alloc") {
            return Some(Word::Alloc);
        }
        if same(field, b"zalloc") {
            return Some(Word::Zalloc);
        }
        if same(field, b"realloc") {
            return Some(Word::Realloc);
        }
        if same(field, b"inplace") {
            return Some(Word::Inplace);
        }
        if same(field, b"free") {
            return Some(Word::Free);
        }
        if same(field, b"size") {
            return Some(Word::Size);
        }
        if same(field, b"get") {
            return Some(Word::Get);
        }
        same(field, b"put").then_some(Word::Put)
    }

    /// How many fields stand behind the word.
    pub fn arguments(self) -> usize
        ensures { result ≡ arguments self }
    {
        match self {
            Word::Round | Word::Thread => 0,
            Word::Lock | Word::Unlock | Word::Walk | Word::Compact => 0,
            Word::Free | Word::Size => 1,
            Word::Alloc | Word::Zalloc | Word::Realloc | Word::Inplace | Word::Get => 2,
            Word::Put => 3,
        }
    }
}

fn same(field: &[u8], word: &[u8]) -> bool
    ensures { result ≡ bytes_eq field.now word.now }
{
    field == word
}

/// Whether a field is a name: 1 to 32 letters, digits or `_`, the first one no digit.
pub fn named(field: &[u8]) -> bool
    ensures { result ≡ is_name field.now }
{
    starts_name(field) && field.len() <= 32 && all_of_name(field)
}

fn starts_name(field: &[u8]) -> bool
    ensures { result ≡ begins_name field.now }
{
    match field {
        [first, ..] => first.is_ascii_alphabetic() || *first == b'_',
        [] => false,
    }
}

fn all_of_name(field: &[u8]) -> bool
    ensures { result ≡ list_all suits_name field.now }
{
    field.iter().all(|b| of_name(*b))
}

fn of_name(byte: u8) -> bool
    ensures { result ≡ suits_name byte }
{
    byte.is_ascii_alphanumeric() || byte == b'_'
}

/// A number: 1 to 20 decimal digits, with a value of 64 bits.
pub fn number(field: &[u8]) -> Result<u64, Cause>
    ensures { result ≡ number_field field.now }
{
    if field.is_empty() || field.len() > 20 {
        return Err(Cause::BadNumber);
    }
    match digits(field) {
        Some(n) => Ok(n),
        None => Err(Cause::BadNumber),
    }
}

fn digits(field: &[u8]) -> Option<u64>
    ensures { result ≡ number_from 0 field.now }
{
    let mut n = 0u64;
    for b in field {
        n = with_digit(n, *b)?;
    }
    Some(n)
}

/// A number with one digit more.
fn with_digit(n: u64, byte: u8) -> Option<u64>
    ensures { result ≡ number_more n byte }
{
    if !byte.is_ascii_digit() {
        return None;
    }
    n.checked_mul(10)?.checked_add(u64::from(byte - b'0'))
}

fn name(number: u32, field: &[u8]) -> Result<u32, Cause>
    ensures { result ≡ name_field number field.now }
{
    if named(field) {
        Ok(number)
    } else {
        Err(Cause::BadName)
    }
}

fn target(number_of_name: u32, field: &[u8]) -> Result<Target, Cause>
    ensures { result ≡ target_field number_of_name field.now }
{
    match field {
        [b'@', digits @ ..] => Ok(Target::Addr(number(digits)?)),
        _ => Ok(Target::Name(name(number_of_name, field)?)),
    }
}

/// What a word says with the fields behind it. `number_of_name` is that of the name among them.
pub fn line(
    number_of_name: u32,
    word: Word,
    first: &[u8],
    second: &[u8],
    third: &[u8],
) -> Result<Line, Cause>
    ensures { result ≡ line_of number_of_name word first.now second.now third.now }
{
    match word {
        Word::Round => Ok(Line::Round),
        Word::Thread => Ok(Line::Thread),
        Word::Lock => Ok(Line::Runs(Command::Lock)),
        Word::Unlock => Ok(Line::Runs(Command::Unlock)),
        Word::Walk => Ok(Line::Runs(Command::Walk)),
        Word::Compact => Ok(Line::Runs(Command::Compact)),
        Word::Alloc => allocate(number_of_name, first, second, false),
        Word::Zalloc => allocate(number_of_name, first, second, true),
        Word::Realloc => reallocate(number_of_name, first, second, false),
        Word::Inplace => reallocate(number_of_name, first, second, true),
        Word::Free => {
            let target = target(number_of_name, first)?;
            Ok(Line::Runs(Command::Free { target }))
        }
        Word::Size => {
            let target = target(number_of_name, first)?;
            Ok(Line::Runs(Command::Size { target }))
        }
        Word::Get => get(number_of_name, first, second),
        Word::Put => put(number_of_name, first, second, third),
    }
}

fn allocate(number_of_name: u32, first: &[u8], second: &[u8], zero: bool) -> Result<Line, Cause>
    ensures { result ≡ and_then (name_field number_of_name first.now)
        (λ x. and_then (number_field second.now) (λ n. runs (commands.Alloc x n zero))) }
{
    let name = name(number_of_name, first)?;
    let n = number(second)?;
    Ok(Line::Runs(Command::Alloc { name, n, zero }))
}

fn reallocate(
    number_of_name: u32,
    first: &[u8],
    second: &[u8],
    in_place: bool,
) -> Result<Line, Cause>
    ensures { result ≡ and_then (target_field number_of_name first.now)
        (λ t. and_then (number_field second.now) (λ n. runs (commands.Realloc t n in_place))) }
{
    let target = target(number_of_name, first)?;
    let n = number(second)?;
    Ok(Line::Runs(Command::Realloc {
        target,
        n,
        in_place,
    }))
}

fn get(number_of_name: u32, first: &[u8], second: &[u8]) -> Result<Line, Cause>
    ensures { result ≡ line_of number_of_name Word.Get first.now second.now [] }
{
    let target = target(number_of_name, first)?;
    let index = number(second)?;
    Ok(Line::Runs(Command::Get { target, index }))
}

fn put(number_of_name: u32, first: &[u8], second: &[u8], third: &[u8]) -> Result<Line, Cause>
    ensures { result ≡ line_of number_of_name Word.Put first.now second.now third.now }
{
    let target = target(number_of_name, first)?;
    let index = number(second)?;
    let value = number(third)?;
    Ok(Line::Runs(Command::Put {
        target,
        index,
        value,
    }))
}

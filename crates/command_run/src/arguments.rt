// The words of the process, which need not be text.
ghost use Rattle.std.specs.Prelude.{◌≡◌, IfOk, IfSome, IfNone, map, string_bytes};
ghost use Rattle.command_run.specs.Words.{AreText};

use std::alloc::{AllocError, Global};
use std::env::FillError;
use std::rt::Env;
use std::str;

/// The bytes of a word that are asked for at first.
const FIRST_ROOM: usize = 256;

/// The words behind the program's name, as the system gives them. The name itself is not read.
pub fn words_given<E: Env>(alloc: Global, env: &E) -> Result<Vec<Vec<u8>>, AllocError> {
    let mut words = Vec::new(alloc);
    for number in 1..usize::MAX {
        match word_given(alloc, env, number)? {
            Some(word) => words.push(word)?,
            None => break,
        }
    }
    Ok(words)
}

/// One word, by its number, or `None` behind the last one.
fn word_given<E: Env>(
    alloc: Global,
    env: &E,
    number: usize,
) -> Result<Option<Vec<u8>>, AllocError> {
    let mut room = FIRST_ROOM;
    for _ in 0..usize::BITS {
        let mut word = vec![in alloc; 0u8; room]?;
        match env.arg(number, word.as_mut_slice()) {
            Ok(n) => {
                word.truncate(n);
                return Ok(Some(word));
            }
            Err(FillError::NotPresent) => return Ok(None),
            Err(FillError::TooLong) => room = room.saturating_mul(2),
        }
    }
    Err(AllocError)
}

/// The words as texts, or `None` where one of them is not UTF-8.
pub fn texts(alloc: Global, words: &[Vec<u8>]) -> Result<Option<Vec<String>>, AllocError>
    ensures same { IfOk result (λ given. IfSome given (λ texts. map string_bytes texts.items ≡ map (λ w. w.items) words.now)) }
    ensures none { IfOk result (λ given. IfNone given (AreText (map (λ w. w.items) words.now) → ⊥)) }
{
    let mut texts = Vec::new(alloc);
    for word in words {
        let Ok(text) = str::from_utf8(word) else {
            return Ok(None);
        };
        texts.push(String::from_str(alloc, text)?)?;
    }
    Ok(Some(texts))
}

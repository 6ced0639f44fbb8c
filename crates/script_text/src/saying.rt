// What a line says.
ghost use Rattle.std.specs.Prelude.{◌≡◌, ℕ, ◌+◌, ◌^◌, ◌<◌, ◌≤◌, true, List, [], ◌∷◌, ◌++◌, Ok, Err, IfOk, IfErr, IfSome, MatchOption};
ghost use Rattle.std.specs.BTreeMap.{btree_map_len};
ghost use Rattle.script_text.specs.Lines.{fields_of};
ghost use Rattle.script_text.specs.Words.{word_of, is_name};
ghost use Rattle.script_text.specs.Names.{AreNumbered, name_on, name_by, number_on, takes_name};
ghost use Rattle.script_text.specs.Filled.{filled};
ghost use Rattle.script_text.specs.Reading.{said_with, said_on, is_skipped, IsUnsaid};

use crate::commands::Line;
use crate::faults::{Cause, ScriptFault, ScriptNo};
use crate::lines::Fields;
use crate::numbering::Names;
use crate::words::{Word, line, named};
use std::alloc::AllocError;

/// What a line says, and None where it is skipped. Its name is numbered.
pub fn say(names: &mut Names, number: u32, text: &[u8]) -> Result<Option<Line>, ScriptNo>
    requires { btree_map_len names.old.numbers < 2 ^ 32 }
    ensures said { IfOk result (λ line. (before behind : List (List ℕ)) → AreNumbered names.old.numbers before →
        said_on (before ++ name_on (fields_of text.now) ++ behind) text.now ≡ Ok line) }
    ensures numbered { IfOk result (λ _. (before : List (List ℕ)) → AreNumbered names.old.numbers before →
        AreNumbered names.new.numbers (before ++ name_on (fields_of text.now))) }
    ensures fault { IfErr result (λ no. (before behind : List (List ℕ)) → AreNumbered names.old.numbers before →
        IsUnsaid number (said_on (before ++ name_on (fields_of text.now) ++ behind) text.now) no) }
    ensures count { btree_map_len names.new.numbers ≤ btree_map_len names.old.numbers + 1 }
{
    let fields = Fields::of(text);
    let word = Word::read(fields.word);
    let number_of_name = number_in(names, word, &fields)?;
    match said(number_of_name, word, &fields) {
        Ok(line) => Ok(line),
        Err(cause) => Err(ScriptNo::Fault(ScriptFault {
            line: number,
            cause,
        })),
    }
}

/// The number of the name among fields that begin with this word, and 0 where there is none.
fn number_in(names: &mut Names, word: Option<Word>, fields: &Fields) -> Result<u32, AllocError>
    requires word { word ≡ word_of fields.now.word.now }
    requires few { btree_map_len names.old.numbers < 2 ^ 32 }
    ensures number { IfOk result (λ n. (before behind : List (List ℕ)) → AreNumbered names.old.numbers before →
        let name = name_by fields.now.word.now fields.now.first.now in n ≡ number_on (before ++ name ++ behind) name) }
    ensures numbered { IfOk result (λ _. (before : List (List ℕ)) → AreNumbered names.old.numbers before →
        AreNumbered names.new.numbers (before ++ name_by fields.now.word.now fields.now.first.now)) }
    ensures count { btree_map_len names.new.numbers ≤ btree_map_len names.old.numbers + 1 }
{
    match name_of(word, fields) {
        Some(name) => names.number(name),
        None => Ok(0),
    }
}

/// The name among fields.
fn name_of<'a>(word: Option<Word>, fields: &Fields<'a>) -> Option<&'a [u8]>
    requires { word ≡ word_of fields.now.word.now }
    ensures name { MatchOption result (name_by fields.now.word.now fields.now.first.now ≡ [])
        (λ name. name_by fields.now.word.now fields.now.first.now ≡ name.now ∷ []) }
    ensures valid { IfSome result (λ name. is_name name.now ≡ true) }
{
    if takes_name(word) && named(fields.first) {
        Some(fields.first)
    } else {
        None
    }
}

/// Whether a block stands behind a word, by its name or its address.
fn takes_name(word: Option<Word>) -> bool
    ensures { result ≡ takes_name word }
{
    match word {
        Some(word) => word.arguments() > 0,
        None => false,
    }
}

fn skipped(word: &[u8]) -> bool
    ensures { result ≡ is_skipped word.now }
{
    match word {
        [first, ..] => *first == b'#',
        [] => true,
    }
}

fn said(number_of_name: u32, word: Option<Word>, fields: &Fields) -> Result<Option<Line>, Cause>
    requires { word ≡ word_of fields.now.word.now }
    ensures { let f = fields.now in result ≡ said_with number_of_name
        (filled f.word.now f.first.now f.second.now f.third.now f.fourth.now)
        f.word.now f.first.now f.second.now f.third.now }
{
    if skipped(fields.word) {
        return Ok(None);
    }
    let Some(word) = word else {
        return Err(Cause::BadLine);
    };
    if fields.count() != word.arguments() + 1 {
        return Err(Cause::BadLine);
    }
    let line = line(
        number_of_name,
        word,
        fields.first,
        fields.second,
        fields.third,
    )?;
    Ok(Some(line))
}

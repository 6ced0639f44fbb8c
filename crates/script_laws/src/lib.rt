// The laws of the script language.
#![tactic(auto)]

ghost use Rattle.std.specs.Prelude.{◌≡◌, ℕ, ◌≤◌, List, length, Ok, Err};
ghost use Rattle.script_text.specs.declared.commands.Command.{Command};
ghost use Rattle.script_text.specs.declared.faults.ScriptFault.{ScriptFault};
ghost use Rattle.script_text.specs.ThreadLines.{ScriptLines};
ghost use Rattle.script_text.specs.Reading.{reading_of};
ghost use Rattle.script_laws.specs.FirstFault.{IsFaultOf, IsScriptOf};
ghost use Rattle.script_laws.specs.Printer.{printed};
ghost use Rattle.script_laws.specs.Printable.{IsScript, IsReadAs, HasOwnNames};

/// A text that is refused is too long, or the fault is on its first faulty line or at its end. A text that is read is
/// not too long and has no fault on any line nor at its end, and its script is what its lines say, cut into rounds.
pub fn first_fault()
    ensures refused { (text : List ℕ) (fault : ScriptFault) → reading_of text ≡ Err fault → IsFaultOf text fault }
    ensures accepted { (text : List ℕ) (script : ScriptLines) → reading_of text ≡ Ok script → IsScriptOf text script }
{}

/// A text of the language has one script.
pub fn one_script()
    ensures { (text : List ℕ) (s t : ScriptLines) → reading_of text ≡ Ok s → reading_of text ≡ Ok t → s ≡ t }
{}

/// A script that is printed is read as that script: the same number of names, and the same commands in each thread of
/// each round. Its lines have the numbers that they have in the printed text.
pub fn printed_is_read()
    ensures { (names : ℕ → List ℕ) (count : ℕ) (rounds : List (List (List Command))) → IsScript names count rounds → length (printed names rounds) ≤ 1048576 → IsReadAs (printed names rounds) count rounds }
{}

/// What is read of a text is a script that can be printed, with the names of the text. It is read back from what is
/// printed, unless that is too long: a text may leave out `round` and `thread`, which are always printed.
pub fn read_is_printable()
    ensures { (text : List ℕ) (script : ScriptLines) → reading_of text ≡ Ok script → HasOwnNames text script }
{}

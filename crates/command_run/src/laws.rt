// What is said of the values of names, and of runs over bytes in memory.
ghost use Rattle.command_run.specs.Named.{NamesHaveTheirValues};
ghost use Rattle.command_run.specs.OverBytes.{RunsOverBytes};

/// In a script of one thread a round, each name has at each command the value that the script language gives it there.
pub fn names_have_their_values()
    ensures { NamesHaveTheirValues }
{}

/// A run over a source and a sink in memory that have not failed before, by its status: what was read, and what the sink holds.
pub fn runs_over_bytes()
    ensures { RunsOverBytes }
{}

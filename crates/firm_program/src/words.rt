//! Reading a program's words, and answering those that name nothing to run.

ghost use Rattle.std.specs.Prelude.{◌≡◌, ◌≢◌, false, MatchResult};
ghost use Rattle.std.specs.IoError.{error_kind};
ghost use Rattle.std.specs.declared.io.ErrorKind.TheVariants.{OutOfMemory};
ghost use Rattle.clap.specs.Words.{HasKind, Kinds};
ghost use Rattle.firm_table.specs.Service.{device};
ghost use Rattle.firm_program.specs.Words.{AnswersWords, IsNamed, AreNotOne};
ghost use Rattle.firm_program.specs.Faults.{status_of};

use crate::faults::{Fault, WordsFault, tell};
use clap::Error;
use clap::error::ErrorKind as WordsKind;
use firm_table::ServeFault;
use firm_text::{Sink, write_all};
use std::alloc::Global;
use std::io::ErrorKind;
use std::rt::Env;
use std::{env, io};

/// The exit status for a faulty command line.
pub const BAD_COMMAND_LINE: u8 = 2;

/// The path of the file that a program opens with.
#[derive(Clone, Copy)]
pub enum Named<'a> {
    Roster(&'a str),
    State(&'a str),
}

impl<'a> Named<'a> {
    /// The one path of the two. The fault, of status 2, says that both are given, or none.
    pub fn one_of(roster: Option<&'a str>, state: Option<&'a str>) -> Result<Named<'a>, Fault>
        ensures { MatchResult result (λ named. IsNamed roster.entry state.entry named)
            (λ fault. AreNotOne roster.entry state.entry × (status_of fault ≡ 2)) }
    {
        match roster {
            Some(path) => match state {
                None => Ok(Named::Roster(path)),
                Some(_) => Err(Fault::Words(WordsFault::TwoFiles)),
            },
            None => match state {
                Some(path) => Ok(Named::State(path)),
                None => Err(Fault::Words(WordsFault::NoFile)),
            },
        }
    }
}

/// The words of the command line, the first of which is the program's name. The error is a word that is no text, or
/// refused memory. It has no clause: std states nothing of the words that a program was given.
pub fn arguments<R: Env + AllocGlobal>(rt: &R) -> io::Result<Vec<String>> {
    Ok(env::args(rt)?.collect(rt.alloc())?)
}

/// Refuses a command line that can't be read: it is not text, or memory was refused. Gives the exit status.
pub fn refuse_words<F: Sink>(program: &str, error: &io::Error, faults: &mut F) -> u8
    ensures memory { error_kind error.now ≡ OutOfMemory → result ≡ 6 }
    ensures others { error_kind error.now ≢ OutOfMemory → result ≡ 2 }
{
    match error.kind() {
        ErrorKind::OutOfMemory => tell(program, faults, &Fault::Service(ServeFault::Memory)),
        _ => tell(program, faults, &Fault::Words(WordsFault::NoText)),
    }
}

/// Answers a request for the help or the version, and reports the fault of any other words. Gives the exit status.
pub fn answer_words<O: Sink, F: Sink>(
    program: &str,
    alloc: Global,
    error: &Error,
    writer: &mut O,
    faults: &mut F,
) -> u8
    requires { O.write_failed writer.old ≡ false }
    ensures { (kinds : Kinds) → HasKind kinds error.now
        → AnswersWords kinds (device (O.written writer.old) (O.written writer.new) (O.write_failed writer.new)) result }
{
    if error.kind() == WordsKind::OutOfMemory {
        return tell(program, faults, &Fault::Service(ServeFault::Memory));
    }
    let Ok(text) = format!(in alloc; "{error}") else {
        return tell(program, faults, &Fault::Service(ServeFault::Memory));
    };
    if error.use_stderr() {
        let _ = write_all(faults, text.as_bytes());
        let _ = faults.flush();
        return BAD_COMMAND_LINE;
    }
    if write_all(writer, text.as_bytes()).is_err() || writer.flush().is_err() {
        return tell(program, faults, &Fault::Service(ServeFault::Write));
    }
    0
}

//! Reading the file that a program opens with.

ghost use Rattle.std.specs.Prelude.{◌≡◌, ◌≢◌, ℕ, List, Option, None, IfErr, IfOk};
ghost use Rattle.std.specs.IoError.{error_kind};
ghost use Rattle.std.specs.Io.KnownBytes.{Keeps};
ghost use Rattle.std.specs.declared.io.ErrorKind.TheVariants.{OutOfMemory};
ghost use Rattle.firm_program.specs.Files.{IsFrontOf, IsReadRoster, IsReadState, RefusesRoster, RefusesState};
ghost use Rattle.firm_program.specs.declared.files.ReadFault.TheVariants.{Unreadable, Memory as RefusedMemory};

use crate::faults::Fault;
use firm_saved::Saved;
use firm_table::ServeFault;
use firm_text::{LONGEST_ROSTER, Roster, roster};
use std::alloc::Global;
use std::io::{Error, ErrorKind, Read};
use std::rt::Files;
use std::{fs, io};

/// Files by their paths.
pub trait FileSystem {
    type File: Read + Drop;

    /// The bytes of the file at a path, where the file system tells them.
    ghost bytes_at: { Self → List ℕ → Option (List ℕ) } = { λ _ _. None };

    /// Opens the file at the path for reading, from its first byte to its last.
    fn open(&self, path: &str) -> io::Result<Self::File>
        ensures { IfOk result (λ file. Keeps (bytes_at self.now path.now) (Self.File.remaining file)) };
}

/// The operating system's, which tells nothing of what a file holds.
impl<R: Files> FileSystem for R {
    type File = R::File;

    fn open(&self, path: &str) -> io::Result<R::File> {
        fs::open(self, path)
    }
}

// One byte more than a roster may have, so that a longer file is recognized as such.
const MOST_OF_ROSTER: u64 = LONGEST_ROSTER as u64 + 1;

/// The most bytes of a state's file. No state is longer: it has at most 262,210 lines, of at most 135 bytes each.
pub const LONGEST_STATE: usize = 41_943_040;

// One byte more, likewise.
const MOST_OF_STATE: u64 = LONGEST_STATE as u64 + 1;

/// The roster that is the file at the path, all of it. The fault is the service's `Memory` if memory was refused,
/// `UnreadableRoster` if the file can't be read, and otherwise the roster's first.
pub fn read_roster<R: FileSystem>(rt: &R, alloc: Global, path: &str) -> Result<Roster, Fault>
    ensures read { IfOk result (IsReadRoster (R.bytes_at rt.now path.now)) }
    ensures refused { IfErr result (RefusesRoster (R.bytes_at rt.now path.now)) }
{
    let text = match read(rt, alloc, path, MOST_OF_ROSTER) {
        Ok(text) => text,
        Err(ReadFault::Memory) => return Err(Fault::Service(ServeFault::Memory)),
        Err(ReadFault::Unreadable) => return Err(Fault::UnreadableRoster),
    };
    match roster(alloc, &text) {
        Ok(roster) => Ok(roster),
        Err(fault) => Err(Fault::from(fault)),
    }
}

/// The state that is the file at the path, all of it. The faults are as those of `read_roster`, and `LongState` if the
/// file has more bytes than a state may have.
pub fn read_state<R: FileSystem>(rt: &R, alloc: Global, path: &str) -> Result<Saved, Fault>
    ensures read { IfOk result (IsReadState (R.bytes_at rt.now path.now)) }
    ensures refused { IfErr result (RefusesState (R.bytes_at rt.now path.now)) }
{
    let text = match read(rt, alloc, path, MOST_OF_STATE) {
        Ok(text) => text,
        Err(ReadFault::Memory) => return Err(Fault::Service(ServeFault::Memory)),
        Err(ReadFault::Unreadable) => return Err(Fault::UnreadableState),
    };
    if text.len() > LONGEST_STATE {
        return Err(Fault::LongState);
    }
    match Saved::read(alloc, &text) {
        Ok(saved) => Ok(saved),
        Err(fault) => Err(Fault::from(fault)),
    }
}

// Why a file gives no text.
#[derive(Clone, Copy)]
enum ReadFault {
    Unreadable,
    Memory,
}

// The first bytes of the file at the path, this many, or all of a shorter one.
fn read<R: FileSystem>(rt: &R, alloc: Global, path: &str, most: u64) -> Result<Vec<u8>, ReadFault>
    ensures { IfOk result (λ text. IsFrontOf (R.bytes_at rt.now path.now) most text.items) }
{
    let mut bytes = Vec::new(alloc);
    let file = rt.open(path).map_err(fault_of)?;
    let mut start = file.take(most);
    start.read_to_end(&mut bytes).map_err(fault_of)?;
    Ok(bytes)
}

fn fault_of(error: Error) -> ReadFault
    ensures memory { error_kind error ≡ OutOfMemory → result ≡ RefusedMemory }
    ensures others { error_kind error ≢ OutOfMemory → result ≡ Unreadable }
{
    match error.kind() {
        ErrorKind::OutOfMemory => ReadFault::Memory,
        _ => ReadFault::Unreadable,
    }
}

//! A host in memory, whose failures are planned.
ghost use Rattle.std.specs.Prelude.{◌≡◌, IfOk, is_err, is_some, Option, Some, option_copied, length, ◌++◌, ◌∷◌, [], map, if◌then◌else◌};
ghost use Rattle.sdcv_base.specs.Hosts.{Reads, ReadCounts, asked_by, Prints, Counts, saved_by};
ghost use Rattle.sdcv_base.specs.MemHosts.{
  MemState,
  new_state,
  planned,
  file_named,
  file_of,
  LooksUp,
  mem_read,
  print_fails,
  mem_print,
  save_fails,
  MemSaves,
  bumped,
};

use crate::{Host, HostFault, Name, ReadFault};
use std::alloc::{AllocError, Global};
use std::marker::Model;
use std::mem;

const LONGEST_NAME: usize = 4096;

/// A file of a host in memory.
#[derive(Debug, Drop)]
pub struct FileRec {
    pub name: Name,
    pub bytes: Vec<u8>,
}

/// The host's call of this number fails. A print then prints as much of its piece first.
#[derive(Clone, Copy, Debug, PartialEq, Eq)]
pub struct Fail {
    pub call: u64,
    pub taken: usize,
}

#[derive(Drop)]
pub struct MemHost {
    alloc: Global,
    files: Vec<FileRec>,
    fails: Vec<Fail>,
    room: usize,
    calls: u64,
    asked: Vec<Name>,
    printed: Vec<u8>,
    saved: Vec<FileRec>,
    spare_name: Vec<u8>,
    spare_bytes: Vec<u8>,
    faults: u64,
}

impl Model for MemHost {
    ghost use Rattle.sdcv_base.specs.MemHosts.{MemState};

    ghost Value = { MemState };

    ghost use Rattle.sdcv_base.specs.MemHostFields.{state_of, HasRoom};

    ghost view = { state_of };

    ghost invariant = { HasRoom };
}

impl MemHost {
    /// All memory for printing and saving is taken here.
    pub fn new(
        alloc: Global,
        files: Vec<FileRec>,
        fails: Vec<Fail>,
        room: usize,
    ) -> Result<MemHost, AllocError>
        ensures { IfOk result (λ m. m ≡ new_state files.items fails.items room) }
    {
        Ok(MemHost {
            alloc,
            files,
            fails,
            room,
            calls: 0,
            asked: Vec::new(alloc),
            printed: Vec::with_capacity(alloc, room)?,
            saved: Vec::with_capacity(alloc, 1)?,
            spare_name: Vec::with_capacity(alloc, LONGEST_NAME)?,
            spare_bytes: Vec::with_capacity(alloc, room)?,
            faults: 0,
        })
    }

    pub fn asked(&self) -> &[Name]
        ensures { result.now ≡ self.now.asked }
    {
        &self.asked
    }

    pub fn printed(&self) -> &[u8]
        ensures { result.now ≡ self.now.printed }
    {
        &self.printed
    }

    pub fn saved(&self) -> &[FileRec]
        ensures { result.now ≡ self.now.saved }
    {
        &self.saved
    }

    pub fn faults(&self) -> u64
        ensures { result ≡ self.now.faults }
    {
        self.faults
    }
}

fn bump(n: u64) -> u64
    ensures { result ≡ bumped n }
{
    n.saturating_add(1)
}

// Whether there was memory to note the name.
fn ask(alloc: Global, asked: &mut Vec<Name>, name: &[u8]) -> bool
    ensures { asked.new.items ≡ (if result then asked.old.items ++ name.now ∷ [] else asked.old.items) }
{
    match Name::new(alloc, name) {
        Ok(name) => asked.push(name).is_ok(),
        Err(_) => false,
    }
}

// How much the call of this number prints before it fails, where it is planned to fail.
fn planned_at(fails: &[Fail], call: u64) -> Option<usize>
    ensures { result ≡ planned fails.now call }
{
    fails.iter().find(|f| f.call == call).map(|f| f.taken)
}

fn look_up(
    alloc: Global,
    files: &[FileRec],
    is_planned: bool,
    name: &[u8],
    limit: usize,
) -> Result<Vec<u8>, ReadFault>
    ensures { LooksUp (file_named files.now name.now) is_planned limit result }
{
    if is_planned {
        return Err(ReadFault::Failed);
    }
    for file in files {
        if file.name.as_bytes() == name {
            if file.bytes.len() > limit {
                return Err(ReadFault::TooLong);
            }
            return match Vec::from_slice(alloc, &file.bytes) {
                Ok(bytes) => Ok(bytes),
                Err(_) => Err(ReadFault::Memory),
            };
        }
    }
    Err(ReadFault::Failed)
}

impl Host for MemHost {
    ghost files = { λ m. Some (file_named m.files) };

    ghost asked = { λ m. Some m.asked };

    ghost printed = { λ m. Some m.printed };

    ghost saved = { λ m. Some (map file_of m.saved) };

    ghost faults = { λ m. m.faults };

    fn read_file(&mut self, alloc: Global, name: &str, limit: usize) -> Result<Vec<u8>, ReadFault>
        ensures exactly { LooksUp (file_named self.old.files name.now) (is_some (planned self.old.fails (bumped self.old.calls))) limit result }
        ensures after { self.new ≡ mem_read self.old name.now result }
        ensures count { ReadCounts self.old.faults self.new.faults result }
    {
        self.calls = bump(self.calls);
        let is_planned = planned_at(&self.fails, self.calls).is_some();
        match look_up(alloc, &self.files, is_planned, name.as_bytes(), limit) {
            Ok(bytes) => {
                if !ask(alloc, &mut self.asked, name.as_bytes()) {
                    return Err(ReadFault::Memory);
                }
                Ok(bytes)
            }
            Err(ReadFault::Failed) => {
                if !ask(alloc, &mut self.asked, name.as_bytes()) {
                    return Err(ReadFault::Memory);
                }
                self.faults = bump(self.faults);
                Err(ReadFault::Failed)
            }
            Err(ReadFault::TooLong) => {
                if !ask(alloc, &mut self.asked, name.as_bytes()) {
                    return Err(ReadFault::Memory);
                }
                Err(ReadFault::TooLong)
            }
            Err(ReadFault::Memory) => Err(ReadFault::Memory),
        }
    }

    fn print(&mut self, piece: &[u8]) -> Result<(), HostFault>
        ensures exactly { is_err result ≡ print_fails self.old piece.now }
        ensures after { self.new ≡ mem_print self.old piece.now }
    {
        self.calls = bump(self.calls);
        let left = self.room - self.printed.len();
        let (part, fails) = match planned_at(&self.fails, self.calls) {
            Some(taken) => (&piece[..taken.min(left).min(piece.len())], true),
            None if left < piece.len() => (&piece[..0], true),
            None => (piece, false),
        };
        self.printed.extend_from_slice(part).unwrap();
        if fails {
            self.faults = bump(self.faults);
            return Err(HostFault::Failed);
        }
        Ok(())
    }

    fn save(&mut self, name: &str, bytes: &[u8]) -> Result<(), HostFault>
        ensures exactly { is_err result ≡ save_fails self.old name.now bytes.now }
        ensures after { MemSaves self.old name.now bytes.now result self.new }
    {
        self.calls = bump(self.calls);
        if planned_at(&self.fails, self.calls).is_some()
            || !self.saved.is_empty()
            || name.len() > LONGEST_NAME
            || bytes.len() > self.room
        {
            self.faults = bump(self.faults);
            return Err(HostFault::Failed);
        }
        let mut kept_name = mem::replace(&mut self.spare_name, Vec::new(self.alloc));
        kept_name.extend_from_slice(name.as_bytes()).unwrap();
        let mut kept_bytes = mem::replace(&mut self.spare_bytes, Vec::new(self.alloc));
        kept_bytes.extend_from_slice(bytes).unwrap();
        self.saved
            .push(FileRec {
                name: Name::from_vec(kept_name),
                bytes: kept_bytes,
            })
            .unwrap();
        Ok(())
    }
}

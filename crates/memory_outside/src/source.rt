// A source in memory, whose calls fail where a list names them and which notes its begins.
ghost use Rattle.std.specs.Prelude.{Some, None, Ok, true, ◌≡◌, ◌≢◌, ◌≤◌, ◌<◌, ◌↔◌, ◌++◌, ◌∷◌, [], ◌-◌, ◌^◌, is_ok, is_some, unwrap_or, IsTrue, IsErr, IsErrOf, IfOk, OnOk, take, length, MatchOption};
ghost use Rattle.std.specs.Option.{option_map};
ghost use Rattle.memory_outside.specs.Calls.{count_after, counted_begin, fails_begin, fails_call, with_begin, with_call};
ghost use Rattle.outside.specs.Cause.{HasCause, HasBeginCause};
ghost use Rattle.outside.specs.Files.{bytes_of};
ghost use Rattle.memory_outside.specs.Memory.{source_of};
ghost use Rattle.outside.specs.Told.{WhileTold};
ghost use Rattle.memory_outside.specs.Slots.{bytes_at};

use crate::calls::{Calls, Fail, failed};
use flume_value::{Pile, Str};
use outside::{BeginFault, Failed, File, Source};
use std::alloc::{AllocError, Global};
use std::marker::Model;

/// Files in memory, to read. Its calls fail exactly where its list names them, but for the `begin`
/// of a name that it lacks, which is missing. It notes the name of each `begin`; where no memory is
/// found for one, it tells them no more.
#[derive(Drop)]
pub struct MemSource {
    files: Vec<File>,
    asked: Option<Vec<Str>>,
    alloc: Global,
    calls: Calls,
    begun: Option<usize>,
    at: usize,
    step: u32,
    faults: u64,
}

impl Model for MemSource {
    ghost use Rattle.std.specs.Prelude.{◌<◌};
    ghost use Rattle.std.specs.Option.{option_map};
    ghost use Rattle.memory_outside.specs.Memory.{SourceInMemory};
    ghost use Rattle.memory_outside.specs.Slots.{rest_of};

    ghost Value = { SourceInMemory };

    ghost view = { λ s. record {
      files = s.files.items;
      asked = option_map (λ names. names.items) s.asked;
      rest = rest_of s.files.items s.begun s.at;
      step = s.step;
      calls = s.calls;
      faults = s.faults;
    } };

    ghost invariant = { λ s. 0 < s.step };
}

impl MemSource {
    /// A source of these files, whose named calls are to fail. It takes no memory.
    pub fn new(alloc: Global, files: Pile<File>, fails: Pile<Fail>) -> Result<Self, AllocError>
        ensures { result ≡ Ok (source_of files fails (2 ^ 32 - 1)) }
    {
        MemSource::with_step(alloc, files, fails, u32::MAX)
    }

    /// The same, where a read gives so many bytes at most. It takes no memory.
    pub fn with_step(
        alloc: Global,
        files: Pile<File>,
        fails: Pile<Fail>,
        step: u32,
    ) -> Result<Self, AllocError>
        requires { 1 ≤ step }
        ensures { result ≡ Ok (source_of files fails step) }
    {
        Ok(MemSource {
            files: files.into_vec(),
            asked: Some(Vec::new(alloc)),
            alloc,
            calls: Calls::new(fails),
            begun: None,
            at: 0,
            step,
            faults: 0,
        })
    }

    /// The files.
    pub fn files(&self) -> &[File]
        ensures { result.now ≡ self.now.files }
    {
        &self.files
    }

    /// The names of all begins so far, in their order, while it tells them.
    pub fn asked(&self) -> Option<&[Str]>
        ensures { MatchOption result (self.now.asked ≡ None)
            (λ names. self.now.asked ≡ Some names.now) }
    {
        match &self.asked {
            Some(names) => Some(names.as_slice()),
            None => None,
        }
    }

    /// How many calls have failed.
    pub fn faults(&self) -> u64
        ensures { result ≡ self.now.faults }
    {
        self.faults
    }
}

impl Source for MemSource {
    ghost seen = { λ s. record { files = Some s.files; asked = s.asked; faults = s.faults } };

    ghost begun = { λ s. is_some s.rest };

    ghost rest = { λ s. unwrap_or s.rest [] };

    fn begin(&mut self, name: &str) -> Result<(), BeginFault>
        ensures files { Some self.new.files ≡ Some self.old.files }
        ensures asked { WhileTold self.old.asked self.new.asked
            (λ old new. new ≡ old ++ name.now ∷ []) }
        ensures begun { is_some self.new.rest ≡ is_ok result }
        ensures missing { IsErrOf result BeginFault.Missing ↔
            (bytes_of self.old.files name.now ≡ None) }
        ensures rest { OnOk result
            (bytes_of self.old.files name.now ≡ Some (unwrap_or self.new.rest [])) }
        ensures cause { HasBeginCause self.old.faults self.new.faults result }

        // It fails exactly where its list names the call and the file is there.
        ensures fails { IsErrOf result BeginFault.Failed ↔
            (IsTrue (fails_begin self.old.calls) × (bytes_of self.old.files name.now ≢ None)) }
        ensures counted { self.new.faults ≡ counted_begin result self.old.faults }
        ensures calls { self.new.calls ≡ with_begin self.old.calls }
        ensures step { self.new.step ≡ self.old.step }
    {
        let fails = self.calls.begin();
        self.asked = noted(self.alloc, self.asked.take(), name.as_bytes());
        self.begun = None;
        self.at = 0;
        let Some(place) = file_place(&self.files, name.as_bytes()) else {
            return Err(BeginFault::Missing);
        };
        if fails {
            failed(&mut self.faults);
            return Err(BeginFault::Failed);
        }
        self.begun = Some(place);
        Ok(())
    }

    fn read(&mut self, buf: &mut [u8]) -> Result<usize, Failed>
        requires begun { IsTrue (is_some self.old.rest) }
        requires room { 0 < length buf.old }
        ensures files { Some self.new.files ≡ Some self.old.files }
        ensures asked { self.new.asked ≡ self.old.asked }
        ensures begun { IsTrue (is_some self.new.rest) }
        ensures bound { IfOk result (λ n. n ≤ length buf.new) }
        ensures end { IfOk result (λ n. (n ≡ 0) ↔ (unwrap_or self.old.rest [] ≡ [])) }
        ensures bytes { IfOk result (λ n.
            unwrap_or self.old.rest [] ≡ take n buf.new ++ unwrap_or self.new.rest []) }
        ensures cause { HasCause self.old.faults self.new.faults result }

        // It fails exactly where its list names the call.
        ensures fails { IsErr result ↔ IsTrue (fails_call self.old.calls) }
        ensures counted { self.new.faults ≡ count_after result self.old.faults }
        ensures calls { self.new.calls ≡ with_call self.old.calls }

        // It gives its step at most.
        ensures steps { IfOk result (λ n. n ≤ self.old.step) }
        ensures step { self.new.step ≡ self.old.step }
    {
        if self.calls.call() {
            return Err(failed(&mut self.faults));
        }
        let Some(place) = self.begun else {
            return Ok(0);
        };
        let Some(file) = self.files.get(place) else {
            return Ok(0);
        };
        let bytes = file.bytes.as_bytes();
        if self.at >= bytes.len() {
            return Ok(0);
        }
        let n = copy_step(&bytes[self.at..], self.step, buf);
        self.at += n;
        Ok(n)
    }
}

// The names with one more, where they are told and memory is found for it.
fn noted(alloc: Global, names: Option<Vec<Str>>, name: &[u8]) -> Option<Vec<Str>>
    ensures { WhileTold (option_map (λ it. it.items) names) (option_map (λ it. it.items) result)
        (λ old new. new ≡ old ++ name.now ∷ []) }
{
    match names {
        Some(names) => with_name(alloc, names, name).ok(),
        None => None,
    }
}

fn with_name(alloc: Global, mut names: Vec<Str>, name: &[u8]) -> Result<Vec<Str>, AllocError>
    ensures { IfOk result (λ it. it.items ≡ names.items ++ name.now ∷ []) }
{
    names.push(Str::from_slice(alloc, name)?)?;
    Ok(names)
}

// The place of the first file of that name.
fn file_place(files: &[File], name: &[u8]) -> Option<usize>
    ensures { MatchOption result (bytes_of files.now name.now ≡ None)
        (λ k. bytes_of files.now name.now ≡ Some (bytes_at files.now k)) }
{
    for (k, file) in files.iter().enumerate() {
        if file.name.as_bytes() == name {
            return Some(k);
        }
    }
    None
}

// Copies the front of the bytes that are left to the buffer, as far as it goes, and a step at most.
fn copy_step(rest: &[u8], step: u32, buf: &mut [u8]) -> usize
    ensures front { take result buf.new ≡ take result rest.now }
    ensures bound { result ≤ length buf.old }
    ensures bytes { result ≤ length rest.now }
    ensures steps { result ≤ step }
    ensures some { 0 < step → 0 < length buf.old → 0 < length rest.now → 0 < result }
{
    let n = buf.len().min(rest.len()).min(step as usize);
    buf[..n].copy_from_slice(&rest[..n]);
    n
}

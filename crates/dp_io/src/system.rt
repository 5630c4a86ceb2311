//! The system's files and standard streams as sources and sinks. What the system does is outside of
//! what is proved: these tell nothing of the bytes, and count each fault.
ghost use Rattle.std.specs.Prelude.{◌≡◌, ◌≤◌, length, IfOk, None};

use crate::stream::{Failed, Sink, Source, fault};
use std::io::Read;
use std::marker::Model;
use std::rt::Files;
use std::{fs, io};

/// A source that opens its path at the first read; the path `-` is standard input. A read that can't
/// open it fails, and the next one tries again. Clauses see the count of its faults.
#[derive(Drop)]
pub struct LazyFile<'a, R: Files + Input> {
    rt: &'a R,
    path: &'a str,
    opened: Option<Opened<R>>,
    faults: u64,
}

/// What a path stands for, once it is open.
#[derive(Drop)]
enum Opened<R: Files + Input> {
    File(R::File),
    StandardInput(R::Reader),
}

impl<'a, R: Files + Input> Model for LazyFile<'a, R> {
    ghost use Rattle.std.specs.Prelude.{ℕ};

    ghost Value = { ℕ };

    ghost view = { λ s. s.faults };
}

impl<R: Files + Input> Opened<R> {
    fn open(rt: &R, path: &str) -> io::Result<Opened<R>> {
        match path {
            "-" => Ok(Opened::StandardInput(rt.reader())),
            _ => Ok(Opened::File(fs::open(rt, path)?)),
        }
    }

    fn read(&mut self, into: &mut [u8]) -> io::Result<usize>
        ensures { IfOk result (λ n. n ≤ length into.old) }
    {
        match self {
            Opened::File(file) => file.read(into),
            Opened::StandardInput(reader) => reader.read(into),
        }
    }
}

impl<'a, R: Files + Input> LazyFile<'a, R> {
    /// A source that hasn't opened its path yet, with no fault.
    pub fn new(rt: &'a R, path: &'a str) -> LazyFile<'a, R>
        ensures { result ≡ 0 }
    {
        LazyFile {
            rt,
            path,
            opened: None,
            faults: 0,
        }
    }

    fn read_system(&mut self, into: &mut [u8]) -> io::Result<usize>
        ensures within { IfOk result (λ n. n ≤ length into.old) }
        ensures faults { self.new ≡ self.old }
    {
        if let Some(opened) = &mut self.opened {
            return opened.read(into);
        }
        let mut opened = Opened::open(self.rt, self.path)?;
        let outcome = opened.read(into);
        self.opened = Some(opened);
        outcome
    }
}

impl<'a, R: Files + Input> Source for LazyFile<'a, R> {
    ghost left = { λ _. None };

    ghost faults = { λ faults. faults };

    /// Any error of the system at opening or reading is a fault, want of memory too.
    fn read(&mut self, into: &mut [u8]) -> Result<usize, Failed> {
        match self.read_system(into) {
            Ok(count) => Ok(count),
            Err(_) => Err(fault(&mut self.faults)),
        }
    }
}

/// Standard output. A write goes straight to the system, its bytes as they are. Clauses see the count
/// of its faults.
#[derive(Drop)]
pub struct StdOut<'a, R: Print> {
    rt: &'a R,
    faults: u64,
}

impl<'a, R: Print> Model for StdOut<'a, R> {
    ghost use Rattle.std.specs.Prelude.{ℕ};

    ghost Value = { ℕ };

    ghost view = { λ s. s.faults };
}

impl<'a, R: Print> StdOut<'a, R> {
    /// The sink, with no fault.
    pub fn new(rt: &'a R) -> StdOut<'a, R>
        ensures { result ≡ 0 }
    {
        StdOut { rt, faults: 0 }
    }
}

impl<'a, R: Print> Sink for StdOut<'a, R> {
    ghost taken = { λ _. None };

    ghost faults = { λ faults. faults };

    /// Any error of the system is a fault, and so is a write that takes no byte.
    fn write(&mut self, piece: &[u8]) -> Result<usize, Failed> {
        match self.rt.write_some(piece) {
            Ok(count) if count > 0 => Ok(count),
            _ => Err(fault(&mut self.faults)),
        }
    }
}

/// A runtime that writes bytes to standard error, which needn't be text.
pub trait ErrorOutput {
    /// Writes some of the bytes and answers how many, or fails and has written none.
    fn write_error(&self, bytes: &[u8]) -> io::Result<usize>
        ensures { IfOk result (λ n. n ≤ length bytes.now) };
}

impl ErrorOutput for HostRuntime {
    fn write_error(&self, bytes: &[u8]) -> io::Result<usize> {
        self.stderr().write_some(bytes)
    }
}

/// Standard error. A write goes straight to the system, its bytes as they are. Clauses see the count
/// of its faults.
#[derive(Drop)]
pub struct StdErr<'a, R: ErrorOutput> {
    rt: &'a R,
    faults: u64,
}

impl<'a, R: ErrorOutput> Model for StdErr<'a, R> {
    ghost use Rattle.std.specs.Prelude.{ℕ};

    ghost Value = { ℕ };

    ghost view = { λ s. s.faults };
}

impl<'a, R: ErrorOutput> StdErr<'a, R> {
    /// The sink, with no fault.
    pub fn new(rt: &'a R) -> StdErr<'a, R>
        ensures { result ≡ 0 }
    {
        StdErr { rt, faults: 0 }
    }
}

impl<'a, R: ErrorOutput> Sink for StdErr<'a, R> {
    ghost taken = { λ _. None };

    ghost faults = { λ faults. faults };

    /// Any error of the system is a fault, and so is a write that takes no byte.
    fn write(&mut self, piece: &[u8]) -> Result<usize, Failed> {
        match self.rt.write_error(piece) {
            Ok(count) if count > 0 => Ok(count),
            _ => Err(fault(&mut self.faults)),
        }
    }
}

//! The system's files, standard output and standard error. They tell nothing of content.

ghost use Rattle.std.specs.Prelude.{◌≡◌};

use crate::traits::{Failed, Files, Sink};
use std::fs::File;
use std::io::{Print, Read};
use std::rt;

/// The files of the system. The count of faults rises at each call that fails.
#[derive(Drop)]
pub struct StdFiles<R: rt::Files + Drop> {
    runtime: R,
    begun: Option<R::File>,
    faults: u64,
}

impl<R: rt::Files + Drop> StdFiles<R> {
    /// The files that this runtime reaches, none of which is begun.
    pub fn new(runtime: R) -> StdFiles<R>
        ensures { ⟦<StdFiles<R> as Files>⟧.faults result ≡ 0 }
    {
        StdFiles {
            runtime,
            begun: None,
            faults: 0,
        }
    }
}

impl<R: rt::Files + Drop> Files for StdFiles<R> {
    ghost use Rattle.std.specs.Prelude.{None, is_some};

    ghost told = { λ _. None };

    ghost left = { λ _. None };

    ghost begun = { λ f. is_some f.begun };

    ghost faults = { λ f. f.faults };

    fn begin(&mut self, name: &str) -> Result<(), Failed> {
        self.begun = File::open(&self.runtime, name).ok();
        if self.begun.is_none() {
            self.faults = self.faults.saturating_add(1);
            return Err(Failed);
        }
        Ok(())
    }

    fn read(&mut self, into: &mut [u8]) -> Result<usize, Failed> {
        let count = match &mut self.begun {
            Some(file) => file.read(into).ok(),
            None => None,
        };
        match count {
            Some(count) => Ok(count),
            None => {
                self.faults = self.faults.saturating_add(1);
                Err(Failed)
            }
        }
    }
}

/// A stream of the system, such as standard output. The count of faults rises at each call that fails.
#[derive(Drop)]
pub struct StdSink<P: Print + Drop> {
    stream: P,
    faults: u64,
}

impl<P: Print + Drop> StdSink<P> {
    /// A sink that writes to this stream.
    pub fn new(stream: P) -> StdSink<P>
        ensures { ⟦<StdSink<P> as Sink>⟧.faults result ≡ 0 }
    {
        StdSink { stream, faults: 0 }
    }
}

impl<P: Print + Drop> Sink for StdSink<P> {
    ghost use Rattle.std.specs.Prelude.{None};

    ghost written = { λ _. None };

    ghost faults = { λ s. s.faults };

    fn put(&mut self, piece: &[u8]) -> Result<usize, Failed> {
        match self.stream.write_some(piece) {
            Ok(count) if count > 0 || piece.is_empty() => Ok(count),
            _ => {
                self.faults = self.faults.saturating_add(1);
                Err(Failed)
            }
        }
    }
}

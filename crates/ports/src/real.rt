// Real files and the real output. Their bytes are not known to a contract.
ghost use Rattle.std.specs.Prelude.{◌≡◌, None, IfOk, OnErr, OnOk, length, ◌<◌, ◌≤◌};
ghost use Rattle.ports.specs.Faults.{raised};

use super::{Failed, Shelf, Sink};
use std::fs::{File, OpenOptions};
use std::io;
use std::io::Write;
use std::os::unix::fs::FileExt;

/// Files of the system, under their paths. One count of failed reads serves every name.
#[derive(Drop)]
pub struct RealShelf {
    rt: HostRuntime,
    read_faults: u64,
    write_faults: u64,
}

impl RealShelf {
    /// A shelf over the files that the process can reach, without a fault so far.
    pub fn new(rt: HostRuntime) -> RealShelf
        ensures reads { result.read_faults ≡ 0 }
        ensures writes { result.write_faults ≡ 0 }
    {
        RealShelf {
            rt,
            read_faults: 0,
            write_faults: 0,
        }
    }
}

fn read_at(rt: &HostRuntime, name: &str, from: u64, into: &mut [u8]) -> io::Result<usize>
    ensures { IfOk result (λ n. n ≤ length into.new) }
{
    let file = File::open(rt, name)?;
    file.read_at(into, from)
}

fn start_file(rt: &HostRuntime, name: &str) -> io::Result<()> {
    let _file = File::create(rt, name)?;
    Ok(())
}

fn append_to(rt: &HostRuntime, name: &str, bytes: &[u8]) -> io::Result<()> {
    let mut file = OpenOptions::new().append(true).create(true).open(rt, name)?;
    file.write_all(bytes)
}

impl Shelf for RealShelf {
    ghost held = { λ s. None };

    ghost read_faults = { λ s q. s.read_faults };

    ghost write_faults = { λ s. s.write_faults };

    ghost readable = { λ s q. ⊥ };

    ghost space = { λ s q. None };

    /// A fault is counted exactly where the read fails.
    fn read(&mut self, name: &str, from: u64, into: &mut [u8]) -> Result<usize, Failed>
        requires { 0 < length into.old }
        ensures within { IfOk result (λ n. n ≤ length into.new) }
        ensures uncounted { OnOk result (self.new.read_faults ≡ self.old.read_faults) }
        ensures rises { self.old.read_faults ≤ self.new.read_faults }
        ensures counted { OnErr result (self.new.read_faults ≡ raised self.old.read_faults) }
        ensures writes { self.new.write_faults ≡ self.old.write_faults }
    {
        match read_at(&self.rt, name, from, into) {
            Ok(n) => Ok(n),
            Err(_) => {
                self.read_faults = self.read_faults.saturating_add(1);
                Err(Failed)
            }
        }
    }

    /// A fault is counted exactly where the write fails.
    fn start(&mut self, name: &str) -> Result<(), Failed>
        ensures uncounted { OnOk result (self.new.write_faults ≡ self.old.write_faults) }
        ensures rises { self.old.write_faults ≤ self.new.write_faults }
        ensures counted { OnErr result (self.new.write_faults ≡ raised self.old.write_faults) }
        ensures reads { self.new.read_faults ≡ self.old.read_faults }
    {
        match start_file(&self.rt, name) {
            Ok(()) => Ok(()),
            Err(_) => {
                self.write_faults = self.write_faults.saturating_add(1);
                Err(Failed)
            }
        }
    }

    /// A fault is counted exactly where the write fails.
    fn append(&mut self, name: &str, bytes: &[u8]) -> Result<(), Failed>
        ensures uncounted { OnOk result (self.new.write_faults ≡ self.old.write_faults) }
        ensures rises { self.old.write_faults ≤ self.new.write_faults }
        ensures counted { OnErr result (self.new.write_faults ≡ raised self.old.write_faults) }
        ensures reads { self.new.read_faults ≡ self.old.read_faults }
    {
        match append_to(&self.rt, name, bytes) {
            Ok(()) => Ok(()),
            Err(_) => {
                self.write_faults = self.write_faults.saturating_add(1);
                Err(Failed)
            }
        }
    }
}

/// Standard output.
#[derive(Drop)]
pub struct RealSink {
    rt: HostRuntime,
    faults: u64,
}

impl RealSink {
    /// The process's standard output, without a fault so far. Each `put` is flushed.
    pub fn new(rt: HostRuntime) -> RealSink
        ensures { result.faults ≡ 0 }
    {
        RealSink { rt, faults: 0 }
    }
}

fn put_all(rt: &HostRuntime, bytes: &[u8]) -> io::Result<()> {
    let mut out = io::writer(rt);
    out.write_all(bytes)?;
    out.flush()
}

impl Sink for RealSink {
    ghost written = { λ s. None };

    ghost faults = { λ s. s.faults };

    ghost space = { λ s. None };

    /// A fault is counted exactly where the call fails.
    fn put(&mut self, bytes: &[u8]) -> Result<(), Failed>
        ensures uncounted { OnOk result (self.new.faults ≡ self.old.faults) }
        ensures rises { self.old.faults ≤ self.new.faults }
        ensures counted { OnErr result (self.new.faults ≡ raised self.old.faults) }
    {
        match put_all(&self.rt, bytes) {
            Ok(()) => Ok(()),
            Err(_) => {
                self.faults = self.faults.saturating_add(1);
                Err(Failed)
            }
        }
    }
}

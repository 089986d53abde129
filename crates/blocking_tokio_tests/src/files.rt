//! Files of the tests, each with a name of its own, and pools to lend them to.
use blocking::{Executor, FileJobs, Host, Unblock};
use std::env::Env;
use std::fs::{File, Files};
use std::path::PathBuf;
use std::{env, fs, io};

/// What a test asks of its runtime.
pub(crate) trait System: Host + Files<File = File> + Env {}

impl<H: Host + Files<File = File> + Env> System for H {}

/// A file that is lent.
pub(crate) type Lent<H> = Unblock<File, (), FileJobs<H>, H>;

/// A folder for files.
#[derive(Drop)]
pub(crate) struct Place<H: Host> {
    rt: H,
    folder: &'static str,
}

impl<H: System> Place<H> {
    pub(crate) fn new(rt: H, folder: &'static str) -> io::Result<Place<H>> {
        let mut path = env::temp_dir(&rt)?;
        path.push(folder)?;
        fs::create_dir_all(&rt, &path)?;
        Ok(Place { rt, folder })
    }

    fn path(&self, name: &str) -> io::Result<PathBuf> {
        let mut path = env::temp_dir(&self.rt)?;
        path.push(self.folder)?;
        path.push(name)?;
        Ok(path)
    }

    /// A pool of two workers.
    pub(crate) fn executor(&self) -> io::Result<Executor<FileJobs<H>, H>> {
        Ok(Executor::new(self.rt, Some("2"))?)
    }

    /// A new file.
    pub(crate) fn create(&self, name: &str) -> io::Result<File> {
        File::create(&self.rt, &self.path(name)?)
    }

    /// A file with these bytes.
    pub(crate) fn open(&self, name: &str, bytes: &[u8]) -> io::Result<File> {
        let path = self.path(name)?;
        fs::write(&self.rt, &path, bytes)?;
        File::open(&self.rt, &path)
    }

    /// What a file has now.
    pub(crate) fn bytes(&self, name: &str) -> io::Result<Vec<u8>> {
        fs::read(&self.rt, &self.path(name)?)
    }
}

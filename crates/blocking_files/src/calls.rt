//! The calls that a pool of files makes, one type for each type of answer.
use blocking::Call;
use std::fs::{Metadata, OpenOptions, ReadDir};
use std::io::ErrorKind;
use std::os::unix::fs::{MetadataExt, OpenOptionsExt, PermissionsExt};
use std::sync::Arc;
use std::{fs, io};

/// A file of the system as it is lent to a pool: its owner, and whoever asks the system of it, have a share each.
pub(crate) type Shared = Arc<fs::File>;

/// The call that opens a file.
#[derive(Drop)]
pub struct Open {
    pub(crate) system: HostRuntime,
    pub(crate) how: OpenOptions,
    pub(crate) path: String,
}

impl Call for Open {
    type Out = io::Result<Shared>;

    ghost may_give = { λ _. Unit {0} };

    fn call(self) -> io::Result<Shared> {
        let file = self.how.open(&self.system, self.path.as_str())?;
        Ok(Arc::new(self.system.alloc(), file)?)
    }
}

/// The call that opens what is to be copied, and what is to be the copy.
#[derive(Drop)]
pub struct OpenBoth {
    pub(crate) system: HostRuntime,
    pub(crate) from: String,
    pub(crate) to: String,
}

impl OpenBoth {
    // Whether what is to be the copy is the file that is to be copied. (to create it would empty it)
    fn is_same(&self, source: &Metadata) -> bool {
        match fs::metadata(&self.system, self.to.as_str()) {
            Ok(target) => (source.dev(), source.ino()) == (target.dev(), target.ino()),
            Err(_) => false,
        }
    }

    // Opens what is to be the copy, which is empty then. One that isn't there is made with the source's permissions at once, so that at no
    // moment more may read it.
    fn create(&self, source: &Metadata) -> io::Result<fs::File> {
        let mut how = OpenOptions::new();
        how.write(true).create(true).truncate(true);
        how.mode(source.permissions().mode());
        let copy = how.open(&self.system, self.to.as_str())?;
        if copy.metadata()?.is_file() {
            copy.set_permissions(source.permissions())?;
        }
        Ok(copy)
    }
}

impl Call for OpenBoth {
    type Out = io::Result<(Shared, Shared)>;

    ghost may_give = { λ _. Unit {0} };

    fn call(self) -> io::Result<(Shared, Shared)> {
        let alloc = self.system.alloc();
        let from = fs::File::open(&self.system, self.from.as_str())?;
        let source = from.metadata()?;
        if !source.is_file() {
            let message = "what is to be copied isn't a file";
            return Err(io::Error::new(ErrorKind::InvalidInput, message));
        }
        if self.is_same(&source) {
            let message = "a file isn't copied to itself";
            return Err(io::Error::new(ErrorKind::InvalidInput, message));
        }
        let to = self.create(&source)?;
        Ok((Arc::new(alloc, from)?, Arc::new(alloc, to)?))
    }
}

/// The call that reads a whole file.
#[derive(Drop)]
pub struct ReadBytes {
    pub(crate) system: HostRuntime,
    pub(crate) path: String,
}

impl Call for ReadBytes {
    type Out = io::Result<Vec<u8>>;

    ghost may_give = { λ _. Unit {0} };

    fn call(self) -> io::Result<Vec<u8>> {
        fs::read(&self.system, self.path.as_str())
    }
}

/// The call that reads a whole file of text.
#[derive(Drop)]
pub struct ReadText {
    pub(crate) system: HostRuntime,
    pub(crate) path: String,
}

impl Call for ReadText {
    type Out = io::Result<String>;

    ghost may_give = { λ _. Unit {0} };

    fn call(self) -> io::Result<String> {
        fs::read_to_string(&self.system, self.path.as_str())
    }
}

/// The call that changes what the system has, and gives nothing.
///
/// ```rust
/// fn remove<H: Host, J: Job + Carries<CallJob<Change, H>>>(
///     rt: H,
///     files: &Files<H, J>,
///     outer: Path<'_>,
/// ) -> io::Result<()> {
///     block_on(&rt, files.remove_dir_all(outer))?
/// }
/// ```
#[derive(Drop)]
pub struct Change {
    pub(crate) system: HostRuntime,
    pub(crate) what: Changes,
}

/// What a [`Change`] changes.
#[derive(Drop)]
pub enum Changes {
    /// A file of this path has these bytes alone.
    Write(String, Vec<u8>),
    /// What has the first path has the second one.
    Rename(String, String),
    /// There is a directory of this path; what it stands in is there.
    CreateDir(String),
    /// There is a directory of this path, and all that it stands in.
    CreateDirAll(String),
    /// The file of this path is gone.
    RemoveFile(String),
    /// The empty directory of this path is gone.
    RemoveDir(String),
    /// The directory of this path is gone, with all that is in it.
    RemoveDirAll(String),
    /// What is written to this file is on the disk, and so is what the system knows of it.
    SyncAll(Shared),
    /// What is written to this file is on the disk.
    SyncData(Shared),
    /// This file has so many bytes.
    SetLen(Shared, u64),
}

impl Call for Change {
    type Out = io::Result<()>;

    ghost may_give = { λ _. Unit {0} };

    fn call(self) -> io::Result<()> {
        let Change { system, what } = self;
        let system = &system;
        match what {
            Changes::Write(path, bytes) => fs::write(system, path, bytes),
            Changes::Rename(from, to) => fs::rename(system, from, to),
            Changes::CreateDir(path) => fs::create_dir(system, path),
            Changes::CreateDirAll(path) => fs::create_dir_all(system, path),
            Changes::RemoveFile(path) => fs::remove_file(system, path),
            Changes::RemoveDir(path) => fs::remove_dir(system, path),
            Changes::RemoveDirAll(path) => fs::remove_dir_all(system, path),
            Changes::SyncAll(file) => file.sync_all(),
            Changes::SyncData(file) => file.sync_data(),
            Changes::SetLen(file, size) => file.set_len(size),
        }
    }
}

/// The call that asks what the system knows of a file.
///
/// ```rust
/// fn look<H: Host, J: Job + Carries<CallJob<Look, H>>>(
///     rt: H,
///     files: &Files<H, J>,
///     link: Path<'_>,
/// ) -> io::Result<bool> {
///     Ok(block_on(&rt, files.metadata(link))??.is_dir())
/// }
/// ```
#[derive(Drop)]
pub struct Look {
    pub(crate) system: HostRuntime,
    pub(crate) what: LookAt,
}

/// What a [`Look`] looks at.
#[derive(Drop)]
pub enum LookAt {
    /// What has this path, behind all links.
    Path(String),
    /// What has this path, be it a link.
    Link(String),
    /// This file.
    File(Shared),
}

impl Call for Look {
    type Out = io::Result<Metadata>;

    ghost may_give = { λ _. Unit {0} };

    fn call(self) -> io::Result<Metadata> {
        let Look { system, what } = self;
        match what {
            LookAt::Path(path) => fs::metadata(&system, path),
            LookAt::Link(path) => fs::symlink_metadata(&system, path),
            LookAt::File(file) => file.metadata(),
        }
    }
}

/// The call that opens a directory.
#[derive(Drop)]
pub struct List {
    pub(crate) system: HostRuntime,
    pub(crate) path: String,
}

impl Call for List {
    // (in a box: what reads a directory holds its next names, 8192 bytes, and a job is moved as it is)
    type Out = io::Result<Box<ReadDir>>;

    ghost may_give = { λ _. Unit {0} };

    fn call(self) -> io::Result<Box<ReadDir>> {
        let entries = fs::read_dir(&self.system, self.path.as_str())?;
        Ok(Box::new(self.system.alloc(), entries)?)
    }
}

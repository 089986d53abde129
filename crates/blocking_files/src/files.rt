//! A pool for files.
ghost use Rattle.std.specs.Prelude.{◌≡◌, true, IfOk, IfErr, IfSome, IsErr, IsNone, IsSomeAnd};
ghost use Rattle.std.specs.Fs.{new_options, with_read, with_write, with_create, with_truncate};
ghost use Rattle.blocking_files.specs.Asked.{IsPath, IsWrite, IsRename, IsCreateDir, IsCreateDirAll, IsRemoveFile, IsRemoveDir, IsRemoveDirAll, IsPathLook, IsLinkLook};

use crate::calls::{Change, Changes, List, Look, LookAt, Open, OpenBoth, ReadBytes, ReadText};
use crate::copying::Copying;
use crate::entries::Listing;
use crate::job::FileJob;
use crate::opening::Opening;
use crate::task::FileTask;
use blocking::{Call, CallJob, Carries, Executor, Host, Job, Refusal, Runtime};
use std::alloc::{AllocError, Global};
use std::fs::OpenOptions;
use std::io;
use std::io::AsBytes;
use std::path::AsPath;

/// A pool for files: who has a share of it makes calls on paths, and opens files.
///
/// A call answers the error of std's function of that name, or a refusal of the pool as an error of the system.
///
/// `J` is the type of the pool's jobs. A program's own will do that carries what its calls ask for.
///
/// ```rust
/// let files = Files::new(rt, system, Some("4"))?;
/// block_on(&rt, files.write(&first, "oaks\n"))??;
/// let length = block_on(&rt, files.metadata(&first))??.len();
/// ```
pub struct Files<H: Runtime, J: Job = FileJob<H>> {
    executor: Executor<J, H>,
    // What the calls ask.
    system: HostRuntime,
}

// (as a derive has it; by hand it is proved here once, and not in each crate that drops one)
impl<H: Runtime, J: Job> Drop for Files<H, J> {
    fn drop(self) {
        let Files {
            executor,
            system: _,
        } = self;
        drop(executor);
    }
}

impl<H: Host> Files<H> {
    /// A pool whose threads are started by `rt`, and whose calls ask `system`. The setting is the text of a limit of its threads, as for any
    /// executor; None is the limit of 500.
    ///
    /// `Memory` where there was none for it, and `NoWorker` where a thread couldn't be had.
    ///
    /// ```rust
    /// let files = Files::new(rt, system, Some("4"))?;
    /// notes(rt, &files, folder)
    /// ```
    pub fn new(rt: H, system: HostRuntime, setting: Option<&str>) -> Result<Files<H>, Refusal>
        ensures { IfOk result (λ files. files.executor.client ≡ 0) }
    {
        let executor = Executor::new(rt, setting)?;
        Ok(Files { executor, system })
    }
}

impl<H: Runtime, J: Job> Files<H, J> {
    /// Files over a pool that is there, such as one that has other jobs, too. Their jobs are those of this share's client.
    ///
    /// ```rust
    /// let executor: Executor<FileJob<H>, H> = Executor::new(rt, Some("2"))?;
    /// let files = Files::over(executor, system);
    /// ```
    pub fn over(executor: Executor<J, H>, system: HostRuntime) -> Files<H, J>
        ensures { result.executor ≡ executor }
    {
        Files { executor, system }
    }

    /// One more share of the same pool, for the same client.
    ///
    /// ```rust
    /// let share = files.try_clone()?;
    /// open_and_use(rt, &share, path)
    /// ```
    pub fn try_clone(&self) -> Result<Files<H, J>, AllocError>
        ensures { IfOk result (λ share. share.executor.client ≡ self.now.executor.client) }
    {
        Ok(Files {
            executor: self.executor.try_clone()?,
            system: self.system,
        })
    }

    /// The pool, as what is set and asked of one takes it.
    ///
    /// ```rust
    /// set_max_blocking_threads(files.executor(), 1);
    /// ```
    pub fn executor(&self) -> &Executor<J, H>
        ensures { result.now ≡ self.now.executor }
    {
        &self.executor
    }

    pub(crate) fn alloc(&self) -> Global {
        self.system.alloc()
    }

    // A path, for a call.
    fn text<P: AsPath>(&self, path: &P) -> Result<String, AllocError>
        ensures { IfOk result (IsPath (P.path_text path.now)) }
    {
        String::from_str(self.system.alloc(), path.path_text())
    }

    // Has a call made, where there was memory for what it says.
    pub(crate) fn begin<F, T>(&self, call: Result<F, AllocError>) -> FileTask<F, H>
    where
        F: Call<Out = io::Result<T>> + Drop,
        T: Drop,
        J: Carries<CallJob<F, H>>,
        ensures asked { IfOk call (λ call. IsSomeAnd result.asked (λ asked. asked.value ≡ call)) }
        ensures refused { IfErr call (λ _. IsNone result.asked) }
        ensures answered { IsNone result.task → IsSomeAnd result.refused (λ answer. IsErr answer) }
        ensures client { IfSome result.task (λ task. task.job.client ≡ self.now.executor.client) }
    {
        FileTask::begin(&self.executor, call)
    }
}

// Files that are opened.
impl<H: Runtime, J: Job + Carries<CallJob<Open, H>>> Files<H, J> {
    /// Opens a file to be read.
    ///
    /// ```rust
    /// let mut file = block_on(&rt, files.open(path))??;
    /// let mut three = [0u8; 3];
    /// block_on(&rt, file.read_exact(&mut three))??;
    /// ```
    pub fn open<P: AsPath>(&self, path: P) -> Opening<H, J>
        ensures asked { IfSome result.task.asked (λ asked. IsPath (P.path_text path) asked.value.path
            × (asked.value.how ≡ with_read new_options true)) }
        ensures answered { IsNone result.task.task → IsSomeAnd result.task.refused (λ answer. IsErr answer) }
        ensures client { IfSome result.task.task (λ task. task.job.client ≡ self.now.executor.client) }
        ensures share { IfSome result.files (λ share. share.executor.client ≡ self.now.executor.client) }
    {
        let mut how = OpenOptions::new();
        how.read(true);
        self.open_with(how, path)
    }

    /// Opens a file to be written, which is empty then. One that isn't there is made.
    ///
    /// ```rust
    /// let mut file = block_on(&rt, files.create(path))??;
    /// block_on(&rt, file.write_all(b"pines "))??;
    /// block_on(&rt, file.sync_all())?
    /// ```
    pub fn create<P: AsPath>(&self, path: P) -> Opening<H, J>
        ensures asked { IfSome result.task.asked (λ asked. IsPath (P.path_text path) asked.value.path
            × (asked.value.how ≡ with_truncate (with_create (with_write new_options true) true) true)) }
        ensures answered { IsNone result.task.task → IsSomeAnd result.task.refused (λ answer. IsErr answer) }
        ensures client { IfSome result.task.task (λ task. task.job.client ≡ self.now.executor.client) }
        ensures share { IfSome result.files (λ share. share.executor.client ≡ self.now.executor.client) }
    {
        let mut how = OpenOptions::new();
        how.write(true).create(true).truncate(true);
        self.open_with(how, path)
    }

    /// Opens a file as the options say.
    ///
    /// ```rust
    /// let mut how = OpenOptions::new();
    /// how.read(true).write(true).create(true);
    /// let mut file = block_on(&rt, files.open_with(how, path))??;
    /// ```
    pub fn open_with<P: AsPath>(&self, how: OpenOptions, path: P) -> Opening<H, J>
        ensures asked { IfSome result.task.asked (λ asked. IsPath (P.path_text path) asked.value.path × (asked.value.how ≡ how)) }
        ensures answered { IsNone result.task.task → IsSomeAnd result.task.refused (λ answer. IsErr answer) }
        ensures client { IfSome result.task.task (λ task. task.job.client ≡ self.now.executor.client) }
        ensures share { IfSome result.files (λ share. share.executor.client ≡ self.now.executor.client) }
    {
        let system = self.system;
        let call = self.text(&path).map(|path| Open { system, how, path });
        Opening::new(self, call)
    }
}

// Files that are read at once.
impl<H: Runtime, J: Job> Files<H, J> {
    /// All bytes of a file.
    ///
    /// ```rust
    /// let bytes = block_on(&rt, files.read(path))??;
    /// ```
    pub fn read<P: AsPath>(&self, path: P) -> FileTask<ReadBytes, H>
    where
        J: Carries<CallJob<ReadBytes, H>>,
        ensures asked { IfSome result.asked (λ asked. IsPath (P.path_text path) asked.value.path) }
        ensures answered { IsNone result.task → IsSomeAnd result.refused (λ answer. IsErr answer) }
        ensures client { IfSome result.task (λ task. task.job.client ≡ self.now.executor.client) }
    {
        let system = self.system;
        self.begin(self.text(&path).map(|path| ReadBytes { system, path }))
    }

    /// All text of a file. Where it isn't UTF-8 the answer is an error of the kind `InvalidData`.
    ///
    /// ```rust
    /// let text = block_on(&rt, files.read_to_string(path))??;
    /// ```
    pub fn read_to_string<P: AsPath>(&self, path: P) -> FileTask<ReadText, H>
    where
        J: Carries<CallJob<ReadText, H>>,
        ensures asked { IfSome result.asked (λ asked. IsPath (P.path_text path) asked.value.path) }
        ensures answered { IsNone result.task → IsSomeAnd result.refused (λ answer. IsErr answer) }
        ensures client { IfSome result.task (λ task. task.job.client ≡ self.now.executor.client) }
    {
        let system = self.system;
        self.begin(self.text(&path).map(|path| ReadText { system, path }))
    }
}

// What the system knows of files.
impl<H: Runtime, J: Job + Carries<CallJob<Look, H>>> Files<H, J> {
    pub(crate) fn look(&self, what: Result<LookAt, AllocError>) -> FileTask<Look, H>
        ensures asked { IfOk what (λ what. IsSomeAnd result.asked (λ asked. asked.value.what ≡ what)) }
        ensures refused { IfErr what (λ _. IsNone result.asked) }
        ensures answered { IsNone result.task → IsSomeAnd result.refused (λ answer. IsErr answer) }
        ensures client { IfSome result.task (λ task. task.job.client ≡ self.now.executor.client) }
    {
        let system = self.system;
        self.begin(what.map(|what| Look { system, what }))
    }

    /// What the system knows of what has this path, behind all links.
    ///
    /// ```rust
    /// let length = block_on(&rt, files.metadata(path))??.len();
    /// ```
    pub fn metadata<P: AsPath>(&self, path: P) -> FileTask<Look, H>
        ensures asked { IfSome result.asked (λ asked. IsPathLook (P.path_text path) asked.value.what) }
        ensures answered { IsNone result.task → IsSomeAnd result.refused (λ answer. IsErr answer) }
        ensures client { IfSome result.task (λ task. task.job.client ≡ self.now.executor.client) }
    {
        self.look(self.text(&path).map(LookAt::Path))
    }

    /// What the system knows of what has this path, be it a link.
    ///
    /// ```rust
    /// let link_is = block_on(&rt, files.symlink_metadata(link))??.is_symlink();
    /// ```
    pub fn symlink_metadata<P: AsPath>(&self, path: P) -> FileTask<Look, H>
        ensures asked { IfSome result.asked (λ asked. IsLinkLook (P.path_text path) asked.value.what) }
        ensures answered { IsNone result.task → IsSomeAnd result.refused (λ answer. IsErr answer) }
        ensures client { IfSome result.task (λ task. task.job.client ≡ self.now.executor.client) }
    {
        self.look(self.text(&path).map(LookAt::Link))
    }
}

// What changes what the system has.
impl<H: Runtime, J: Job + Carries<CallJob<Change, H>>> Files<H, J> {
    pub(crate) fn change(&self, what: Result<Changes, AllocError>) -> FileTask<Change, H>
        ensures asked { IfOk what (λ what. IsSomeAnd result.asked (λ asked. asked.value.what ≡ what)) }
        ensures refused { IfErr what (λ _. IsNone result.asked) }
        ensures answered { IsNone result.task → IsSomeAnd result.refused (λ answer. IsErr answer) }
        ensures client { IfSome result.task (λ task. task.job.client ≡ self.now.executor.client) }
    {
        let system = self.system;
        self.begin(what.map(|what| Change { system, what }))
    }

    /// Has a file with these bytes alone, which are copied for that. One that isn't there is made. That they are written doesn't mean that the
    /// disk has them: [`File::sync_all`](crate::File::sync_all) has them there. Where it fails the file may have a part of them.
    ///
    /// ```rust
    /// block_on(&rt, files.write(path, "oaks"))??;
    /// ```
    pub fn write<P: AsPath, C: AsBytes + Drop>(&self, path: P, bytes: C) -> FileTask<Change, H>
        ensures asked { IfSome result.asked (λ asked. IsWrite (P.path_text path) (C.bytes bytes) asked.value.what) }
        ensures answered { IsNone result.task → IsSomeAnd result.refused (λ answer. IsErr answer) }
        ensures client { IfSome result.task (λ task. task.job.client ≡ self.now.executor.client) }
    {
        self.change(self.to_write(&path, &bytes))
    }

    fn to_write<P: AsPath, C: AsBytes>(&self, path: &P, bytes: &C) -> Result<Changes, AllocError>
        ensures { IfOk result (IsWrite (P.path_text path.now) (C.bytes bytes.now)) }
    {
        let path = self.text(path)?;
        let bytes = Vec::from_slice(self.system.alloc(), bytes.as_byte_slice())?;
        Ok(Changes::Write(path, bytes))
    }

    /// Has what has the first path have the second, in place of what had it. Both are in one file system.
    ///
    /// ```rust
    /// block_on(&rt, files.rename(path, other))??;
    /// ```
    pub fn rename<P: AsPath, Q: AsPath>(&self, from: P, to: Q) -> FileTask<Change, H>
        ensures asked { IfSome result.asked (λ asked. IsRename (P.path_text from) (Q.path_text to) asked.value.what) }
        ensures answered { IsNone result.task → IsSomeAnd result.refused (λ answer. IsErr answer) }
        ensures client { IfSome result.task (λ task. task.job.client ≡ self.now.executor.client) }
    {
        self.change(self.to_rename(&from, &to))
    }

    fn to_rename<P: AsPath, Q: AsPath>(&self, from: &P, to: &Q) -> Result<Changes, AllocError>
        ensures { IfOk result (IsRename (P.path_text from.now) (Q.path_text to.now)) }
    {
        Ok(Changes::Rename(self.text(from)?, self.text(to)?))
    }

    /// Makes a directory. What it is to stand in is there.
    ///
    /// ```rust
    /// block_on(&rt, files.create_dir(deep))??;
    /// ```
    pub fn create_dir<P: AsPath>(&self, path: P) -> FileTask<Change, H>
        ensures asked { IfSome result.asked (λ asked. IsCreateDir (P.path_text path) asked.value.what) }
        ensures answered { IsNone result.task → IsSomeAnd result.refused (λ answer. IsErr answer) }
        ensures client { IfSome result.task (λ task. task.job.client ≡ self.now.executor.client) }
    {
        self.change(self.text(&path).map(Changes::CreateDir))
    }

    /// Makes a directory, and all that it is to stand in. One that is there is left as it is. Where it fails, what was made is left.
    ///
    /// ```rust
    /// block_on(&rt, files.create_dir_all(folder))??;
    /// ```
    pub fn create_dir_all<P: AsPath>(&self, path: P) -> FileTask<Change, H>
        ensures asked { IfSome result.asked (λ asked. IsCreateDirAll (P.path_text path) asked.value.what) }
        ensures answered { IsNone result.task → IsSomeAnd result.refused (λ answer. IsErr answer) }
        ensures client { IfSome result.task (λ task. task.job.client ≡ self.now.executor.client) }
    {
        self.change(self.text(&path).map(Changes::CreateDirAll))
    }

    /// Removes a file, or a link.
    ///
    /// ```rust
    /// block_on(&rt, files.remove_file(other))??;
    /// ```
    pub fn remove_file<P: AsPath>(&self, path: P) -> FileTask<Change, H>
        ensures asked { IfSome result.asked (λ asked. IsRemoveFile (P.path_text path) asked.value.what) }
        ensures answered { IsNone result.task → IsSomeAnd result.refused (λ answer. IsErr answer) }
        ensures client { IfSome result.task (λ task. task.job.client ≡ self.now.executor.client) }
    {
        self.change(self.text(&path).map(Changes::RemoveFile))
    }

    /// Removes an empty directory.
    ///
    /// ```rust
    /// block_on(&rt, files.remove_dir(deep))??;
    /// ```
    pub fn remove_dir<P: AsPath>(&self, path: P) -> FileTask<Change, H>
        ensures asked { IfSome result.asked (λ asked. IsRemoveDir (P.path_text path) asked.value.what) }
        ensures answered { IsNone result.task → IsSomeAnd result.refused (λ answer. IsErr answer) }
        ensures client { IfSome result.task (λ task. task.job.client ≡ self.now.executor.client) }
    {
        self.change(self.text(&path).map(Changes::RemoveDir))
    }

    /// Removes a directory with all that is in it. It follows no link. Where it fails, a part of it may be gone.
    ///
    /// ```rust
    /// block_on(&rt, files.remove_dir_all(outer))??;
    /// ```
    pub fn remove_dir_all<P: AsPath>(&self, path: P) -> FileTask<Change, H>
        ensures asked { IfSome result.asked (λ asked. IsRemoveDirAll (P.path_text path) asked.value.what) }
        ensures answered { IsNone result.task → IsSomeAnd result.refused (λ answer. IsErr answer) }
        ensures client { IfSome result.task (λ task. task.job.client ≡ self.now.executor.client) }
    {
        self.change(self.text(&path).map(Changes::RemoveDirAll))
    }
}

// Directories that are read, and files that are copied.
impl<H: Runtime, J: Job> Files<H, J> {
    /// The entries of a directory, once it is opened.
    ///
    /// ```rust
    /// let mut entries = block_on(&rt, files.read_dir(folder))??;
    /// let next = block_on(&rt, entries.next())?;
    /// ```
    pub fn read_dir<P: AsPath>(&self, path: P) -> Listing<H, J>
    where
        J: Carries<CallJob<List, H>>,
        ensures asked { IfSome result.task.asked (λ asked. IsPath (P.path_text path) asked.value.path) }
        ensures answered { IsNone result.task.task → IsSomeAnd result.task.refused (λ answer. IsErr answer) }
        ensures client { IfSome result.task.task (λ task. task.job.client ≡ self.now.executor.client) }
        ensures share { IfSome result.files (λ share. share.executor.client ≡ self.now.executor.client) }
    {
        let system = self.system;
        let call = self.text(&path).map(|path| List { system, path });
        Listing::new(self, call)
    }

    /// Copies the bytes of a file to another, and its permissions. The other is empty before that, and one that isn't there is made. Where
    /// both are one file, or the first is none, the answer is an error of the kind `InvalidInput`, and all stays as it is. Once it is ready
    /// all is written and flushed, which doesn't mean that the disk has it. Where it fails, or its future is dropped, the other may have a
    /// part of the bytes.
    ///
    /// ```rust
    /// let copied = block_on(&rt, files.copy(from, to))??;
    /// ```
    pub fn copy<P: AsPath, Q: AsPath>(&self, from: P, to: Q) -> Copying<H, J>
    where
        J: Carries<CallJob<OpenBoth, H>>,
        ensures asked { IfSome result.task.asked (λ asked. IsPath (P.path_text from) asked.value.from
            × IsPath (Q.path_text to) asked.value.to) }
        ensures answered { IsNone result.task.task → IsSomeAnd result.task.refused (λ answer. IsErr answer) }
        ensures client { IfSome result.task.task (λ task. task.job.client ≡ self.now.executor.client) }
        ensures share { IfSome result.files (λ share. share.executor.client ≡ self.now.executor.client) }
    {
        Copying::new(self, self.to_copy(&from, &to))
    }

    fn to_copy<P: AsPath, Q: AsPath>(&self, from: &P, to: &Q) -> Result<OpenBoth, AllocError>
        ensures { IfOk result (λ call. IsPath (P.path_text from.now) call.from × IsPath (Q.path_text to.now) call.to) }
    {
        Ok(OpenBoth {
            system: self.system,
            from: self.text(from)?,
            to: self.text(to)?,
        })
    }
}

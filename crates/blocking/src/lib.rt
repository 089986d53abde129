//! A thread pool for calls that block, and for handles that do, as its users name it.
//!
//! An [`Executor`] has a queue of jobs, and workers that run them, each on a thread of its own. A queued job is ready, unless a limit for
//! each client is set and its client has as many running. Where a job enters or is taken while more are ready than five times the idle
//! workers, another worker is started, up to the limit. An idle worker stops where nothing is queued when it has waited for half a second,
//! or where there are more workers than the limit. A job keeps its worker while it has something to do. So at limit 1 a reader that never
//! has to wait lets no other job run.
//!
//! The limit is 500, or what a text says that the program hands in, such as the variable [`MAX_THREADS_ENV`] holds ([`max_threads`]); no
//! environment is read here. A thread that can't be had lowers it to the workers there are, until [`set_max_blocking_threads`] sets another.
//! Nothing here panics: where there is no memory or no worker a call answers so, and a call or a job that it refuses comes back. A job that is
//! woken is never refused. Where no worker is left then and no thread can be had, it stays queued until another call brings one.
//!
//! - **A call**: a type that implements [`Call`] says what to do, and [`unblock`] queues it at once, before any poll. Its [`Task`] is a
//!   future of the answer. A task that is dropped cancels the call, unless that is being made.
//! - **A file, or anything that is read**: [`Unblock::new`] lends it to the executor, and [`AsyncReadExt`] has its futures. A job reads ahead,
//!   so the handle itself is further than what was read. What was read ahead is lost where the handle is used otherwise (written, flushed,
//!   sought, taken back), and where its owner is dropped.
//! - **A log, or anything that is written**: the same with [`AsyncWriteExt`]. What a write took is written later; only a flush that is
//!   ready says that it was. What wasn't flushed may be lost. A flush doesn't mean that the disk has it.
//! - **A copy**: a [`Copier`] over both is ready once all that was read is written and flushed.
//!
//! The jobs of an executor are one type. Where it runs calls of one type alone that is [`CallJob`]; [`Jobs`] has a variant for each kind.
//!
//! A call, and a file that is read; `Double` is the example at [`Call`]:
//!
//! ```rust
//! let executor: Executor<CallJob<Double, H>, H> = Executor::new(rt, Some("8"))?;
//! let doubled = block_on(&rt, unblock(&executor, Double(21))?)?;
//!
//! let executor: Executor<ReadJob<File, H>, H> = Executor::new(rt, Some("1"))?;
//! let mut file: Reader<File, H> = Unblock::new(executor, file);
//! let count = block_on(&rt, file.read(&mut piece))??;
//! ```
//!
//! What the ends of a pipe answer is in [`pipe`], and what a pool does in [`pool`]. Owners that can't be closed are in `blocking_anytime`,
//! files over one pool in `blocking_files`.
#![tactic(auto)]

mod copy_jobs;
mod file_jobs;
mod jobs;
pub mod whole;

pub use blocking_core::io::Fault;
pub use blocking_core::limit::DEFAULT_MAX_THREADS;
pub use blocking_core::limit::MAX_MAX_THREADS;
pub use blocking_core::limit::MAX_THREADS_ENV;
pub use blocking_core::limit::MIN_MAX_THREADS;
pub use blocking_core::limit::max_threads;
pub use blocking_core::pipe;
pub use blocking_core::pipe::CopyStore;
pub use blocking_core::pipe::FlatMemory;
pub use blocking_core::pipe::FlatStore;
pub use blocking_core::pipe::LendingMemory;
pub use blocking_core::pipe::LendingStore;
pub use blocking_core::pipe::RingMemory;
pub use blocking_core::pipe::RingStore;
pub use blocking_core::pipe::Store;
pub use blocking_core::pool;
pub use blocking_core::pool::Carries;
pub use blocking_core::pool::Job;
pub use blocking_core::pool::JobNo;
pub use blocking_core::pool::JobStep;
pub use blocking_core::pool::Refusal;
pub use blocking_core::pool::Refused;
pub use blocking_core::pool::StartRefused;
pub use blocking_core::pool::Starter;
pub use blocking_core::pool::WakeNote;
pub use blocking_core::task::Call;
pub use blocking_core::task::CallOn;
pub use blocking_ends::AnyPlace;
pub use blocking_ends::Closed;
pub use blocking_ends::DrainEnd;
pub use blocking_ends::FillEnd;
pub use blocking_ends::ItemRecvEnd;
pub use blocking_ends::ItemSendEnd;
pub use blocking_ends::ItemSending;
pub use blocking_ends::JobSeated;
pub use blocking_ends::OwnerWaker;
pub use blocking_ends::PeekEnd;
pub use blocking_ends::PieceMemory;
pub use blocking_ends::PlaceRule;
pub use blocking_ends::RecvEnd;
pub use blocking_ends::SeenEnd;
pub use blocking_ends::SeenShut;
pub use blocking_ends::SendEnd;
pub use blocking_ends::ToldEnd;
pub use blocking_ends::WhyUnsent;
pub use blocking_ends::link;
pub use blocking_ends::link_drain;
pub use blocking_ends::link_in;
pub use blocking_ends::link_in_over;
pub use blocking_ends::link_items;
pub use blocking_ends::link_over;
pub use blocking_ends::unlink_drain;
pub use blocking_ends::unlink_in;
pub use blocking_executor::Added;
pub use blocking_executor::CallJob;
pub use blocking_executor::Cancel;
pub use blocking_executor::Counts;
pub use blocking_executor::Ended;
pub use blocking_executor::Executor;
pub use blocking_executor::Held;
pub use blocking_executor::Host;
pub use blocking_executor::Runtime;
pub use blocking_executor::Task;
pub use blocking_executor::ThreadStarter;
pub use blocking_executor::job;
pub use blocking_executor::set_client_limit;
pub use blocking_executor::set_max_blocking_threads;
pub use blocking_executor::task;
pub use blocking_executor::unblock;
pub use blocking_executor::unblock_for;
pub use blocking_io::AsyncRead;
pub use blocking_io::AsyncReadExt;
pub use blocking_io::AsyncSeek;
pub use blocking_io::AsyncSeekExt;
pub use blocking_io::AsyncWrite;
pub use blocking_io::AsyncWriteExt;
pub use blocking_io::Close;
pub use blocking_io::Copier;
pub use blocking_io::CopyFault;
pub use blocking_io::Flush;
pub use blocking_io::IoFault;
pub use blocking_io::ReadExact;
pub use blocking_io::ReadSome;
pub use blocking_io::ReadToEnd;
pub use blocking_io::SeekTo;
pub use blocking_io::WriteAll;
pub use blocking_io::WriteSome;
pub use blocking_unblock::IntoInner;
pub use blocking_unblock::Unblock;
pub use blocking_unblock::WithMut;
pub use blocking_unblock_jobs::ItemJob;
pub use blocking_unblock_jobs::OpJob;
pub use blocking_unblock_jobs::ReadJob;
pub use blocking_unblock_jobs::SeekJob;
pub use blocking_unblock_jobs::WriteJob;
pub use copy_jobs::CopyJobs;
pub use file_jobs::CallFileJobs;
pub use file_jobs::FileJobs;
pub use jobs::Items;
pub use jobs::Jobs;
pub use jobs::Reader;
pub use jobs::Unused;
pub use jobs::Writer;
pub use whole::call;
pub use whole::call_over;
pub use whole::copy;
pub use whole::copy_over;
pub use whole::read_all;
pub use whole::read_all_over;
pub use whole::write_all;
pub use whole::write_all_over;

//! Files over one pool: what would block is done by its threads, and awaited.
#![tactic(auto)]

mod calls;
mod changing;
mod copying;
mod entries;
mod file;
mod files;
mod job;
mod opening;
mod task;

pub use calls::{Change, Changes, List, Look, LookAt, Open, OpenBoth, ReadBytes, ReadText};
pub use changing::Changing;
pub use copying::Copying;
pub use entries::{Entries, Listing};
pub use file::File;
pub use files::Files;
pub use job::{CarriesFiles, FileJob};
pub use opening::Opening;
pub use task::FileTask;

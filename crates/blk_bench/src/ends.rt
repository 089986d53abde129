//! The benchmarks of pipes between two threads.
mod bytes;
mod items;

use crate::figures::{Figures, Request};
use blocking::Host;
use std::io;

/// What crosses.
#[derive(Clone, Copy)]
pub(crate) enum Ends {
    /// Bytes, which the owner fills in and the job peeks and consumes.
    Bytes,
    /// Numbers, which the job puts and the owner drains.
    Items,
}

impl Ends {
    pub(crate) fn name(self) -> &'static str {
        match self {
            Ends::Bytes => "ends_bytes",
            Ends::Items => "ends_items",
        }
    }

    pub(crate) fn unit(self) -> &'static str {
        match self {
            Ends::Bytes => "MB/s",
            Ends::Items => "ns/item",
        }
    }

    pub(crate) fn size(self) -> usize {
        match self {
            Ends::Bytes => 200_000_000,
            Ends::Items => 1_000_000,
        }
    }

    /// All bytes or items of the request from one thread to another, once cold and then as often as is asked.
    pub(crate) fn run<R: Host>(
        self,
        rt: HostRuntime,
        host: R,
        request: Request,
        figures: &mut Figures,
    ) -> io::Result<()> {
        match self {
            Ends::Bytes => bytes::run(rt, host, request, figures),
            Ends::Items => items::run(rt, host, request, figures),
        }
    }
}

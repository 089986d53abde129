//! The benchmarks by their names.
use crate::calls::Calls;
use crate::ends::Ends;
use crate::figures::{Figures, Request};
use crate::lent::Lent;
use crate::pipe;
use crate::reads::Reads;
use crate::sessions::Sessions;
use crate::writes::Writes;
use blocking::Host;
use std::io;

/// What is measured.
#[derive(Clone, Copy)]
pub(crate) enum Bench {
    Calls(Calls),
    Pipe,
    Ends(Ends),
    Reads(Reads),
    Writes(Writes),
    Sessions(Sessions),
    Lent(Lent),
}

impl Bench {
    pub(crate) const ALL: [Bench; 33] = [
        Bench::Calls(Calls::Roundtrip),
        Bench::Calls(Calls::RoundtripAwait),
        Bench::Calls(Calls::Burst),
        Bench::Calls(Calls::BurstLimited),
        Bench::Calls(Calls::Idle),
        Bench::Calls(Calls::ClientsBlocked),
        Bench::Calls(Calls::ClientsMany),
        Bench::Pipe,
        Bench::Ends(Ends::Bytes),
        Bench::Ends(Ends::Items),
        Bench::Reads(Reads::Short),
        Bench::Reads(Reads::ShortBy64K),
        Bench::Reads(Reads::ShortBy4K),
        Bench::Reads(Reads::Long),
        Bench::Reads(Reads::LongBy64K),
        Bench::Reads(Reads::LongBy4K),
        Bench::Reads(Reads::File),
        Bench::Writes(Writes::Short),
        Bench::Writes(Writes::ShortBy64K),
        Bench::Writes(Writes::ShortBy4K),
        Bench::Writes(Writes::Long),
        Bench::Writes(Writes::LongBy64K),
        Bench::Writes(Writes::LongBy4K),
        Bench::Writes(Writes::Growing),
        Bench::Sessions(Sessions::Writing),
        Bench::Sessions(Sessions::WritingBy64K),
        Bench::Sessions(Sessions::Reading),
        Bench::Lent(Lent::Short),
        Bench::Lent(Lent::ShortBy100),
        Bench::Lent(Lent::Long),
        Bench::Lent(Lent::LongBy100),
        Bench::Lent(Lent::Seeks),
        Bench::Lent(Lent::Operations),
    ];

    pub(crate) fn name(self) -> &'static str {
        match self {
            Bench::Calls(calls) => calls.name(),
            Bench::Pipe => "pipe",
            Bench::Ends(ends) => ends.name(),
            Bench::Reads(reads) => reads.name(),
            Bench::Writes(writes) => writes.name(),
            Bench::Sessions(sessions) => sessions.name(),
            Bench::Lent(lent) => lent.name(),
        }
    }

    pub(crate) fn by_name(name: &str) -> Option<Bench> {
        for bench in Bench::ALL {
            if bench.name() == name {
                return Some(bench);
            }
        }
        None
    }

    pub(crate) fn unit(self) -> &'static str {
        match self {
            Bench::Calls(calls) => calls.unit(),
            Bench::Pipe => "MB/s",
            Bench::Ends(ends) => ends.unit(),
            Bench::Reads(_) | Bench::Writes(_) => "MB/s",
            Bench::Sessions(_) => "ns/session",
            Bench::Lent(lent) => lent.unit(),
        }
    }

    pub(crate) fn size(self) -> usize {
        match self {
            Bench::Calls(calls) => calls.size(),
            Bench::Pipe => 200_000_000,
            Bench::Ends(ends) => ends.size(),
            Bench::Reads(reads) => reads.size(),
            Bench::Writes(writes) => writes.size(),
            Bench::Sessions(sessions) => sessions.size(),
            Bench::Lent(lent) => lent.size(),
        }
    }

    /// Does the work once cold and then as often as is asked. The limit of `burst_limited` comes with the setting.
    pub(crate) fn run<R: Host>(
        self,
        rt: HostRuntime,
        host: R,
        setting: Option<&str>,
        request: Request,
        figures: &mut Figures,
    ) -> io::Result<()> {
        match self {
            Bench::Calls(calls) => calls.run(rt, host, setting, request, figures),
            Bench::Pipe => pipe::run(rt, request, figures),
            Bench::Ends(ends) => ends.run(rt, host, request, figures),
            Bench::Reads(reads) => reads.run(rt, host, request, figures),
            Bench::Writes(writes) => writes.run(rt, host, request, figures),
            Bench::Sessions(sessions) => sessions.run(rt, host, request, figures),
            Bench::Lent(lent) => lent.run(rt, host, request, figures),
        }
    }
}

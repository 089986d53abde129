//! Measures what the crate `blocking` does, a name at a time: `blk_bench NAME [SIZE [REPS]]`.
//!
//! docs/PERFORMANCE.md says what each name measures. Without a name it prints the names that it knows.
#![tactic(auto)]

mod bench;
mod calls;
mod ends;
mod figures;
mod lent;
mod owner;
mod pipe;
mod reading;
mod reads;
mod sessions;
mod writes;
mod writing;

use crate::bench::Bench;
use crate::figures::{Figures, Request};
use blocking::Host;
use std::process::ExitCode;
use std::{env, io};

// The status for a name that isn't known.
const UNKNOWN: u8 = 3;

fn main(rt: HostRuntime) -> io::Result<ExitCode> {
    let mut words = env::args(&rt)?.skip(1);
    let (name, size, reps) = (words.next(), words.next(), words.next());
    drop(words);
    let Some(name) = name else {
        print_names(rt)?;
        return Ok(ExitCode::SUCCESS);
    };
    let Some(bench) = Bench::by_name(name.as_str()) else {
        return Ok(ExitCode::from(UNKNOWN));
    };
    let request = Request::new(
        size.as_ref().map(|word| word.as_str()),
        reps.as_ref().map(|word| word.as_str()),
        bench.size(),
    );
    measure(rt, rt, bench, request)?;
    Ok(ExitCode::SUCCESS)
}

fn print_names(rt: HostRuntime) -> io::Result<()> {
    for bench in Bench::ALL {
        println!(rt; "{}", bench.name())?;
    }
    Ok(())
}

// Does the work, and prints what it took.
fn measure<R: Host>(rt: HostRuntime, host: R, bench: Bench, request: Request) -> io::Result<()> {
    let setting = env::var(&rt, blocking_core::limit::MAX_THREADS_ENV).ok();
    let setting = setting.as_ref().map(|text| text.as_str());
    let mut figures = Figures::new(rt.alloc(), request.reps)?;
    bench.run(rt, host, setting, request, &mut figures)?;
    let size = request.size;
    println!(rt;
        "{} {} {} {figures} size={size}",
        bench.name(),
        figures.median(),
        bench.unit()
    )
}

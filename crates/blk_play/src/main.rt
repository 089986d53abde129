//! Plays scripts on real threads, and checks what an observer can see of them:
//!
//! - `blk_play` plays the script that it reads;
//! - `blk_play --draw SEED LINES WORKERS` plays one that it draws;
//! - `blk_play --show SEED LINES WORKERS` writes that.
//!
//! With `--seconds N` behind, a run ends after so many seconds at most.
#![tactic(auto)]

mod call;
mod called;
mod check;
mod copying;
mod desk;
mod draw;
mod gates;
mod handle;
mod line;
mod owned;
mod owner;
mod patience;
mod patterns;
mod plan;
mod player;
mod pool;
mod pool_stage;
mod rounds;
mod script;
mod shown;
mod stage;
mod system;
mod tasks;
mod track;
mod waiter;
mod words;
mod work;

use crate::draw::draw;
use crate::gates::Gates;
use crate::line::{COUNTED, GRANTED};
use crate::patience::Patience;
use crate::player::Player;
use crate::pool::{AllInside, Pool};
use crate::pool_stage::PoolStage;
use crate::script::{Script, read_script};
use crate::shown::Shown;
use crate::stage::{Stage, System};
use crate::system::Process;
use crate::words::number_of;
use crate::work::{Carrier, Work};
use blocking::{Executor, Host, Job, Runtime};
use std::io::Read;
use std::process::ExitCode;
use std::sync::Arc;
use std::sync::atomic::{AtomicBool, Ordering};
use std::time::Duration;
use std::{env, io, thread};

const USAGE: &str = "usage: blk_play [--draw|--show SEED LINES WORKERS] [--seconds N]";

// After how many seconds a run ends at most.
const SECONDS: u64 = 100;

// What a command line asks for.
#[derive(Clone, Copy)]
struct Request {
    drawn: Option<(u64, u64, u64)>,
    // Whether what is drawn is written, and not played.
    is_shown: bool,
    seconds: u64,
}

// The numbers of the next three words.
fn three_of(words: &[String]) -> Option<(u64, u64, u64)> {
    match words {
        [first, second, third] => Some((
            number_of(first.as_str())?,
            number_of(second.as_str())?,
            number_of(third.as_str())?,
        )),
        _ => None,
    }
}

fn request_of(words: &[String]) -> Option<Request> {
    let (words, seconds) = match words {
        [before @ .., flag, number] if flag.as_str() == "--seconds" => {
            (before, number_of(number.as_str())?)
        }
        _ => (words, SECONDS),
    };
    match words {
        [] => Some(Request {
            drawn: None,
            is_shown: false,
            seconds,
        }),
        [flag, numbers @ ..] => {
            let is_shown = flag.as_str() == "--show";
            if !is_shown && flag.as_str() != "--draw" {
                return None;
            }
            Some(Request {
                drawn: Some(three_of(numbers)?),
                is_shown,
                seconds,
            })
        }
    }
}

// Sets the flag once a run's time is over.
fn end_after<H: Host>(rt: H, is_over: Arc<AtomicBool>, seconds: u64) -> io::Result<()> {
    let watch = move || -> () {
        thread::sleep(&rt, Duration::from_secs(seconds));
        is_over.store(true, Ordering::SeqCst);
    };
    let _ = thread::spawn(&rt, watch)?;
    Ok(())
}

// Plays a script on a stage and returns the exit status.
fn play_on<S: Stage, Y: System>(
    stage: S,
    system: Y,
    gates: Arc<Gates>,
    patience: Patience,
    script: &Script,
) -> io::Result<u8> {
    Player::new(stage, system, gates, patience, script)?.play_all(script)
}

// Plays a script over a pool and returns the exit status. Any job type will do, which is cheaper to prove than one.
fn play_with<J: Carrier<H>, H: Runtime + Drop, Y: System>(
    executor: Executor<J, H>,
    (system, stages): (Y, Y),
    script: &Script,
    is_over: Arc<AtomicBool>,
) -> io::Result<u8> {
    let alloc = system.alloc();
    let gates = Arc::new(alloc, Gates::new(alloc, Arc::try_clone(&is_over)?)?)?;
    let inside = Arc::new(alloc, AllInside::new(alloc)?)?;
    let pool = Pool::new(executor, Arc::try_clone(&gates)?, inside);
    let stage = PoolStage::new(pool, stages, script.calls)?;
    play_on(stage, system, gates, Patience::new(is_over), script)
}

// Makes the script's executor. A counted one that is refused is made once more.
fn executor_for<J: Job + Send + 'static, H: Host, Y: System>(
    rt: H,
    system: &Y,
    script: &Script,
) -> io::Result<Option<Executor<J, H>>> {
    let setting = script.setting.as_ref().map(|text| text.as_str());
    if !script.is_pool_counted {
        return Ok(Executor::new(rt, setting).ok());
    }
    system.say(COUNTED)?;
    let made = Executor::new(rt, setting);
    system.say(GRANTED)?;
    match made {
        Ok(executor) => Ok(Some(executor)),
        Err(why) => {
            system.say(Shown::Refused(why))?;
            Ok(Executor::new(rt, setting).ok())
        }
    }
}

// Plays a script over a pool of its setting. The run ends after `seconds` at the latest.
fn play<H: Host, Y: System>(
    rt: H,
    systems: (Y, Y),
    script: &Script,
    seconds: u64,
) -> io::Result<u8> {
    let is_over = Arc::new(rt.alloc(), AtomicBool::new(false))?;
    end_after(rt, Arc::try_clone(&is_over)?, seconds)?;
    match executor_for::<Work<H>, H, Y>(rt, &systems.0, script) {
        Ok(Some(executor)) => play_with(executor, systems, script, is_over),
        Ok(None) => Ok(1),
        Err(error) => Err(error),
    }
}

// Reads a script and plays it. A line that isn't one is told.
fn play_text<H: Host + Print, Y: System>(
    rt: H,
    systems: (Y, Y),
    text: &str,
    seconds: u64,
) -> io::Result<u8> {
    match read_script(rt.alloc(), text) {
        Ok(script) => play(rt, systems, &script, seconds),
        // There was no memory for the script.
        Err(0) => Ok(1),
        Err(line) => {
            println!(rt; "line {line}: not a step")?;
            Ok(2)
        }
    }
}

// The text that is read, if it is one.
fn read_text<R: Read + Drop, H: Host>(rt: H, mut input: R) -> io::Result<Option<String>> {
    let mut bytes = Vec::new(rt.alloc());
    input.read_to_end(&mut bytes)?;
    Ok(String::from_utf8(bytes).ok())
}

fn main(rt: HostRuntime) -> io::Result<ExitCode> {
    let mut words = Vec::new(rt.alloc());
    for word in env::args(&rt)?.skip(1) {
        words.push(word)?;
    }
    let Some(request) = request_of(words.as_slice()) else {
        rt.eprintln(USAGE)?;
        return Ok(ExitCode::from(2));
    };
    let text = match request.drawn {
        Some((seed, lines, workers)) => Some(draw(rt.alloc(), seed, lines, workers)?),
        None => read_text(rt, rt.stdin())?,
    };
    let Some(text) = text else {
        rt.eprintln("blk_play: not a text")?;
        return Ok(ExitCode::from(2));
    };
    if request.is_shown {
        print!(rt; "{text}")?;
        return Ok(ExitCode::SUCCESS);
    }
    let systems = (Process::new(rt)?, Process::new(rt)?);
    let status = play_text(rt, systems, text.as_str(), request.seconds)?;
    Ok(ExitCode::from(status))
}

//! The texts of faults, what the fault of a job is to its owner, and what refusals and faults are as errors of the system.
use crate::stop::stop;
use blocking_core::io::{Fault, JobFault};
use blocking_core::pool::{Refusal, Refused};
use std::io;

// What a fault says.
const TEXTS: &[(Fault<u8>, &str)] = &[
    (Fault::Io(7), "7"),
    (Fault::WriteZero, "none of the bytes were taken"),
    (Fault::Refused(Refusal::Memory), "no memory"),
];

#[test]
fn faults_say_why(rt: HostRuntime) {
    for (line, (fault, text)) in TEXTS.iter().enumerate() {
        match format!(in rt.alloc(); "{fault}") {
            Ok(said) if said.as_str() == *text => {}
            Ok(_) | Err(_) => stop(&rt, "the text of a fault", line),
        }
    }
}

const TOLD: &[(JobFault<u8>, Fault<u8>)] = &[
    (JobFault::Io(7), Fault::Io(7)),
    (JobFault::WriteZero, Fault::WriteZero),
];

#[test]
fn faults_of_jobs_are_told(rt: HostRuntime) {
    for (line, (of_job, told)) in TOLD.iter().enumerate() {
        if Fault::from(*of_job) != *told {
            stop(&rt, "the fault of a job", line);
        }
    }
}

// The kind of each refusal as an error of the system, and what it says.
const REFUSALS: &[(Refusal, io::ErrorKind, &str)] = &[
    (Refusal::Memory, io::ErrorKind::OutOfMemory, "no memory"),
    (
        Refusal::NoWorker,
        io::ErrorKind::WouldBlock,
        "no worker could be started",
    ),
    (
        Refusal::Numbers,
        io::ErrorKind::Other,
        "the numbers are used up",
    ),
];

// A refused call, passed on by `?`.
fn pass_on(why: Refusal) -> io::Result<u8> {
    Err(Refused { back: 7u8, why })?;
    Ok(0)
}

#[test]
fn refusals_are_errors_of_the_system(rt: HostRuntime) {
    for (line, (why, kind, text)) in REFUSALS.iter().enumerate() {
        let error = io::Error::from(*why);
        match format!(in rt.alloc(); "{error}") {
            Ok(said) if said.as_str() == *text && error.kind() == *kind => {}
            Ok(_) | Err(_) => stop(&rt, "a refusal as an error of the system", line),
        }
        match pass_on(*why) {
            Err(error) if error.kind() == *kind => {}
            Ok(_) | Err(_) => stop(&rt, "a refused call as an error of the system", line),
        }
    }
}

// A fault of a handle, passed on by `?`.
fn fail(fault: Fault<io::Error>) -> io::Result<u8> {
    Err(fault)?;
    Ok(0)
}

#[test]
fn faults_are_errors_of_the_system(rt: HostRuntime) {
    let rows = [
        (
            Fault::Io(io::Error::from(io::ErrorKind::NotFound)),
            io::ErrorKind::NotFound,
        ),
        (Fault::WriteZero, io::ErrorKind::WriteZero),
        (Fault::Refused(Refusal::NoWorker), io::ErrorKind::WouldBlock),
    ];
    for (line, (fault, kind)) in rows.into_iter().enumerate() {
        match fail(fault) {
            Err(error) if error.kind() == kind => {}
            Ok(_) | Err(_) => stop(&rt, "a fault as an error of the system", line),
        }
    }
}

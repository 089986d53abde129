//! The limits that texts name, and the variable that holds such a text.
use crate::stop::stop;
use blocking_core::limit::{MAX_THREADS_ENV, max_threads};

const TEXTS: &[(&str, usize)] = &[
    ("100", 100),
    ("0", 1),
    ("50000", 10000),
    ("", 500),
    ("NOTINT", 500),
    ("10001", 10000),
    ("+7", 7),
    ("007", 7),
    ("-0", 500),
    ("+", 500),
    (" 7", 500),
    ("18446744073709551615", 10000),
    ("18446744073709551616", 500),
];

#[test]
fn texts_of_limits(rt: HostRuntime) {
    for (text, limit) in TEXTS {
        if max_threads(Some(text)) != *limit {
            stop(&rt, text, *limit);
        }
    }
    if max_threads(None) != 500 {
        stop(&rt, "no text", 500);
    }
}

#[test]
fn variable_has_its_name(rt: HostRuntime) {
    if MAX_THREADS_ENV != "BLOCKING_MAX_THREADS" {
        stop(&rt, MAX_THREADS_ENV, 0);
    }
}

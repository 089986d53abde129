//! Calls, and calls on a handle, each made by the bound through which a job makes it: here of closures that a program boxed.
use crate::stop::stop;
use blocking_core::task::{Call, CallOn};
use std::alloc::AllocError;

/// A boxed closure that answers a number.
#[derive(Drop)]
struct BoxedNumber {
    run: Box<dyn FnOnce() -> u64 + Send>,
    ghost ready: { pre run },
}

impl Call for BoxedNumber {
    type Out = u64;

    ghost may_give = { λ _. Unit {0} };

    fn call(self) -> u64 {
        let BoxedNumber { run } = self;
        run()
    }
}

/// A boxed closure that changes a number, and answers one.
#[derive(Drop)]
struct BoxedChange {
    run: Box<dyn FnMut(&mut u64) -> u64 + Send>,
    ghost ready: { IsAlwaysCallable run },
}

impl CallOn<u64> for BoxedChange {
    type Out = u64;

    ghost may_give = { λ _. Unit {0} };

    fn call_on(self, io: &mut u64) -> u64 {
        let BoxedChange { mut run } = self;
        run(io)
    }
}

fn make<F: Call>(call: F) -> F::Out
    ensures { F.may_give result }
{
    call.call()
}

fn make_on<T, F: CallOn<T>>(call: F, io: &mut T) -> F::Out
    ensures { F.may_give result }
{
    call.call_on(io)
}

#[test]
fn boxed_closure_is_a_call(rt: HostRuntime) -> Result<(), AllocError> {
    let number = 3u64;
    let run: Box<dyn FnOnce() -> u64 + Send> = Box::new(
        rt.alloc(),
        move || number.saturating_add(1),
    )?;
    if make(BoxedNumber { run }) != 4 {
        stop(&rt, "a boxed closure is called", 0);
    }
    Ok(())
}

#[test]
fn boxed_closure_is_a_call_on_a_handle(rt: HostRuntime) -> Result<(), AllocError> {
    let run: Box<dyn FnMut(&mut u64) -> u64 + Send> = Box::new(rt.alloc(), |n: &mut u64| {
        let before = *n;
        *n = before.saturating_add(3);
        before
    })?;
    let mut number = 7;
    if make_on(BoxedChange { run }, &mut number) != 7 {
        stop(&rt, "a boxed closure is called on a number", 0);
    }
    if number != 10 {
        stop(&rt, "a boxed closure is called on a number", 1);
    }
    Ok(())
}

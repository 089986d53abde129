//! The call that `blk call` makes, on the threads of a pool.
ghost use Rattle.std.specs.Prelude.{◌≡◌, ◌+◌, IfOk};

use crate::fault::BlkFault;
use blocking::{CallJob, Executor, Host, unblock};
use blocking_core::task::Call;
use futures::executor::block_on;

// The call that gives the number after this one.
#[derive(Clone, Copy, Debug)]
struct Successor(u32);

// A number, and the one after it.
#[derive(Clone, Copy, Debug)]
struct Succession {
    of: u32,
    next: u64,
}

impl Call for Successor {
    type Out = Succession;

    ghost may_give = { λ given. given.next ≡ given.of + 1 };

    fn call(self) -> Succession {
        Succession {
            of: self.0,
            next: u64::from(self.0) + 1,
        }
    }
}

/// The number after this one, by a call on a pool of its own with this setting.
///
/// It fails where the call is refused, and where it couldn't be awaited.
pub(crate) fn successor_of<R: Host>(
    rt: R,
    setting: Option<&str>,
    number: u32,
) -> Result<u64, BlkFault>
    ensures { IfOk result (λ answer. answer ≡ number + 1) }
{
    let executor: Executor<CallJob<Successor, R>, R> = Executor::new(rt, setting).map_err(
        BlkFault::Refused,
    )?;
    let task = unblock(&executor, Successor(number))?;
    let answer = block_on(&rt, task).map_err(|_| BlkFault::Running)?;
    // (A task promises an answer of its call's type, and the type alone doesn't say of which number.)
    if answer.of == number {
        Ok(answer.next)
    } else {
        Err(BlkFault::Running)
    }
}

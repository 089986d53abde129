//! What a call may give is known of what its task gave, through the lock between them.
ghost use Rattle.std.specs.Prelude.{◌≡◌, ◌+◌, false, IfOk};

use blocking::{CallJob, Executor, Host, Task, unblock};
use blocking_core::task::Call;
use futures::executor::block_on;
use std::io;
use std::test::Fail;

// A number and the one after it.
#[derive(Clone, Copy)]
struct Neighbours {
    number: u64,
    next: u64,
}

// Answers a number with the one after it.
#[derive(Clone, Copy)]
struct Pair(u32);

impl Call for Pair {
    type Out = Neighbours;

    ghost use Rattle.std.specs.Prelude.{◌≡◌, ◌+◌};

    ghost may_give = { λ out. out.next ≡ out.number + 1 };

    fn call(self) -> Neighbours {
        let number = u64::from(self.0);
        Neighbours {
            number,
            next: number + 1,
        }
    }
}

// Nothing is known here of the executor, of its workers or of the lock: only of which call the task is.
fn await_pair<H: Host>(rt: &H, task: Task<Pair, H>) -> io::Result<Neighbours>
    requires { task.is_taken ≡ false }
    ensures { IfOk result (λ pair. pair.next ≡ pair.number + 1) }
{
    block_on(rt, task)
}

// The number that such a call gives. (none where it is refused)
fn number<H: Host>(rt: &H) -> io::Result<Option<u64>> {
    let Ok(executor) = Executor::<CallJob<Pair, H>, H>::new(*rt, Some("1")) else {
        return Ok(None);
    };
    let Ok(task) = unblock(&executor, Pair(41)) else {
        return Ok(None);
    };
    Ok(Some(await_pair(rt, task)?.number))
}

#[test]
fn pair_is_known_of_the_answer(rt: HostRuntime) -> Result<(), Fail> {
    assert_eq!(rt; number(&rt)?, Some(41));
    Ok(())
}

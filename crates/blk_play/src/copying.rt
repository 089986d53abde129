//! Copiers over the owners of scripted handles.
use crate::owner::{Opened, why_of};
use crate::stage::{Copies, Copying};
use crate::work::Carrier;
use blocking::{AsyncRead, AsyncWrite, Copier, CopyFault, Job, Runtime};
use futures::Future;
use futures::task::Poll;
use futures::test::MockTask;

/// A copier over two such owners.
#[derive(Drop)]
pub(crate) struct Linked<J: Job, H: Runtime> {
    pub copier: Copier<Opened<J, H>, Opened<J, H>>,
}

// What one poll of a copier that isn't over shows, over any reader and writer.
fn polled<A: AsyncRead + Drop, B: AsyncWrite + Drop>(
    copier: &mut Copier<A, B>,
    task: &MockTask,
) -> (Copying, u64)
    requires { ⟦<Copier<A, B> as Future>⟧.can_poll copier.old }
{
    let copying = match task.poll(copier) {
        Poll::Pending => Copying::Waits,
        Poll::Ready(Ok(count)) => Copying::Copied(count),
        Poll::Ready(Err(CopyFault::Reading(fault))) => Copying::ReadFailed(why_of(&fault)),
        Poll::Ready(Err(CopyFault::Writing(fault))) => Copying::WriteFailed(why_of(&fault)),
    };
    (copying, copier.copied())
}

impl<J: Carrier<H>, H: Runtime + Drop> Copies for Linked<J, H> {
    fn poll(&mut self, task: &MockTask) -> (Copying, u64) {
        if self.copier.is_done() {
            return (Copying::Nothing, 0);
        }
        polled(&mut self.copier, task)
    }

    fn take_apart(self) {
        let (reader, writer) = self.copier.into_parts();
        drop(writer);
        drop(reader);
    }
}

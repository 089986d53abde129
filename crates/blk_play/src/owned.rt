//! An owner as a script has it, and what its lines show.
use crate::check::{Breach, Observer, Session, session_of};
use crate::desk::Desk;
use crate::line::OwnerLine;
use crate::patience::POLLS;
use crate::patterns::Order;
use crate::plan::Kind;
use crate::shown::{NOTHING, Shown, bytes_read};
use crate::stage::{Ask, Lasting, Owner, Reply, Why};
use futures::task::Poll;
use futures::test::MockTask;
use std::fmt::Write;
use std::io;
use std::sync::atomic::Ordering;

/// An owner, what it was told, and the task that polls it.
#[derive(Drop)]
pub(crate) struct Owned<O: Drop> {
    /// None once it was dropped, or is a copier's.
    pub owner: Option<O>,
    pub observer: Observer,
    pub waker: MockTask,
    /// The start of a read to the end that ran out of memory. The next such read goes on from there.
    pub rest_from: Option<usize>,
}

/// What is asked of an owner.
#[derive(Clone, Copy)]
pub(crate) enum OwnerAct<'a> {
    /// What a line shows.
    Play(&'a OwnerLine),
    /// What is wrong with it is noted, since its session was refused.
    CompareRefused,
}

/// What came of a poll.
pub(crate) fn shown(came: Poll<Reply>, room: &[u8]) -> Shown {
    match came {
        Poll::Pending => Shown::Waits,
        Poll::Ready(Reply::Read(count)) => bytes_read(room, count),
        Poll::Ready(Reply::Nothing) => NOTHING,
        Poll::Ready(reply) => Shown::Reply(reply),
    }
}

/// Shows the answer of an awaited poll.
pub(crate) fn answered(came: Poll<Reply>, room: &[u8]) -> Shown {
    match came {
        Poll::Pending => Shown::Word("no answer"),
        ready => shown(ready, room),
    }
}

/// The session that a future belongs to.
pub(crate) fn session_in(future: &Lasting) -> Session {
    match future {
        Lasting::Exact(_) | Lasting::Rest | Lasting::Read(_) => Session::Reads,
        _ => Session::Other,
    }
}

/// One of two words.
pub(crate) fn whether(is_so: bool, yes: &'static str, no: &'static str) -> Shown {
    Shown::Word(if is_so { yes } else { no })
}

impl<O: Owner> Owned<O> {
    /// Checks the laws before a poll.
    pub(crate) fn looks(&mut self, session: Session, desk: &mut Desk) {
        let is_idle = match &mut self.owner {
            Some(owner) => owner.place().is_some(),
            None => false,
        };
        desk.note(self.observer.looks(session, is_idle));
    }

    // One poll that reads behind so many bytes of the room.
    fn poll_at(
        &mut self,
        ask: &Ask,
        waker: Option<usize>,
        from: usize,
        desk: &mut Desk,
    ) -> Poll<Reply> {
        self.looks(session_of(ask), desk);
        if let Ask::Write(bytes) = ask {
            return self.write(bytes.as_slice(), waker, desk);
        }
        let Some(owner) = &mut self.owner else {
            return Poll::Ready(Reply::Nothing);
        };
        let task = waker.and_then(|number| desk.wakers.get(number));
        let end = match ask {
            Ask::Read(count) => from.saturating_add(*count),
            _ => from,
        };
        let Some(room) = desk.room.as_mut_slice().get_mut(from..end) else {
            return Poll::Ready(Reply::Nothing);
        };
        let came = owner.poll(task.unwrap_or(&self.waker), ask, room);
        let breach = match came {
            Poll::Ready(reply) => self.observer.answered(ask, reply, room),
            Poll::Pending => None,
        };
        desk.note(breach);
        came
    }

    fn poll(&mut self, ask: &Ask, waker: Option<usize>, desk: &mut Desk) -> Poll<Reply> {
        self.poll_at(ask, waker, 0, desk)
    }

    // One poll that is to take these bytes.
    fn write(&mut self, bytes: &[u8], waker: Option<usize>, desk: &mut Desk) -> Poll<Reply> {
        let Some(owner) = &mut self.owner else {
            return Poll::Ready(Reply::Nothing);
        };
        let task = waker.and_then(|number| desk.wakers.get(number));
        let came = owner.write(task.unwrap_or(&self.waker), bytes);
        match came {
            Poll::Ready(Reply::Wrote(count)) => {
                self.observer.wrote(bytes.get(..count).unwrap_or(&[]));
            }
            Poll::Ready(Reply::Failed(why)) => {
                self.observer.loses();
                desk.note(self.observer.failed(why));
            }
            _ => {}
        }
        came
    }

    fn is_woken(&self, desk: &Desk) -> bool {
        desk.patience.until(|| self.waker.is_woken())
    }

    // Polls again after each wake, until an answer comes.
    fn await_at(&mut self, ask: &Ask, from: usize, desk: &mut Desk) -> Poll<Reply> {
        for _ in 0..POLLS {
            let came = self.poll_at(ask, None, from, desk);
            if came.is_ready() || !self.is_woken(desk) {
                return came;
            }
        }
        Poll::Pending
    }

    fn awaits(&mut self, ask: &Ask, desk: &mut Desk) -> io::Result<Shown> {
        if let Ask::Operate(to) = ask {
            return self.finish(&Lasting::Jump(*to), desk);
        }
        let came = self.await_at(ask, 0, desk);
        Ok(answered(came, desk.room.as_slice()))
    }

    // Reads until so many bytes came, or something else.
    fn fill(&mut self, wanted: usize, desk: &mut Desk) -> Shown {
        let mut count = 0usize;
        for _ in 0..u64::MAX {
            let ask = Ask::Read(wanted.saturating_sub(count));
            match self.await_at(&ask, count, desk) {
                Poll::Ready(Reply::Read(more)) if more > 0 => {
                    count = count.saturating_add(more);
                    if count >= wanted {
                        break;
                    }
                }
                came if count == 0 => return answered(came, desk.room.as_slice()),
                _ => break,
            }
        }
        bytes_read(desk.room.as_slice(), count)
    }

    // Takes so many items; the first that isn't there is shown.
    fn fill_items(&mut self, wanted: usize, desk: &mut Desk) -> Shown {
        for _ in 0..wanted {
            match self.await_at(&Ask::Next, 0, desk) {
                Poll::Ready(Reply::Item(_)) => {}
                came => return answered(came, &[]),
            }
        }
        Shown::Number(wanted as u64, "items")
    }

    // Writes all, poll by poll.
    fn put(&mut self, bytes: &[u8], desk: &mut Desk) -> Shown {
        let mut taken = 0usize;
        for _ in 0..u64::MAX {
            let rest = bytes.get(taken..).unwrap_or(&[]);
            if rest.is_empty() {
                break;
            }
            self.looks(Session::Other, desk);
            match self.write(rest, None, desk) {
                Poll::Ready(Reply::Wrote(count)) if count > 0 => {
                    taken = taken.saturating_add(count);
                }
                Poll::Pending if self.is_woken(desk) => {}
                came => return answered(came, &[]),
            }
        }
        Shown::Number(taken as u64, "taken")
    }

    // Reads to the end by so many bytes, with the faults between. What came stands in the text, or is only counted where it is long.
    fn read_all(&mut self, by: usize, desk: &mut Desk) -> io::Result<Shown> {
        let mut places = Places::new();
        desk.text.clear();
        for _ in 0..u64::MAX {
            match self.await_at(&Ask::Read(by), 0, desk) {
                Poll::Ready(Reply::Read(0)) => break,
                Poll::Ready(Reply::Read(more)) => places.add_read(more, desk)?,
                Poll::Ready(Reply::Failed(_)) => desk.text.push_str("!")?,
                came => return Ok(answered(came, &[])),
            }
        }
        places.shown(desk)
    }

    fn all_items(&mut self, desk: &mut Desk) -> io::Result<Shown> {
        let mut places = Places::new();
        desk.text.clear();
        for _ in 0..u64::MAX {
            match self.await_at(&Ask::Next, 0, desk) {
                Poll::Ready(Reply::NoMore) => break,
                Poll::Ready(Reply::Item(item)) => {
                    if places.count < 16 {
                        let before = if places.count > 0 { " " } else { "" };
                        write!(desk.text, "{before}{item}")?;
                    }
                    places.add(item);
                }
                came => return Ok(answered(came, &[])),
            }
        }
        places.shown(desk)
    }

    // What a future answers that is polled until it does.
    fn finish(&mut self, future: &Lasting, desk: &mut Desk) -> io::Result<Shown> {
        self.looks(session_in(future), desk);
        let start = self.rest_from.take().unwrap_or(desk.whole.len());
        let came = {
            let Some(owner) = &mut self.owner else {
                return Ok(NOTHING);
            };
            let count = exact_of(future);
            let Some(room) = desk.room.as_mut_slice().get_mut(..count) else {
                return Ok(NOTHING);
            };
            owner.finish(&self.waker, &desk.patience, future, room, &mut desk.whole)
        };
        let Poll::Ready(reply) = came else {
            self.observer.is_left();
            return Ok(Shown::Word("no answer"));
        };
        let is_rest = matches!(future, Lasting::Rest);
        let came = desk.came(is_rest, start);
        let breach = self.compares(future, reply, came);
        let shown = match reply {
            Reply::Read(_) if is_rest => bytes_read(came, came.len()),
            Reply::Read(count) => bytes_read(came, count),
            Reply::Nothing => NOTHING,
            _ => Shown::Reply(reply),
        };
        desk.note(breach);
        self.rest_from = (is_rest && reply == Reply::Failed(Why::Memory)).then_some(start);
        match reply {
            Reply::Failed(Why::Memory | Why::Refused(_)) => Ok(shown),
            Reply::Failed(why) if is_rest => {
                behind(why, desk, start)?;
                Ok(Shown::Text)
            }
            _ => Ok(shown),
        }
    }

    /// Does what is asked, and returns what a line shows.
    pub(crate) fn act(&mut self, act: OwnerAct<'_>, desk: &mut Desk) -> io::Result<Shown> {
        match act {
            OwnerAct::Play(line) => self.play(line, desk),
            OwnerAct::CompareRefused => {
                self.compares_refused(desk)?;
                Ok(NOTHING)
            }
        }
    }

    // Checks an owner whose session was refused: it has its handle, and its text says so.
    fn compares_refused(&mut self, desk: &mut Desk) -> io::Result<()> {
        let Some(owner) = &mut self.owner else {
            return Ok(());
        };
        let Some(place) = owner.place() else {
            desk.note(Some("the handle of a refused session isn't with its owner"));
            return Ok(());
        };
        desk.text.clear();
        owner.say(&mut desk.text)?;
        let wanted = format!(in desk.alloc; "Unblock {{ io: {place} }}")?;
        let says_so = desk.text.as_str() == wanted.as_str();
        desk.note((!says_so).then_some("an owner whose session was refused says something else"));
        Ok(())
    }

    // Compares what a future did that read these bytes, if it read any.
    fn compares(&mut self, future: &Lasting, reply: Reply, came: &[u8]) -> Option<Breach> {
        match (future, reply) {
            (Lasting::Exact(count), Reply::Read(_)) => {
                self.observer.got(came.get(..*count).unwrap_or(&[]))
            }
            (Lasting::Rest, Reply::Read(_)) => self.observer.got(came),
            (Lasting::Rest, Reply::Failed(Why::Memory)) => None,
            (Lasting::Read(count), _) => {
                let ask = Ask::Read(*count);
                self.observer.answered(&ask, reply, came)
            }
            (Lasting::Whole(bytes), Reply::Done) => {
                self.observer.wrote(bytes.as_slice());
                None
            }
            (Lasting::Write(bytes), _) => self.is_written(bytes.as_slice(), reply),
            (Lasting::Flush, _) => self.observer.answered(&Ask::Flush, reply, came),
            (Lasting::Close, _) => self.observer.answered(&Ask::Close, reply, came),
            (Lasting::Jump(_) | Lasting::Seek(_), _) => None,
            _ => {
                self.observer.is_left();
                None
            }
        }
    }

    fn is_written(&mut self, bytes: &[u8], reply: Reply) -> Option<Breach> {
        match reply {
            Reply::Wrote(count) => {
                self.observer.wrote(bytes.get(..count).unwrap_or(&[]));
                None
            }
            Reply::Failed(why) => {
                self.observer.loses();
                self.observer.failed(why)
            }
            _ => None,
        }
    }

    // How often the handle was called, or whether that is within a range.
    fn calls(&self, kind: Option<Kind>, range: Option<(u64, u64)>) -> Shown {
        let track = &*self.observer.track;
        let calls = match kind {
            Some(kind) => track.calls(kind),
            None => track.all_calls(),
        };
        match range {
            Some((least, most)) if least <= calls && calls <= most => Shown::Word("calls"),
            _ => Shown::Number(calls, "calls"),
        }
    }

    // The bytes that the handle took.
    fn took(&self, desk: &mut Desk) -> io::Result<Shown> {
        let track = &*self.observer.track;
        let mut places = Places::new();
        desk.text.clear();
        for place in 0..track.took.len() {
            let Some(byte) = track.took.get(place) else {
                break;
            };
            if places.count < 64 {
                write!(desk.text, "{byte:02x}")?;
            }
            places.add(u64::from(byte));
        }
        // The handle compared the bytes that aren't logged.
        if track.is_out_of_order.load(Ordering::SeqCst) {
            places.are_in_cycle = false;
            places.are_counted = false;
        }
        places.count = track.took.len() as u64;
        places.shown(desk)
    }

    fn says(&self, desk: &mut Desk) -> io::Result<Shown> {
        desk.text.clear();
        match &self.owner {
            Some(owner) => {
                owner.say(&mut desk.text)?;
                Ok(Shown::Text)
            }
            None => Ok(NOTHING),
        }
    }

    fn set_client(&mut self, client: u32) -> Shown {
        match &mut self.owner {
            Some(owner) => {
                owner.set_client(client);
                Shown::Count("client", u64::from(client))
            }
            None => NOTHING,
        }
    }

    fn drop_owner(&mut self) -> Shown {
        match self.owner.take() {
            Some(_) => Shown::Word("dropped"),
            None => NOTHING,
        }
    }

    // What is seen of it from outside.
    fn seen(&self, line: &OwnerLine, desk: &mut Desk) -> io::Result<Shown> {
        let track = &*self.observer.track;
        Ok(match line {
            OwnerLine::Says => self.says(desk)?,
            OwnerLine::Gone => whether(track.gone() > 0, "gone", "there"),
            OwnerLine::SoonGone => {
                whether(desk.patience.until(|| track.gone() > 0), "gone", "there")
            }
            OwnerLine::Took => self.took(desk)?,
            OwnerLine::Most => Shown::Number(track.most.load(Ordering::SeqCst) as u64, "at most"),
            OwnerLine::Calls(kind, range) => self.calls(*kind, *range),
            OwnerLine::SoonWoken => whether(self.is_woken(desk), "woken", "asleep"),
            OwnerLine::Asleep => whether(self.waker.is_woken(), "woken", "asleep"),
            _ => NOTHING,
        })
    }

    // What a line shows.
    fn play(&mut self, line: &OwnerLine, desk: &mut Desk) -> io::Result<Shown> {
        Ok(match line {
            OwnerLine::Poll(ask, waker) => {
                let came = self.poll(ask, *waker, desk);
                shown(came, desk.room.as_slice())
            }
            OwnerLine::Await(ask) => self.awaits(ask, desk)?,
            OwnerLine::Fill(count, false) => self.fill(*count, desk),
            OwnerLine::Fill(count, true) => self.fill_items(*count, desk),
            OwnerLine::Put(bytes) => self.put(bytes.as_slice(), desk),
            OwnerLine::All(Some(by)) => self.read_all(*by, desk)?,
            OwnerLine::All(None) => self.all_items(desk)?,
            OwnerLine::Finish(future) => self.finish(future, desk)?,
            OwnerLine::Client(client) => self.set_client(*client),
            OwnerLine::Drop => self.drop_owner(),
            _ => self.seen(line, desk)?,
        })
    }
}

// Numbers that come one after another, and whether each is its place: modulo 251 or 256, or as it is.
#[derive(Drop)]
struct Places {
    count: u64,
    are_in_cycle: bool,
    are_counted: bool,
}

impl Places {
    fn new() -> Places {
        Places {
            count: 0,
            are_in_cycle: true,
            are_counted: true,
        }
    }

    fn add(&mut self, number: u64) {
        let place = self.count;
        self.are_in_cycle = self.are_in_cycle && number == place % 251;
        self.are_counted = self.are_counted && (number == place || number == place % 256);
        self.count = place.saturating_add(1);
    }

    // Adds bytes from the front of the desk's room, and writes those among the first 64.
    fn add_read(&mut self, count: usize, desk: &mut Desk) -> io::Result<()> {
        let more = 64usize.saturating_sub(usize::try_from(self.count).unwrap_or(64));
        for byte in desk.room.iter().take(count.min(more)) {
            let byte = *byte;
            write!(desk.text, "{byte:02x}")?;
        }
        let (place, came) = (self.count, desk.room.get(..count).unwrap_or(&[]));
        self.are_in_cycle = self.are_in_cycle && desk.patterns.are(Order::Cycle, place, came);
        self.are_counted = self.are_counted && desk.patterns.are(Order::Count, place, came);
        self.count = place.saturating_add(count as u64);
        Ok(())
    }

    // As a text where they are few, which stands on the desk.
    fn shown(self, desk: &mut Desk) -> io::Result<Shown> {
        let is_in_place = self.are_in_cycle || self.are_counted;
        if self.count == 0 && desk.text.is_empty() {
            desk.text.push_str("-")?;
        }
        if self.count <= 16 || self.count <= 64 && !is_in_place {
            return Ok(Shown::Text);
        }
        let word = if is_in_place { "in place" } else { "in all" };
        Ok(Shown::Number(self.count, word))
    }
}

/// How many bytes a future fills.
pub(crate) fn exact_of(future: &Lasting) -> usize {
    match future {
        Lasting::Exact(count) | Lasting::Read(count) => *count,
        _ => 0,
    }
}

// A fault, and what was read before it, as a text.
fn behind(why: Why, desk: &mut Desk, start: usize) -> io::Result<()> {
    desk.text.clear();
    write!(desk.text, "replied {why}")?;
    let bytes = desk.whole.get(start..).unwrap_or(&[]);
    if !bytes.is_empty() {
        desk.text.push_str(" behind ")?;
    }
    for byte in bytes.iter().take(64) {
        let byte = *byte;
        write!(desk.text, "{byte:02x}")?;
    }
    Ok(())
}

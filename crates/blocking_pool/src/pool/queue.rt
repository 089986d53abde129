//! The queue by clients: which queued place is the first whose client has room.
//!
//! While a client limit is set, a line for each client stands by the chain of all queued places: the client's queued places
//! in the order of the queue, linked by [`Spot::after`]. A heap has the head of each line whose client has room, by its
//! number of entry. So a take costs at most the logarithm of the clients that have queued jobs. Where no client limit is
//! set, no line is kept, and only the numbers of each client's jobs are.
ghost use Rattle.std.specs.Prelude.{◌≡◌, ◌+◌, ◌-◌, ◌<◌, ◌≤◌, ◌++◌, ◌∷◌, ◌==◌, ◌&&◌, if◌then◌else◌, [], ℕ, List, true, false, length, map, Some, None, OnOk, IsSome, IfSome, slice_set, IsPermutation};
ghost use Rattle.blocking_pool.specs.Lists.{is_in};
ghost use Rattle.blocking_pool.specs.Growth.{greatest};
ghost use Rattle.blocking_pool.specs.Clients.{tally_at, no_jobs, has_room_at, enrolled, stopped, discharged};
ghost use Rattle.blocking_pool.specs.ClientTable.{AreAll, as_known};
ghost use Rattle.blocking_pool.specs.Hangs.{one_if};
ghost use Rattle.blocking_pool.specs.Queue.{line_in, ready_in, has_seat, Widens, Tallied, Holds, TakesReady};
ghost use Rattle.blocking_pool.specs.QueueForm.{admits, number_by, Appends, longer, taken_from, head_of, ready_at, heads_of, ready_among, Fits, AreAnew, Renumbers, HaveNoLines, HaveLinesOf, AreHeld, SameCounts, LinesUp};
ghost use Rattle.blocking_pool.specs.declared.pool.clients.Client.{Client as State};

use crate::pool::chain::Chain;
use crate::pool::clients::{Client, Clients, Line, NO_LINE};
use crate::pool::heads::Heads;
use std::alloc::{AllocError, Global};
use std::collections::HashMap;
use std::marker::Model;

// What is known of a place that may stand in the queue. Its number and what comes after it are kept while a client limit
// is set.
#[derive(Clone, Copy)]
struct Spot {
    client: u32,
    // The number of its last entry: along the queue they rise.
    number: u64,
    // The place after it in its client's line.
    after: usize,
}

/// The queue, by clients.
#[derive(Drop)]
pub(crate) struct Queue {
    places: Chain,
    spots: Vec<Spot>,
    clients: Clients,
    // The heads of the lines whose client has room; none where no client limit is set.
    heads: Heads,
    limit: Option<usize>,
    // How many places are ready, while a client limit is set.
    ready: usize,
    next: u64,
}

impl Model for Queue {
    ghost use Rattle.std.specs.Prelude.{map, length, min, ◌-◌};
    ghost use Rattle.std.specs.FinMap.{len};
    ghost use Rattle.blocking_pool.specs.Queue.{Queue as Seen, queue_code};
    ghost use Rattle.blocking_pool.specs.QueueForm.{tallies_of, IsQueue};

    ghost Value = { Seen };

    ghost coded = { queue_code };

    ghost view = { λ q. record {
      places = q.places.places;
      owners = map (λ spot. spot.client) q.spots.items;
      tallies = tallies_of q.clients.known;
      limit = q.limit;
      spare = min q.clients.spare (q.heads.room - len q.clients.known);
    } };

    ghost invariant = { λ q. IsQueue q.places q.spots.items q.clients.known q.heads q.limit q.ready q.next };
}

// Whether a client of which so many jobs run is open: a limit is set, and one more may run.
fn is_open(limit: Option<usize>, running: usize) -> bool
    ensures { result ≡ admits limit running }
{
    match limit {
        None => false,
        Some(limit) => running < limit,
    }
}

// Puts a place at the end of a line.
fn append(spots: &mut [Spot], line: Line, place: usize, spot: Spot) -> Line
    requires place { place < length spots.old }
    requires last { 0 < line.len → line.last < length spots.old }
    requires few { line.len < greatest }
    ensures spots { Appends spots.old spots.new line place spot }
    ensures owners { map (λ s. s.client) spots.new ≡ slice_set (map (λ s. s.client) spots.old) place spot.client }
    ensures line { result ≡ longer line place }
{
    spots[place] = spot;
    if line.len == 0 {
        return Line {
            first: place,
            last: place,
            len: 1,
        };
    }
    spots[line.last].after = place;
    Line {
        first: line.first,
        last: place,
        len: line.len + 1,
    }
}

// A client whose first place is taken: one job more of it runs.
fn take_from(spots: &[Spot], client: Client) -> Client
    requires some { 0 < client.line.len }
    requires first { client.line.first < length spots.now }
    requires running { client.running < greatest }
    ensures { result ≡ taken_from spots.now client }
{
    let line = client.line;
    Client {
        line: Line {
            first: spots[line.first].after,
            last: line.last,
            len: line.len - 1,
        },
        jobs: client.jobs,
        running: client.running + 1,
    }
}

// Pushes the head of a client, where it is open and has a line. Tells how many of its places are ready.
fn admit(
    heads: &mut Heads,
    spots: &[Spot],
    limit: Option<usize>,
    name: u32,
    client: Client,
) -> usize
    requires first { 0 < client.line.len → client.line.first < length spots.now }
    requires room { length (head_of (number_by spots.now) limit name client) + length heads.old.heads ≤ heads.old.room }
    ensures heads { IsPermutation (head_of (number_by spots.now) limit name client ++ heads.old.heads) heads.new.heads }
    ensures kept { heads.old.room ≤ heads.new.room }
    ensures ready { result ≡ ready_at limit client }
{
    if !is_open(limit, client.running) || client.line.len == 0 {
        return 0;
    }
    heads.push(spots[client.line.first].number, name);
    client.line.len
}

// The same for each client whose name stands in these entries.
fn admit_named(
    heads: &mut Heads,
    spots: &[Spot],
    limit: Option<usize>,
    clients: &Clients,
    named: &HashMap<u32, Client>,
) -> usize
    requires fits { Fits spots.now limit (heads.old.room - length heads.old.heads) (as_known clients.now.known named.now.entries) }
    requires room { length heads.old.heads ≤ heads.old.room }
    ensures heads { IsPermutation (heads_of (number_by spots.now) limit (as_known clients.now.known named.now.entries) ++ heads.old.heads) heads.new.heads }
    ensures kept { heads.old.room ≤ heads.new.room }
    ensures ready { result ≡ ready_among limit (as_known clients.now.known named.now.entries) }
{
    let mut ready = 0;
    for (name, _) in named {
        ready += admit(heads, spots, limit, *name, clients.get(*name));
    }
    ready
}

// Makes the heads anew: those of all clients that are open and have a line. Tells how many places are ready.
fn heads_anew(heads: &mut Heads, spots: &[Spot], limit: Option<usize>, clients: &Clients) -> usize
    requires { (entries : List (ℕ × State)) → AreAll clients.now.known entries → Fits spots.now limit heads.old.room entries }
    ensures { AreAnew clients.now.known spots.now limit heads.old heads.new result }
{
    heads.clear();
    let ready = admit_named(heads, spots, limit, clients, clients.named());
    ready + admit(heads, spots, limit, 0, clients.get(0))
}

// Numbers the places of the queue from 0 on. Gives the number after the last.
fn number_anew(spots: &mut [Spot], places: &Chain) -> u64
    requires within { (place : ℕ) → is_in place places.now.places ≡ true → place < length spots.old }
    requires short { length spots.old ≤ greatest }
    ensures { Renumbers spots.old spots.new places.now.places result }
{
    let mut number = 0;
    let mut next = places.first();
    'places: while let Some(place) = next {
        spots[place].number = number;
        number += 1;
        next = places.after(place);
    }
    number
}

// Puts the places of the queue into the lines of their clients, which are empty, numbered from 0 on. Gives the number
// after the last.
fn line_up(spots: &mut [Spot], clients: &mut Clients, places: &Chain) -> u64
    requires empty { HaveNoLines clients.old.known }
    requires held { AreHeld spots.old clients.old.known places.now.places }
    requires within { (place : ℕ) → is_in place places.now.places ≡ true → place < length spots.old }
    requires short { length spots.old < greatest }
    ensures { LinesUp spots.old spots.new clients.old.known clients.new.known places.now.places result }
{
    let mut number = 0;
    let mut next = places.first();
    'places: while let Some(place) = next {
        let client = spots[place].client;
        let state = clients.get(client);
        let spot = Spot {
            client,
            number,
            after: place,
        };
        let line = append(spots, state.line, place, spot);
        clients.set(client, Client { line, ..state });
        number += 1;
        next = places.after(place);
    }
    number
}

// Empties the lines of the clients that have places in the queue.
fn clear_lines(spots: &[Spot], clients: &mut Clients, places: &Chain)
    requires owned { HaveLinesOf spots.now clients.old.known places.now.places }
    requires held { AreHeld spots.now clients.old.known places.now.places }
    requires within { (place : ℕ) → is_in place places.now.places ≡ true → place < length spots.now }
    ensures empty { HaveNoLines clients.new.known }
    ensures same { SameCounts clients.old.known clients.new.known }
{
    let mut next = places.first();
    'places: while let Some(place) = next {
        let client = spots[place].client;
        let state = clients.get(client);
        clients.set(
            client,
            Client {
                line: NO_LINE,
                ..state
            },
        );
        next = places.after(place);
    }
}

// Pushes the head of a client that is open and whose line begins with a new entry. Tells how many places more are ready.
fn admit_entry(heads: &mut Heads, may_run: bool, line: Line, name: u32, number: u64) -> usize
    requires { may_run ≡ true → line.len ≡ 0 → length heads.old.heads < heads.old.room }
    ensures heads { IsPermutation ((if may_run && (line.len == 0) then (number, name) ∷ [] else []) ++ heads.old.heads) heads.new.heads }
    ensures kept { heads.old.room ≤ heads.new.room }
    ensures ready { result ≡ one_if may_run }
{
    if !may_run {
        return 0;
    }
    if line.len == 0 {
        heads.push(number, name);
    }
    1
}

impl Queue {
    /// No place, no client, and no client limit. Takes no memory.
    pub(crate) fn new(alloc: Global) -> Self
        ensures places { result.places ≡ [] }
        ensures owners { result.owners ≡ [] }
        ensures tallies { (client : ℕ) → tally_at result.tallies client ≡ no_jobs }
        ensures limit { result.limit ≡ None }
    {
        Queue {
            places: Chain::new(alloc),
            spots: Vec::new(alloc),
            clients: Clients::new(alloc),
            heads: Heads::new(alloc),
            limit: None,
            ready: 0,
            next: 0,
        }
    }

    /// How many places are queued.
    pub(crate) fn len(&self) -> usize
        ensures { result ≡ length self.now.places }
    {
        self.places.len()
    }

    /// How many places are ready.
    pub(crate) fn ready_len(&self) -> usize
        ensures { result ≡ length (ready_in self.now) }
    {
        match self.limit {
            None => self.places.len(),
            Some(_) => self.ready,
        }
    }

    /// Whether one more job of the client may run.
    pub(crate) fn has_room(&self, client: u32) -> bool
        ensures { result ≡ has_room_at self.now.limit self.now.tallies client }
    {
        match self.limit {
            None => true,
            Some(limit) => self.clients.get(client).running < limit,
        }
    }

    /// The client limit, if one is set.
    pub(crate) fn limit(&self) -> Option<usize>
        ensures { result ≡ self.now.limit }
    {
        self.limit
    }

    /// Makes room for the places up to this one.
    #[inline(always)]
    pub(crate) fn make_room(&mut self, place: usize) -> Result<(), AllocError>
        ensures same { Widens self.old self.new }
        ensures room { OnOk result (place < length self.new.owners) }
    {
        if place < self.spots.len() {
            return Ok(());
        }
        self.widen(place)
    }

    // The same, where there is no room for this place yet.
    #[inline(never)]
    fn widen(&mut self, place: usize) -> Result<(), AllocError>
        ensures same { Widens self.old self.new }
        ensures room { OnOk result (place < length self.new.owners) }
    {
        let count = place.checked_add(1).ok_or(AllocError)?;
        self.places.make_room(place)?;
        self.heads.make_room(self.clients.len())?;
        if self.spots.len() < count {
            self.spots.resize(
                count,
                Spot {
                    client: 0,
                    number: 0,
                    after: 0,
                },
            )?;
        }
        Ok(())
    }

    /// Makes room for what is known of a client.
    #[inline(always)]
    pub(crate) fn make_seat(&mut self, client: u32) -> Result<(), AllocError>
        ensures same { Holds self.old self.new self.old.places self.old.owners }
        ensures room { OnOk result (has_seat self.new client ≡ true) }
    {
        if self.clients.knows(client) {
            return Ok(());
        }
        self.add_seat()
    }

    // Makes room for what is known of one client more.
    #[inline(never)]
    fn add_seat(&mut self) -> Result<(), AllocError>
        ensures same { Holds self.old self.new self.old.places self.old.owners }
        ensures room { OnOk result (0 < self.new.spare) }
    {
        self.clients.make_room()?;
        let count = self.clients.len().checked_add(1).ok_or(AllocError)?;
        self.heads.make_room(count)
    }

    /// A client has one job more.
    #[inline(always)]
    pub(crate) fn enroll(&mut self, client: u32)
        requires room { has_seat self.old client ≡ true }
        requires left { (tally_at self.old.tallies client).jobs < greatest }
        ensures { Tallied self.old self.new client enrolled }
    {
        self.clients.enroll(client);
    }

    /// A job of the client is over. With its last job all goes that is known of a client that is named.
    #[inline(always)]
    pub(crate) fn discharge(&mut self, client: u32)
        requires some { 0 < (tally_at self.old.tallies client).jobs }
        requires idle { (tally_at self.old.tallies client).jobs ≡ 1 → (tally_at self.old.tallies client).running ≡ 0 }
        requires none_queued { (tally_at self.old.tallies client).jobs ≡ 1 → line_in self.old client ≡ [] }
        ensures { Tallied self.old self.new client discharged }
    {
        if self.clients.is_last_job(client) {
            self.clients.forget(client);
            return;
        }
        self.clients.discharge(client);
    }

    /// Adds a place at the queue's end.
    #[inline(always)]
    pub(crate) fn enter(&mut self, place: usize, client: u32)
        requires room { place < length self.old.owners }
        requires client { 0 < (tally_at self.old.tallies client).jobs }
        requires fresh { is_in place self.old.places ≡ false }
        ensures { Holds self.old self.new (self.old.places ++ place ∷ []) (slice_set self.old.owners place client) }
    {
        match self.limit {
            None => {
                self.places.push_back(place);
                self.spots[place].client = client;
            }
            Some(_) => self.enter_line(place, client),
        }
    }

    // Adds a place at the queue's end and at that of its client's line, where a client limit is set.
    #[inline(never)]
    fn enter_line(&mut self, place: usize, client: u32)
        requires limit { IsSome self.old.limit }
        requires room { place < length self.old.owners }
        requires client { 0 < (tally_at self.old.tallies client).jobs }
        requires fresh { is_in place self.old.places ≡ false }
        ensures { Holds self.old self.new (self.old.places ++ place ∷ []) (slice_set self.old.owners place client) }
    {
        let number = self.next;
        let state = self.clients.get(client);
        let may_run = is_open(self.limit, state.running);
        self.places.push_back(place);
        let line = append(
            &mut self.spots,
            state.line,
            place,
            Spot {
                client,
                number,
                after: place,
            },
        );
        self.clients.set(client, Client { line, ..state });
        self.ready += admit_entry(&mut self.heads, may_run, state.line, client, number);
        self.next = number + 1;
        if self.next < u64::MAX {
            return;
        }
        self.next = number_anew(&mut self.spots, &self.places);
        self.ready = heads_anew(&mut self.heads, &self.spots, self.limit, &self.clients);
    }

    /// Takes the first ready place out; one job more of its client runs.
    #[inline(always)]
    pub(crate) fn take(&mut self) -> Option<usize>
        requires { (client : ℕ) → (tally_at self.old.tallies client).running < greatest }
        ensures { TakesReady self.old result self.new }
    {
        match self.limit {
            None => self.take_front(),
            Some(_) => self.take_head(),
        }
    }

    // Takes the front of the queue out, where no client limit is set.
    #[inline(always)]
    fn take_front(&mut self) -> Option<usize>
        requires limit { self.old.limit ≡ None }
        requires running { (client : ℕ) → (tally_at self.old.tallies client).running < greatest }
        ensures { TakesReady self.old result self.new }
    {
        let place = self.places.first()?;
        let client = self.spots[place].client;
        self.places.unlink(place);
        self.clients.start(client);
        Some(place)
    }

    // Takes the first place of the client out whose head is the first, where a client limit is set.
    #[inline(never)]
    fn take_head(&mut self) -> Option<usize>
        requires limit { IsSome self.old.limit }
        requires running { (client : ℕ) → (tally_at self.old.tallies client).running < greatest }
        ensures { TakesReady self.old result self.new }
    {
        let (_, client) = self.heads.pop()?;
        let state = self.clients.get(client);
        let place = state.line.first;
        let later = take_from(&self.spots, state);
        self.places.unlink(place);
        self.clients.set(client, later);
        self.ready -= state.line.len;
        self.ready += admit(&mut self.heads, &self.spots, self.limit, client, later);
        Some(place)
    }

    /// A job of the client runs no more.
    #[inline(always)]
    pub(crate) fn stop(&mut self, client: u32)
        requires { 0 < (tally_at self.old.tallies client).running }
        ensures { Tallied self.old self.new client stopped }
    {
        match self.limit {
            None => self.clients.stop(client),
            Some(_) => self.stop_limited(client),
        }
    }

    // The same, where a client limit is set: the client may have room now.
    #[inline(never)]
    fn stop_limited(&mut self, client: u32)
        requires limit { IsSome self.old.limit }
        requires running { 0 < (tally_at self.old.tallies client).running }
        ensures { Tallied self.old self.new client stopped }
    {
        let state = self.clients.get(client);
        let running = state.running - 1;
        let later = Client { running, ..state };
        self.clients.set(client, later);
        if is_open(self.limit, state.running) {
            return;
        }
        self.ready += admit(&mut self.heads, &self.spots, self.limit, client, later);
    }

    /// Sets the client limit, or sets none. Goes through the clients where a limit is to stand, and through the queue where one
    /// begins or goes.
    pub(crate) fn set_limit(&mut self, limit: Option<usize>)
        requires { IfSome limit (λ most. 0 < most) }
        ensures same { Holds self.old (record self.new { limit = self.old.limit }) self.old.places self.old.owners }
        ensures limit { self.new.limit ≡ limit }
    {
        let Some(most) = limit else {
            self.unset_limit();
            return;
        };
        match self.limit {
            None => self.begin_limit(most),
            Some(_) => self.change_limit(most),
        }
    }

    // Sets a client limit where none is set. The lines are made.
    fn begin_limit(&mut self, most: usize)
        requires { self.old.limit ≡ None }
        ensures same { Holds self.old (record self.new { limit = self.old.limit }) self.old.places self.old.owners }
        ensures limit { self.new.limit ≡ Some most }
    {
        self.next = line_up(&mut self.spots, &mut self.clients, &self.places);
        self.ready = heads_anew(&mut self.heads, &self.spots, Some(most), &self.clients);
        self.limit = Some(most);
    }

    // Sets another client limit.
    fn change_limit(&mut self, most: usize)
        requires { IsSome self.old.limit }
        ensures same { Holds self.old (record self.new { limit = self.old.limit }) self.old.places self.old.owners }
        ensures limit { self.new.limit ≡ Some most }
    {
        self.ready = heads_anew(&mut self.heads, &self.spots, Some(most), &self.clients);
        self.limit = Some(most);
    }

    // Sets no client limit. The lines go.
    fn unset_limit(&mut self)
        ensures same { Holds self.old (record self.new { limit = self.old.limit }) self.old.places self.old.owners }
        ensures limit { self.new.limit ≡ None }
    {
        if self.limit.is_none() {
            return;
        }
        clear_lines(&self.spots, &mut self.clients, &self.places);
        self.heads.clear();
        self.limit = None;
    }
}

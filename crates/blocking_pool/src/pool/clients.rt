//! What is known of the clients that have jobs.
ghost use Rattle.std.specs.Prelude.{◌≡◌, ◌≢◌, ◌<◌, ◌||◌, ◌&&◌, ◌==◌, not, ℕ, true, is_some, nat_lt, OnOk};
ghost use Rattle.std.specs.FinMap.{get, insert, len};
ghost use Rattle.blocking_pool.specs.Growth.{greatest};
ghost use Rattle.blocking_pool.specs.ClientTable.{client_at, no_client, with_job, without_job, with_running, without_running, Forgets, HasNames};

use std::alloc::{AllocError, Global};
use std::collections::HashMap;
use std::marker::Model;

/// A line of places, linked one after the other. Where it is empty, its ends mean nothing.
#[derive(Clone, Copy)]
pub(crate) struct Line {
    pub first: usize,
    pub last: usize,
    pub len: usize,
}

/// What is known of a client: its line of queued places, which is kept while a client limit is set, how many of its jobs
/// aren't over, and how many of these run.
#[derive(Clone, Copy)]
pub(crate) struct Client {
    pub line: Line,
    pub jobs: usize,
    pub running: usize,
}

/// A line that is empty.
pub(crate) const NO_LINE: Line = Line {
    first: 0,
    last: 0,
    len: 0,
};

// What is known of a client that has no job.
const NO_CLIENT: Client = Client {
    line: NO_LINE,
    jobs: 0,
    running: 0,
};

// A client that is named, and what is known of it. Where the name is 0 there is none.
#[derive(Clone, Copy)]
struct Named {
    name: u32,
    state: Client,
}

// No client that is named.
const NOBODY: Named = Named {
    name: 0,
    state: NO_CLIENT,
};

/// The clients that have jobs. Client 0, that of jobs for which none is named, is always known: it takes no memory and no
/// look-up. Nor does the named client that was set last: what the map has of it is written back once another is set.
#[derive(Drop)]
pub(crate) struct Clients {
    unnamed: Client,
    recent: Named,
    named: HashMap<u32, Client>,
}

impl Model for Clients {
    ghost use Rattle.std.specs.Prelude.{◌≡◌, ◌≢◌, ◌∷◌, nat_eq, None, IsSome};
    ghost use Rattle.std.specs.HashMap as hash;
    ghost use Rattle.std.specs.FinMap.{insert, from_entries};
    ghost use Rattle.blocking_pool.specs.ClientTable.{Clients as Seen, clients_code};

    ghost Value = { Seen };

    ghost coded = { clients_code };

    ghost view = { λ c. record {
      known = insert (from_entries ((c.recent.name, c.recent.state) ∷ c.named.entries)) 0 c.unnamed;
      spare = hash.spare c.named;
    } };

    // Client 0 isn't in the map, no client stands there twice, and the one that was set last does.
    ghost invariant = { λ c. (hash.get nat_eq c.named 0 ≡ None) × hash.IsUnique nat_eq c.named × (c.recent.name ≢ 0 → IsSome (hash.get nat_eq c.named c.recent.name)) };
}

impl Clients {
    /// Client 0 alone is known. Takes no memory.
    pub(crate) fn new(alloc: Global) -> Self
        ensures { (client : ℕ) → client_at result.known client ≡ no_client }
    {
        Clients {
            unnamed: NO_CLIENT,
            recent: NOBODY,
            named: HashMap::new(alloc),
        }
    }

    /// How many clients are known.
    pub(crate) fn len(&self) -> usize
        ensures { result ≡ len self.now.known }
    {
        self.named.len() + 1
    }

    /// Whether the client is known.
    #[inline(always)]
    pub(crate) fn knows(&self, client: u32) -> bool
        ensures { result ≡ is_some (get self.now.known client) }
    {
        if client == self.recent.name {
            return true;
        }
        client == 0 || self.named.contains_key(&client)
    }

    /// What is known of a client.
    #[inline(never)]
    pub(crate) fn get(&self, client: u32) -> Client
        ensures { result ≡ client_at self.now.known client }
    {
        if client == 0 {
            return self.unnamed;
        }
        if client == self.recent.name {
            return self.recent.state;
        }
        match self.named.get(&client) {
            Some(state) => *state,
            None => NO_CLIENT,
        }
    }

    /// The clients that are known, without client 0, by their names. (of one of them the map may have what was known before)
    pub(crate) fn named(&self) -> &HashMap<u32, Client>
        ensures { HasNames self.now.known result.now.entries }
    {
        &self.named
    }

    /// Makes room for one more client.
    pub(crate) fn make_room(&mut self) -> Result<(), AllocError>
        ensures known { self.new.known ≡ self.old.known }
        ensures room { OnOk result (0 < self.new.spare) }
    {
        self.named.reserve(1)
    }

    /// Sets what is known of a client.
    // (a function of its own, so that a call that names no client pays for no look-up: docs/DECISIONS.md)
    #[inline(never)]
    pub(crate) fn set(&mut self, client: u32, state: Client)
        requires { (is_some (get self.old.known client) || nat_lt 0 self.old.spare) ≡ true }
        ensures { self.new.known ≡ insert self.old.known client state }
    {
        if client == 0 {
            self.unnamed = state;
            return;
        }
        if client == self.recent.name {
            self.recent.state = state;
            return;
        }
        self.set_named(client, state);
    }

    // The same of a client that is named. What was known of the one that was set last is written back.
    fn set_named(&mut self, client: u32, state: Client)
        requires named { client ≢ 0 }
        requires seat { (is_some (get self.old.known client) || nat_lt 0 self.old.spare) ≡ true }
        ensures { self.new.known ≡ insert self.old.known client state }
    {
        let Ok(_) = self.named.insert(client, state) else {
            unreachable!()
        };
        let last = self.recent;
        self.recent = Named {
            name: client,
            state,
        };
        if last.name == 0 {
            return;
        }
        let Ok(_) = self.named.insert(last.name, last.state) else {
            unreachable!()
        };
    }

    /// A client has one job more.
    #[inline(always)]
    pub(crate) fn enroll(&mut self, client: u32)
        requires seat { (is_some (get self.old.known client) || nat_lt 0 self.old.spare) ≡ true }
        requires left { (client_at self.old.known client).jobs < greatest }
        ensures { self.new.known ≡ insert self.old.known client (with_job (client_at self.old.known client)) }
    {
        if client == 0 {
            self.unnamed.jobs += 1;
            return;
        }
        let state = self.get(client);
        let jobs = state.jobs + 1;
        self.set(client, Client { jobs, ..state });
    }

    /// A client has one job fewer.
    #[inline(always)]
    pub(crate) fn discharge(&mut self, client: u32)
        requires { 0 < (client_at self.old.known client).jobs }
        ensures { self.new.known ≡ insert self.old.known client (without_job (client_at self.old.known client)) }
    {
        if client == 0 {
            self.unnamed.jobs -= 1;
            return;
        }
        let state = self.get(client);
        let jobs = state.jobs - 1;
        self.set(client, Client { jobs, ..state });
    }

    /// One job more of a client runs.
    #[inline(always)]
    pub(crate) fn start(&mut self, client: u32)
        requires some { 0 < (client_at self.old.known client).jobs }
        requires left { (client_at self.old.known client).running < greatest }
        ensures { self.new.known ≡ insert self.old.known client (with_running (client_at self.old.known client)) }
    {
        if client == 0 {
            self.unnamed.running += 1;
            return;
        }
        let state = self.get(client);
        let running = state.running + 1;
        self.set(client, Client { running, ..state });
    }

    /// One job fewer of a client runs.
    #[inline(always)]
    pub(crate) fn stop(&mut self, client: u32)
        requires { 0 < (client_at self.old.known client).running }
        ensures { self.new.known ≡ insert self.old.known client (without_running (client_at self.old.known client)) }
    {
        if client == 0 {
            self.unnamed.running -= 1;
            return;
        }
        let state = self.get(client);
        let running = state.running - 1;
        self.set(client, Client { running, ..state });
    }

    /// Whether the client goes once one more of its jobs is over: it is named, and has one job.
    #[inline(always)]
    pub(crate) fn is_last_job(&self, client: u32) -> bool
        ensures { result ≡ (not (client == 0) && ((client_at self.now.known client).jobs == 1)) }
    {
        client != 0 && self.get(client).jobs == 1
    }

    /// Forgets a client that is named.
    #[inline(never)]
    pub(crate) fn forget(&mut self, client: u32)
        requires { client ≢ 0 }
        ensures { Forgets self.old self.new client }
    {
        self.named.remove(&client);
        if client != self.recent.name {
            return;
        }
        self.recent = NOBODY;
    }
}

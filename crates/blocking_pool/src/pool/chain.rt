//! A list of places in which a place is added at the end and taken out anywhere, each at the same cost.
ghost use Rattle.std.specs.Prelude.{◌≡◌, ◌+◌, ◌-◌, ◌<◌, ◌≤◌, ◌++◌, ◌∷◌, [], true, false, length, vec_len, is_some, IfSome, max, OnOk, OnErr, slice_index_or};
ghost use Rattle.blocking_pool.specs.Lists.{is_in, without, first_of, rest_after, IsOnce};
ghost use Rattle.blocking_pool.specs.Rings.{node_after, node_before, Joins, IsInserted};

use std::alloc::{AllocError, Global};
use std::marker::Model;

// The neighbours of a node in the ring.
#[derive(Clone, Copy)]
struct Link {
    before: usize,
    after: usize,
}

// Node 0, at which the ring begins and ends.
const ENDS: usize = 0;

/// Places in a row. The links of a place stand next to each other in one block, whose room is made in advance.
#[derive(Drop)]
pub(crate) struct Chain {
    // A ring: node 0 is its beginning and its end, and place p has the node p + 1.
    links: Vec<Link>,
    len: usize,
}

impl Model for Chain {
    ghost use Rattle.std.specs.Prelude.{◌-◌, length};
    ghost use Rattle.blocking_pool.specs.Chain.{Chain as Row};

    ghost Value = { Row };

    ghost use Rattle.blocking_pool.specs.Rings.{walk, IsRing};

    ghost view = { λ c. record {
      places = walk c.links.items c.len 0;
      room = length c.links.items - 1;
    } };

    ghost invariant = { λ c. IsRing c.links.items c.len };
}

// Lets one node follow another.
fn join(links: &mut [Link], before: usize, after: usize)
    requires before { before < length links.old }
    requires after { after < length links.old }
    ensures { Joins links.old links.new before after }
{
    links[before].after = after;
    links[after].before = before;
}

// Puts a node between the last one and the end.
fn insert_last(links: &mut [Link], node: usize)
    requires node { node < length links.old }
    requires last { node_before links.old ENDS < length links.old }
    ensures { IsInserted links.old links.new node }
{
    let last = links[ENDS].before;
    join(links, last, node);
    join(links, node, ENDS);
}

// Lets the neighbours of a node follow one another.
fn remove(links: &mut [Link], node: usize)
    requires node { node < length links.old }
    requires before { node_before links.old node < length links.old }
    requires after { node_after links.old node < length links.old }
    ensures { Joins links.old links.new (node_before links.old node) (node_after links.old node) }
{
    let Link { before, after } = links[node];
    join(links, before, after);
}

impl Chain {
    /// No place, and no room yet: this takes no memory.
    pub(crate) fn new(alloc: Global) -> Self
        ensures { result ≡ record { places = []; room = 0 } }
    {
        Chain {
            links: Vec::new(alloc),
            len: 0,
        }
    }

    /// How many places stand in the row.
    pub(crate) fn len(&self) -> usize
        ensures { result ≡ length self.now.places }
    {
        self.len
    }

    /// Makes room for this place, so that it may be added later without any memory.
    pub(crate) fn make_room(&mut self, place: usize) -> Result<(), AllocError>
        ensures places { self.new.places ≡ self.old.places }
        ensures kept { self.old.room ≤ self.new.room }
        ensures most { self.new.room ≤ max self.old.room (place + 1) }
        ensures room { OnOk result (place < self.new.room) }
    {
        let wanted = place.checked_add(2).ok_or(AllocError)?;
        if self.links.len() < wanted {
            let loose = Link {
                before: ENDS,
                after: ENDS,
            };
            self.links.resize(wanted, loose)?;
        }
        Ok(())
    }

    /// Adds a place at the end.
    pub(crate) fn push_back(&mut self, place: usize)
        requires room { place < self.old.room }
        requires fresh { is_in place self.old.places ≡ false }
        ensures { self.new ≡ record self.old { places = self.old.places ++ place ∷ [] } }
    {
        insert_last(&mut self.links, place + 1);
        self.len += 1;
    }

    /// Takes a place out.
    pub(crate) fn unlink(&mut self, place: usize)
        requires { is_in place self.old.places ≡ true }
        ensures { self.new ≡ record self.old { places = without place self.old.places } }
    {
        remove(&mut self.links, place + 1);
        self.len -= 1;
    }

    /// The first place.
    pub(crate) fn first(&self) -> Option<usize>
        ensures first { result ≡ first_of self.now.places }
        ensures once { IsOnce self.now.places }
    {
        if self.len == 0 {
            return None;
        }
        Some(self.links[ENDS].after - 1)
    }

    /// The place after this one.
    pub(crate) fn after(&self, place: usize) -> Option<usize>
        requires { is_in place self.now.places ≡ true }
        ensures { result ≡ first_of (rest_after place self.now.places) }
    {
        let node = self.links[place + 1].after;
        if node == ENDS {
            return None;
        }
        Some(node - 1)
    }
}

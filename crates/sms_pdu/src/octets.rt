//! Octets: the strings of a PDU, and small readings of a slice.

ghost use Rattle.std.specs.Prelude.{List, ℕ, [], ◌≡◌, ◌==◌, ◌<◌, ◌≤◌, true, false, take, length, position, IfSome, IfOk, IsOk};
ghost use Rattle.std.specs.List.{list_any};

use std::alloc::{AllocError, Global};
use std::marker::Model;

/// A string of octets. Contracts see it as the list of its octets.
#[derive(Debug, Drop)]
pub struct Octets {
    octets: Vec<u8>,
}

impl Model for Octets {
    ghost Value = { List ℕ };

    ghost view = { λ o. o.octets.items };
}

impl Octets {
    /// These octets. Takes no memory.
    pub fn new(octets: Vec<u8>) -> Octets
        ensures { result ≡ octets.items }
    {
        Octets { octets }
    }

    /// A copy of these octets, in one allocation, or in none where there are no octets.
    #[inline(always)]
    pub fn copy(alloc: Global, octets: &[u8]) -> Result<Octets, AllocError>
        ensures unchanged { IfOk result (λ copy. copy ≡ octets.now) }
        ensures none { octets.now ≡ [] → IsOk result }
    {
        // (Many strings of a message are empty.)
        if octets.is_empty() {
            return Ok(Octets {
                octets: Vec::new(alloc),
            });
        }
        let octets = Vec::from_slice(alloc, octets)?;
        Ok(Octets { octets })
    }

    /// A copy of these octets while there is memory. From the first copy on that there is none for,
    /// `memory` is false, none is asked for, and there are no octets.
    #[inline(always)]
    pub(crate) fn copy_while(alloc: Global, octets: &[u8], memory: &mut bool) -> Octets
        ensures unchanged { memory.new ≡ true → (memory.old ≡ true) × (result ≡ octets.now) }
        ensures without { memory.new ≡ false → result ≡ [] }
        ensures none { memory.old ≡ true → octets.now ≡ [] → memory.new ≡ true }
    {
        if *memory {
            match Octets::copy(alloc, octets) {
                Ok(copy) => return copy,
                Err(_) => *memory = false,
            }
        }
        Octets {
            octets: Vec::new(alloc),
        }
    }

    /// How many octets there are.
    pub fn len(&self) -> usize
        ensures { result ≡ length self.now }
    {
        self.octets.len()
    }

    /// Whether there are no octets.
    pub fn is_empty(&self) -> bool
        ensures { result ≡ (length self.now == 0) }
    {
        self.octets.is_empty()
    }

    /// The octets.
    pub fn as_slice(&self) -> &[u8]
        ensures { result.now ≡ self.now }
    {
        self.octets.as_slice()
    }

    /// The octets again. Takes no memory.
    pub fn into_vec(self) -> Vec<u8>
        ensures { result.items ≡ self }
    {
        self.octets
    }
}

/// The first octets, at most as many as are asked for.
pub(crate) fn front(octets: &[u8], most: usize) -> &[u8]
    ensures value { result.now ≡ take most octets.now }
    ensures bounded { length result.now ≤ most }
{
    if octets.len() <= most {
        octets
    } else {
        &octets[..most]
    }
}

/// Where the first 0 stands.
#[inline(always)]
pub(crate) fn first_zero(octets: &[u8]) -> Option<usize>
    ensures place { result ≡ position (λ octet. octet == 0) octets.now }
    ensures within { IfSome result (λ place. place < length octets.now) }
{
    octets.iter().position(|octet| *octet == 0)
}

/// Whether there is a 0. Four octets are looked at a turn.
#[inline(always)]
pub(crate) fn has_zero(octets: &[u8]) -> bool
    ensures { result ≡ list_any (λ octet. octet == 0) octets.now }
{
    let mut left = octets;
    while let [a, b, c, d, rest @ ..] = left {
        if *a == 0 || *b == 0 || *c == 0 || *d == 0 {
            return true;
        }
        left = rest;
    }
    left.iter().any(|octet| *octet == 0)
}

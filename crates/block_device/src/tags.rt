//! The tags of one disk that the host serves, each with room for one operation in flight: a look takes free ones, landings in
//! any order free them again, and a drop frees all. `T` is what its queue gives a chain in flight back by, and `N` is noted of it
//! beside.

ghost use Rattle.std.specs.Prelude.{◌≡◌, ◌<◌, ◌≤◌, Option, Some, None, IfOk, List, get_or, length, replicate, set};
ghost use Rattle.std.specs.Option.{option_map};
ghost use Rattle.block_device.specs.Tags.{InFlight, flight_in, free_tag, freed, is_any, operation_in, runs_in, taken_bits};

use crate::hosting::Flight;
use crate::operation::Operation;
use chain::{Counts, Runs, Segment};
use std::alloc::{AllocError, Allocator, Global};
use std::marker::Model;

/// How many operations of one disk may be in flight at most.
pub const MOST_IN_FLIGHT: usize = 64;

/// Room for one operation in flight, and for the runs of its bytes.
#[derive(Drop)]
pub struct Tag<T: Drop, N: Drop, A: Allocator = Global> {
    /// The chain in flight, if one is.
    pub flight: Option<Flight<T>>,
    /// What is noted of it. Nothing is stated of this.
    pub note: N,
    /// Where the bytes of its operation lie.
    pub runs: Box<Runs, A>,
}

impl<T: Drop, N: Drop, A: Allocator> Model for Tag<T, N, A> {
    ghost use Rattle.std.specs.Prelude.{Option};
    ghost use Rattle.block_device.specs.Tags.{InFlight, in_room};

    ghost Value = { Option (InFlight T) };

    ghost view = { λ s. in_room s.flight s.runs.value };
}

impl<T: Drop, N: Copy + Default, A: Allocator + Copy> Tag<T, N, A> {
    // Room for one operation, and none in it.
    fn free(alloc: A) -> Result<Tag<T, N, A>, AllocError>
        ensures { IfOk result (λ tag. tag ≡ None) }
    {
        let runs = Box::new(alloc, Runs::new())?;
        Ok(Tag {
            flight: None,
            note: N::default(),
            runs,
        })
    }
}

impl<T: Drop, N: Drop, A: Allocator> Tag<T, N, A> {
    // Gives up the operation that is in it, if one is.
    fn set_free(&mut self)
        ensures { self.new ≡ None }
    {
        self.flight = None;
    }
}

/// The tags: as many as were chosen when the disk was made.
#[derive(Drop)]
pub struct Tags<T: Drop, N: Drop, A: Allocator = Global> {
    /// Each tag at its place.
    pub items: Vec<Tag<T, N, A>, A>,
    /// The tags in flight: bit n is set where tag n is taken.
    pub taken: u64,
    /// What the chains that were in flight came to, where they are counted. Nothing is stated of this.
    pub counts: Counts,
}

impl<T: Drop, N: Drop, A: Allocator> Model for Tags<T, N, A> {
    ghost use Rattle.std.specs.Prelude.{◌≡◌, List, Option, ◌≤◌, length};
    ghost use Rattle.block_device.specs.Tags.{InFlight, taken_bits};

    ghost Value = { List (Option (InFlight T)) };

    ghost view = { λ t. t.items.items };

    ghost invariant = { λ t. (length t.items.items ≤ 64) × (t.taken ≡ taken_bits t.items.items) };
}

impl<T: Drop, N: Copy + Default, A: Allocator + Copy> Tags<T, N, A> {
    /// So many free tags.
    pub fn new(alloc: A, depth: usize) -> Result<Tags<T, N, A>, AllocError>
        requires { depth ≤ 64 }
        ensures { IfOk result (λ tags. tags ≡ replicate depth None) }
    {
        let mut items = Vec::new(alloc);
        while items.len() < depth {
            items.push(Tag::free(alloc)?)?;
        }
        Ok(Tags {
            items,
            taken: 0,
            counts: Counts::default(),
        })
    }
}

impl<T: Drop, N: Copy, A: Allocator> Tags<T, N, A> {
    /// How many operations may be in flight.
    pub fn depth(&self) -> usize
        ensures value { result ≡ length self.now }
        ensures most { result ≤ 64 }
    {
        self.items.len()
    }

    /// Whether any operation is in flight.
    pub fn is_busy(&self) -> bool
        ensures { result ≡ is_any self.now }
    {
        self.taken != 0
    }

    /// The tags in flight: bit n is set where tag n is taken.
    pub fn taken(&self) -> u64
        ensures { result ≡ taken_bits self.now }
    {
        self.taken
    }

    /// What the host is asked to do by this tag.
    pub fn operation(&self, tag: usize) -> Option<Operation>
        ensures { result ≡ operation_in (get_or self.now tag None) }
    {
        let flight = self.items.get(tag)?.flight.as_ref()?;
        Some(flight.operation)
    }

    /// Where the bytes of this tag's operation lie: no runs where it is free.
    pub fn runs(&self, tag: usize) -> &[Segment]
        ensures { result.now ≡ runs_in (get_or self.now tag None) }
    {
        match self.items.get(tag) {
            Some(tag) if tag.flight.is_some() => tag.runs.as_slice(),
            _ => &[],
        }
    }

    /// What the chains that were in flight came to.
    pub fn counts(&self) -> Counts {
        self.counts
    }

    /// The lowest free tag.
    #[tactic(auto, using(crate::proofs::Bits::free_below, crate::proofs::Bits::free_nowhere))]
    #[inline(always)]
    pub fn lowest_free(&self) -> Option<usize>
        ensures { result ≡ free_tag self.now }
    {
        let tag = self.taken.trailing_ones() as usize;
        if tag < self.items.len() {
            Some(tag)
        } else {
            None
        }
    }

    /// Takes the operation of this tag out of it, and what is noted of it: the tag is free.
    #[inline(always)]
    pub fn take(&mut self, tag: usize) -> Option<(Flight<T>, N)>
        ensures found { option_map (λ out. out.0) result ≡ flight_in (get_or self.old tag None) }
        ensures free { self.new ≡ set self.old tag None }
    {
        let found = self.items.get_mut(tag)?;
        let flight = found.flight.take()?;
        self.taken = without_tag::<T>(self.taken, tag);
        Some((flight, found.note))
    }

    /// Frees all tags.
    pub fn free_all(&mut self)
        ensures { self.new ≡ freed self.old }
    {
        free_each(self.items.as_mut_slice());
        self.taken = 0;
    }
}

// Frees each of these tags.
fn free_each<T: Drop, N: Drop, A: Allocator>(tags: &mut [Tag<T, N, A>])
    ensures { tags.new ≡ freed tags.old }
{
    for tag in tags.iter_mut() {
        tag.set_free();
    }
}

/// A set of tags with this one in it as well.
#[tactic(auto, using(crate::proofs::Bits::set_with))]
#[inline(always)]
pub fn with_tag<T: Drop>(taken: u64, tag: usize) -> u64
    requires { tag < 64 }
    ensures { (tags : List (Option (InFlight T))) (here : InFlight T) → tag < length tags → taken ≡ taken_bits tags →
        result ≡ taken_bits (set tags tag (Some here)) }
{
    taken | 1 << tag
}

// A set of tags without this one.
#[tactic(auto, using(crate::proofs::Bits::set_without))]
#[inline(always)]
fn without_tag<T: Drop>(taken: u64, tag: usize) -> u64
    requires { tag < 64 }
    ensures { (tags : List (Option (InFlight T))) → tag < length tags → taken ≡ taken_bits tags →
        result ≡ taken_bits (set tags tag None) }
{
    taken & !(1 << tag)
}

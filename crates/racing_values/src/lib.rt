//! Instances of the laws of guests that run on, with values that are worked by hand. The bodies are empty: each contract is a theorem.
#![tactic(auto)]

ghost use Rattle.std.specs.Prelude.{◌≡◌, All, [], false};
ghost use Rattle.chain.specs.Bytes.{addresses_of, readable_of};
ghost use Rattle.packed_ring.specs.Kind.{packed_kind};
ghost use Rattle.packed_ring.specs.Ring.{head_of, next_wrap};
ghost use Rattle.shared_memory.specs.Sightings.{memory};
ghost use Rattle.racing_ring.specs.Packed.{IsOffered, IsPublished};
ghost use Rattle.shared_memory.specs.Bytes.{IsSteady};
ghost use Rattle.racing_values.specs.Alone.{all_read, buffers, entry, header, list_read, ring, seen_by};

/// A list whose driver left it alone before the call saw it is published (`a_list_that_is_published_meanwhile_is_taken_as_it_stands`
/// of racing_ring): it may be taken as these buffers, and the memory then offers them.
pub fn a_list_that_a_call_sees_first_is_published()
    ensures taken { IsOffered (seen_by []) (seen_by list_read) ring buffers entry }
    ensures published { IsPublished (seen_by []) (seen_by list_read) 4096 2 (head_of ring) (next_wrap ring) 1 }
    ensures offered { packed_kind.Offers (memory (seen_by list_read)) ring buffers entry }
{}

/// The header of an OUT to sector 5 is steady while it is read (`a_chain_that_is_left_alone_is_served_at_one_moment` of
/// racing_service), though no byte of it was read before.
pub fn the_header_of_an_out_to_sector_5_is_steady()
    ensures steady { All (IsSteady (seen_by list_read) (seen_by all_read)) (addresses_of false buffers) }
    ensures header { readable_of (memory (seen_by list_read)) buffers ≡ header }
{}

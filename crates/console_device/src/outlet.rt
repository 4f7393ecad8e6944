//! Where a console's output goes.

ghost use Rattle.std.specs.Prelude.{◌≡◌, ◌++◌, ◌+◌, ◌-◌, ◌≤◌, ◌<◌, ℕ, Option, None, Some, List, length, vec_capacity, IsOk, OnOk, OnErr};
ghost use Rattle.console_device.specs.Device.{Fits, MayRefuse};

use crate::no_memory::NoMemory;
use circular_buffer::HeapCircularBuffer;
use std::alloc::Allocator;

/// Takes bytes behind those that wait in it, or refuses them.
pub trait Outlet {
    // the bytes that wait
    ghost bytes: { Self → List ℕ };

    // how many may wait, where that alone decides what is refused
    ghost limit: { Self → Option ℕ };

    // for how many more there is room now
    ghost room: { Self → ℕ };

    /// Makes room for so many bytes more, or refuses them. What waits stays.
    fn make_room(&mut self, count: u64) -> Result<(), NoMemory>
        ensures bytes { bytes self.new ≡ bytes self.old }
        ensures limit { limit self.new ≡ limit self.old }
        ensures room { OnOk result (count ≤ room self.new) }
        ensures fits { OnOk result (Fits (limit self.old) (length (bytes self.old) + count)) }
        ensures some { OnErr result (0 < count) }
        ensures refused { OnErr result (MayRefuse (limit self.old) (length (bytes self.old) + count)) };

    /// Takes bytes for which there is room.
    fn append(&mut self, part: &[u8])
        requires { length part.now ≤ room self.old }
        ensures bytes { bytes self.new ≡ bytes self.old ++ part.now }
        ensures limit { limit self.new ≡ limit self.old }
        ensures room { room self.old ≤ room self.new + length part.now };

    /// Takes bytes, or refuses them all.
    fn put(&mut self, part: &[u8]) -> Result<(), NoMemory>
        ensures ok { OnOk result (bytes self.new ≡ bytes self.old ++ part.now) }
        ensures fits { OnOk result (Fits (limit self.old) (length (bytes self.old) + length part.now)) }
        ensures err { OnErr result (bytes self.new ≡ bytes self.old) }
        ensures some { OnErr result (0 < length part.now) }
        ensures refused { OnErr result (MayRefuse (limit self.old) (length (bytes self.old) + length part.now)) }
        ensures limit { limit self.new ≡ limit self.old }
    {
        self.make_room(part.len() as u64)?;
        self.append(part);
        Ok(())
    }
}

impl<A: Allocator> Outlet for Vec<u8, A> {
    ghost bytes = { λ out. out.items };

    ghost limit = { λ out. None };

    ghost room = { λ out. vec_capacity out - length out.items };

    fn make_room(&mut self, count: u64) -> Result<(), NoMemory> {
        match self.reserve(count as usize) {
            Ok(()) => Ok(()),
            Err(_) => Err(NoMemory),
        }
    }

    fn append(&mut self, part: &[u8]) {
        let Ok(()) = extend(self, part) else {
            unreachable!()
        };
    }

    fn put(&mut self, part: &[u8]) -> Result<(), NoMemory> {
        extend(self, part)
    }
}

/// Appends bytes where there is memory for them. One byte is pushed, which costs less.
#[inline(always)]
fn extend<A: Allocator>(out: &mut Vec<u8, A>, part: &[u8]) -> Result<(), NoMemory>
    ensures ok { OnOk result (out.new.items ≡ out.old.items ++ part.now) }
    ensures err { OnErr result (out.new.items ≡ out.old.items) }
    ensures capacity { vec_capacity out.old ≤ vec_capacity out.new }
    ensures succeeds { length out.old.items + length part.now ≤ vec_capacity out.old → IsOk result }
{
    let appended = if part.len() == 1 {
        out.push(part[0]).is_ok()
    } else {
        out.extend_from_slice(part).is_ok()
    };
    if appended { Ok(()) } else { Err(NoMemory) }
}

impl<A: Allocator> Outlet for HeapCircularBuffer<u8, A> {
    ghost bytes = { λ ring. ring.items };

    ghost limit = { λ ring. Some ring.capacity };

    ghost room = { λ ring. ring.capacity - length ring.items };

    fn make_room(&mut self, count: u64) -> Result<(), NoMemory> {
        let room = self.capacity() - self.len();
        if count <= room as u64 {
            Ok(())
        } else {
            Err(NoMemory)
        }
    }

    fn append(&mut self, part: &[u8]) {
        self.fill_from_slice(part);
    }
}

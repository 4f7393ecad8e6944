//! Why a guest's window asks for a reset, as C has it.

ghost use Rattle.std.specs.Prelude.{◌≡◌};
ghost use Rattle.c_values.specs.Faults.{fault_number, told_fault};

use mmio_window::FaultNote;

/// What `head` is where no head was read.
const NO_HEAD: u32 = 0xffff_ffff;

/// The last fault of a window, and where it was met.
#[derive(Clone, Copy, Debug, PartialEq, Eq)]
#[repr(C)]
pub struct Fault {
    /// Which fault, from 1 on: 0 until one came, and then all is 0 but `head`.
    pub kind: u32,
    /// The number of the queue.
    pub queue: u32,
    /// The index of the chain's first descriptor: `NO_HEAD` where none was read.
    pub head: u32,
    /// The place of the chain.
    pub place: u32,
}

impl Fault {
    /// What is told of a note, or where there is none.
    pub fn of(note: Option<FaultNote>) -> Fault
        ensures { result ≡ told_fault note }
    {
        let Some(note) = note else {
            return Fault {
                kind: 0,
                queue: 0,
                head: NO_HEAD,
                place: 0,
            };
        };
        Fault {
            kind: number_of(note.fault),
            queue: u32::from(note.queue),
            head: match note.head {
                Some(head) => u32::from(head),
                None => NO_HEAD,
            },
            place: u32::from(note.place),
        }
    }
}

// The number of a fault.
fn number_of(fault: chain::Fault) -> u32
    ensures { result ≡ fault_number fault }
{
    match fault {
        chain::Fault::Jump => 1,
        chain::Fault::Index => 2,
        chain::Fault::Loop => 3,
        chain::Fault::TooMany => 4,
        chain::Fault::Table => 5,
        chain::Fault::Nested => 6,
        chain::Fault::Joined => 7,
        chain::Fault::NoIndirect => 8,
        chain::Fault::Range => 9,
        chain::Fault::TooLong => 10,
    }
}

//! Reading a snapshot from left to right.

ghost use Rattle.std.specs.Prelude.{IfErr, IfOk, IsErrOf, ℕ, List, Ok, Option};
ghost use Rattle.std.specs.Option.{option_map};
ghost use Rattle.std.specs.Int.{w64};
ghost use Rattle.snapshot.specs.declared.saved.SavedSlot.{SavedSlot};
ghost use Rattle.snapshot.specs.Reading.{Gives, Reads, constant_at, count_at, head_at, version_at, waiting_at, whole_at};
ghost use Rattle.snapshot.specs.declared.fault.SnapshotFault.{SnapshotFault};
ghost use Rattle.snapshot.specs.declared.fault.Why.{Why};
ghost use Rattle.snapshot.specs.Faults.{IsFirstFault};
ghost use Rattle.snapshot.specs.Spelling.{IsSnapshot, magic};

use crate::fault::{SnapshotFault, Stop, Why};
use crate::reader::Reader;
use crate::saved::SavedSlot;

/// The first eight bytes of a snapshot as a number: KALYUBOS.
const MAGIC: u64 = 6003089762645983563;

/// The version of a snapshot without further devices.
pub(crate) const VERSION: u32 = 1;

/// The version of a snapshot with further devices, of which it has the windows alone.
pub(crate) const VERSION_OF_DEVICES: u32 = 2;

/// The version of a snapshot with further devices and what waits in them.
pub(crate) const VERSION_OF_WAITING: u32 = 3;

/// How many bytes of input may be pending.
const MOST_PENDING: u32 = 4096;

/// What a snapshot says, with the pending input, and with what waits in the further devices where it has that. Else the
/// first fault from left to right.
pub fn read(bytes: &[u8]) -> Result<(SavedSlot, &[u8], Option<&[u8]>), SnapshotFault>
    // what is read is spelled so, and what is spelled so is read
    ensures spelled { IfOk result (λ x. IsSnapshot bytes.now x.0 x.1.now (option_map (λ waiting. waiting.now) x.2)) }
    ensures only { (slot : SavedSlot) (pending : List ℕ) (waiting : Option (List ℕ)) → IsSnapshot bytes.now slot pending waiting →
        Gives {Y = SavedSlot × List ℕ × Option (List ℕ)} (λ x. (x.0, x.1.now, option_map (λ waiting. waiting.now) x.2)) result
        (Ok (slot, pending, waiting)) }

    // and of other bytes the first fault is told, the one that they have
    ensures fault { IfErr result (IsFirstFault bytes.now) }
    ensures exact { (fault : SnapshotFault) → IsFirstFault bytes.now fault → IsErrOf result fault }
{
    match whole_of(bytes) {
        Ok(found) => Ok(found),
        Err(stop) => Err(SnapshotFault {
            why: stop.why,
            place: bytes.len().saturating_sub(stop.left),
        }),
    }
}

#[tactic(auto, unfolding(crate::specs::Reading::front_at, crate::specs::Reading::whole_at))]
fn whole_of(bytes: &[u8]) -> Result<(SavedSlot, &[u8], Option<&[u8]>), Stop>
    ensures { Gives (λ x. (x.0, x.1.now, option_map (λ waiting. waiting.now) x.2)) result (whole_at bytes.now) }
{
    let mut reader = Reader { left: bytes };
    let (slot, waits, count) = reader.head()?;
    let pending = reader.front(count as usize)?;
    let waiting = waiting_of(reader.left, waits)?;
    Ok((slot, pending, waiting))
}

// What waits, where the snapshot has it. Else nothing stands behind the pending input.
fn waiting_of(left: &[u8], waits: bool) -> Result<Option<&[u8]>, Stop>
    ensures { Gives (option_map (λ waiting. waiting.now)) result (waiting_at waits left.now) }
{
    if waits {
        return Ok(Some(left));
    }
    if !left.is_empty() {
        return Err(Stop::at(Why::Trailing, left));
    }
    Ok(None)
}

impl Reader<'_> {
    // All that stands before the pending input, and how much of that there is.
    #[tactic(auto, unfolding(crate::specs::Reading::head_at))]
    fn head(&mut self) -> Result<(SavedSlot, bool, u32), Stop>
        ensures { Reads head_at self.old.left.now result self.new.left.now }
    {
        self.magic()?;
        let version = self.version()?;
        let slot = self.slot(version > VERSION)?;
        let count = self.count()?;
        Ok((slot, version == VERSION_OF_WAITING, count))
    }

    fn magic(&mut self) -> Result<u64, Stop>
        ensures { Reads (constant_at w64 magic Why.Magic) self.old.left.now result self.new.left.now }
    {
        let bytes = self.left;
        let found = self.u64()?;
        if found != MAGIC {
            return Err(Stop::at(Why::Magic, bytes));
        }
        Ok(found)
    }

    fn version(&mut self) -> Result<u32, Stop>
        ensures { Reads version_at self.old.left.now result self.new.left.now }
    {
        let bytes = self.left;
        let version = self.u32()?;
        if version < VERSION || version > VERSION_OF_WAITING {
            return Err(Stop::at(Why::Version, bytes));
        }
        Ok(version)
    }

    // How much input is pending.
    fn count(&mut self) -> Result<u32, Stop>
        ensures { Reads count_at self.old.left.now result self.new.left.now }
    {
        let bytes = self.left;
        let count = self.u32()?;
        if count > MOST_PENDING {
            return Err(Stop::at(Why::TooMuchInput, bytes));
        }
        Ok(count)
    }
}

//! A slot's snapshot, and a slot that takes one up.

ghost use Rattle.std.specs.Prelude.{◌≡◌, ◌≢◌, ◌↔◌, ◌<◌, ◌≤◌, ℕ, false, IfErr, IfOk, IfSome, IsErr, IsOk, IsTrue, List, OnErr, OnOk, Some, length};
ghost use Rattle.std.specs.Option.{option_map};
ghost use Rattle.guest_memory.specs.Memory.{Memory};
ghost use Rattle.mmio_window.specs.declared.device_kind.DeviceKind.{DeviceKind};
ghost use Rattle.mmio_window.specs.Saved.{saved_window, window_restored};
ghost use Rattle.mmio_window.specs.Soundness.{IsSound};
ghost use Rattle.device_list.specs.List.{AreSoundDevices, are_at_work};
ghost use Rattle.device_list.specs.Saved.{RestoresEach};
ghost use Rattle.board.specs.Backing.{KeepsHost};
ghost use Rattle.board.specs.Saved.{IsAs, IsCauseOf, IsLike, IsRestored, IsSavedTo, IsSnapshotOf, OffersFeatures, Prevents, SuitsBesideDevices, TakesUp, block_restored, saved_slot, snapshot_of};
ghost use Rattle.board.specs.declared.event.EventKind.{EventKind};
ghost use Rattle.board.specs.declared.reply.Reply.{Reply};
ghost use Rattle.board.specs.Image.{Health, sectors_of};
ghost use Rattle.board.specs.Outcome.{replies};
ghost use Rattle.board.specs.Slot.{BoardSlot, KeepsPlace, state_of};
ghost use Rattle.board.specs.World.{MayGiveOverImage};

use crate::reply::Reply;
use crate::saved::RestoreFault;
use crate::slot::Slot;
use mmio_window::{DeviceKind, SavedWindow, Window};
use negotiation::Flags;
use snapshot::{SavedSlot, ShortBuffer};
use std::alloc::Allocator;

impl<A: Allocator> Slot<A> {
    /// How many bytes the slot's snapshot has.
    pub(crate) fn saved_len(&self) -> usize
        ensures { result ≡ length (snapshot_of self.now) }
    {
        let (front, back) = self.console_device.pending();
        snapshot::written_len(&self.saved(), front, back) + self.devices.waiting_len()
    }

    /// Writes the slot's snapshot to the front of a buffer, and answers how many bytes it has.
    pub(crate) fn save_into(&self, into: &mut [u8]) -> Result<usize, ShortBuffer>
        ensures saved { IfOk result (IsSavedTo self.now into.old into.new) }
        ensures short { IsErr result ↔ (length into.old < length (snapshot_of self.now)) }
        ensures kept { OnErr result (into.new ≡ into.old) }
    {
        let waiting = self.devices.waiting_len();
        if into.len() < waiting {
            return Err(ShortBuffer);
        }
        let room = into.len() - waiting;
        let (front, back) = self.console_device.pending();
        let waits = self.devices.len() > 0;
        let at = snapshot::write_into(&self.saved(), front, back, waits, &mut into[..room])?;
        let len = at + waiting;
        self.devices.write_waiting(&mut into[at..len]);
        Ok(len)
    }

    // What the slot keeps, as plain numbers.
    fn saved(&self) -> SavedSlot
        ensures value { result ≡ saved_slot self.now }
        ensures block { (m : Memory) → IsSound m self.now.block →
            window_restored self.now.block.kind m result.block ≡ Some self.now.block }
        ensures console { (m : Memory) → IsSound m self.now.console →
            window_restored self.now.console.kind m result.console ≡ Some self.now.console }
        ensures devices { (m : Memory) → AreSoundDevices m self.now.devices → RestoresEach m self.now.devices }
    {
        let (cols, rows) = self.console_device.size();
        SavedSlot {
            base: self.memory.base(),
            len: self.memory.len(),
            sectors: self.device().extent.count,
            read_only: self.disk.of_image().read_only,
            identity: self.disk.of_image().identity,
            block: self.block.saved(),
            console: self.console.saved(),
            cols,
            rows,
            on_hold: self.is_on_hold(),
            devices: self.devices.saved(),
        }
    }

    /// Takes up a snapshot of a slot of the same description, where nothing is in flight of a further disk. What is refused
    /// changes nothing.
    pub(crate) fn restore(&mut self, from: &[u8]) -> Result<(), RestoreFault>
        requires idle { are_at_work self.old.devices ≡ false }
        ensures ok { OnOk result (IsRestored self.old from.now self.new) }
        ensures fault { IfErr result (IsCauseOf self.old from.now) }
        ensures kept { OnErr result (self.new ≡ self.old) }
        ensures place { KeepsPlace self.old self.new }
        ensures host { KeepsHost self.old.host self.new.host }
        ensures memory { self.new.memory ≡ self.old.memory }
        ensures disturbed { self.new.disturbed ≡ self.old.disturbed }
        ensures taken { (slot : BoardSlot) → IsSnapshotOf from.now slot → IsLike slot self.old →
            IsOk result × IsAs slot self.old self.new }
    {
        match snapshot::read(from) {
            Ok((saved, pending, waiting)) => self.take_up(&saved, pending, waiting),
            Err(fault) => Err(RestoreFault::Snapshot(fault)),
        }
    }

    /// Takes up a snapshot, unless something is in flight of a further disk, and answers what the event of that restore is
    /// answered.
    pub(super) fn answer_restore(&mut self, from: &[u8]) -> Reply<A>
        ensures given { (image : List ℕ) (health : Health) →
            sectors_of (state_of image self.old).extent ≡ self.old.extent.count →
            MayGiveOverImage (state_of image self.old) (EventKind.Restore from.now) health health
            (replies (state_of image self.new) result) }
        ensures place { KeepsPlace self.old self.new }
        ensures host { KeepsHost self.old.host self.new.host }
        ensures memory { self.new.memory ≡ self.old.memory }
        ensures disturbed { self.new.disturbed ≡ self.old.disturbed }
        ensures there { result ≢ Reply.BadSlot }
        ensures in_range { result ≢ Reply.BadRange }
        ensures no_memory { result ≢ Reply.NoMemory }
    {
        if self.are_at_work() {
            return Reply::Busy;
        }
        match self.restore(from) {
            Ok(()) => Reply::Done,
            Err(_) => Reply::BadState,
        }
    }

    // Takes up what was saved, with this pending input, and with what waits in the further devices where that was saved.
    fn take_up(
        &mut self,
        saved: &SavedSlot,
        pending: &[u8],
        waiting: Option<&[u8]>,
    ) -> Result<(), RestoreFault>
        requires few { length pending.now ≤ 4096 }
        requires idle { are_at_work self.old.devices ≡ false }
        ensures ok { OnOk result
            (TakesUp self.old saved.now pending.now (option_map (λ bytes. bytes.now) waiting.entry) self.new) }
        ensures fault { IfErr result (Prevents self.old saved.now (option_map (λ bytes. bytes.now) waiting.entry)) }
        ensures offers { OffersFeatures self.old }
        ensures kept { OnErr result (self.new ≡ self.old) }
        ensures place { KeepsPlace self.old self.new }
        ensures host { KeepsHost self.old.host self.new.host }
        ensures memory { self.new.memory ≡ self.old.memory }
        ensures disturbed { self.new.disturbed ≡ self.old.disturbed }
    {
        if !self.suits(saved) {
            return Err(RestoreFault::OtherSlot);
        }
        if !self.devices.suits(saved.devices.as_slice()) {
            return Err(RestoreFault::BadDevice);
        }
        let Some(block) = self.block_restored(&saved.block) else {
            return Err(RestoreFault::BadBlock);
        };
        let Some(console) = Window::restored(DeviceKind::Console, &saved.console, &self.memory)
        else {
            return Err(RestoreFault::BadConsole);
        };
        if !self
            .devices
            .can_restore(saved.devices.as_slice(), &self.memory)
        {
            return Err(RestoreFault::BadDeviceWindow);
        }
        if !self.devices.can_refill(waiting) {
            return Err(RestoreFault::BadWaiting);
        }
        self.devices.restore(saved.devices.as_slice(), &self.memory);
        self.devices.refill(waiting);
        self.block = block.in_place_of(&self.block);
        self.console = console.in_place_of(&self.console);
        self.console_device.restore(pending, saved.cols, saved.rows);
        self.disk.set_on_hold(saved.on_hold);
        Ok(())
    }

    // The block device's window as it was saved. A disk's configuration never changes, so its generation is 0.
    fn block_restored(&self, saved: &SavedWindow) -> Option<Window>
        ensures value { result ≡ block_restored self.now.memory saved.now }
        ensures kind { IfSome result (λ window. window.kind ≡ DeviceKind.Block) }
        ensures sound { IfSome result (IsSound self.now.memory) }
        ensures generation { IfSome result (λ window. window.config_generation ≡ 0) }
        ensures again { IfSome result (λ window. saved_window window ≡ saved.now) }
    {
        if saved.config_generation != 0 {
            return None;
        }
        Window::restored(DeviceKind::Block, saved, &self.memory)
    }

    // Whether the slot is of the description that was saved, but for its further devices.
    fn suits(&self, saved: &SavedSlot) -> bool
        ensures value { IsTrue result ↔ SuitsBesideDevices saved.now self.now }
        ensures offers { OffersFeatures self.now }
    {
        saved.base == self.memory.base()
            && saved.len == self.memory.len()
            && saved.sectors == self.device().extent.count
            && saved.read_only == self.disk.of_image().read_only
            && saved.identity == self.disk.of_image().identity
            && saved.block.negotiation.offered == self.block.negotiation().offered().bits()
            && saved.console.negotiation.offered == self.console.negotiation().offered().bits()
            && (!saved.on_hold || self.is_hosted())
    }
}

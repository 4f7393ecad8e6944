//! A device: its register window, and what stands behind it.

ghost use Rattle.std.specs.Prelude.{◌≡◌, false, true, IfErr, IfOk, OnErr, OnOk};
ghost use Rattle.guest_memory.specs.Memory.{SameRange};
ghost use Rattle.mmio_window.specs.Interrupts.{interrupt_bits};
ghost use Rattle.racing_window.specs.Memory.{window_fits};
ghost use Rattle.shared_memory.specs.Sightings.{memory};
ghost use Rattle.device_list.specs.Device.{DeviceServesIn, DeviceServesTo, DeviceState, IsSoundDevice, device_written, fresh_device, register_of};
ghost use Rattle.device_list.specs.declared.refusal.WriteRefusal.{WriteRefusal};
ghost use Rattle.device_list.specs.List.{notified_at};
ghost use Rattle.device_list.specs.Model.{has_bad_disk, has_bad_mtu, must_wait, state_of};

mod host;
mod image;
mod saved;
mod waiting;

use crate::model::DeviceModel;
use crate::refusal::WriteRefusal;
use crate::spec::DeviceSpec;
use chain::{Budget, Chain, Progress};
use guest_memory::{GuestMemory, Ranged};
use mmio_window::{Action, Stage, Window};
use network_device::NoMemory;
use racing_window::fits;
use served_memory::{Limits, Served};
use shared_memory::Shared;
use std::alloc::{Allocator, Global};
use std::marker::Model;

/// A virtio device: its register window (4.2.2), and what stands behind it.
#[derive(Drop)]
pub struct VirtioDevice<A: Allocator = Global> {
    window: Window,
    model: DeviceModel<A>,
}

impl<A: Allocator> Model for VirtioDevice<A> {
    ghost use Rattle.device_list.specs.Device.{DeviceState};
    ghost use Rattle.device_list.specs.Model.{state_of};

    ghost Value = { DeviceState };

    ghost view = { λ d. record { window = d.window; model = state_of d.model } };
}

impl<A: Allocator + Copy> VirtioDevice<A> {
    /// A device as after a reset, for which nothing waits.
    pub(crate) fn new(alloc: A, spec: DeviceSpec) -> Result<VirtioDevice<A>, NoMemory>
        requires mtu { has_bad_mtu spec ≡ false }
        requires disk { has_bad_disk spec ≡ false }
        ensures { IfOk result (λ device. device ≡ fresh_device spec) }
    {
        let model = DeviceModel::new(alloc, spec)?;
        Ok(VirtioDevice {
            window: Window::new(model.kind(), model.features()),
            model,
        })
    }
}

impl<A: Allocator> VirtioDevice<A> {
    /// Its window, to be looked at.
    pub fn window(&self) -> &Window
        ensures { result.now ≡ self.now.window }
    {
        &self.window
    }

    /// What stands behind its window.
    pub fn model(&self) -> &DeviceModel<A>
        ensures { state_of result.now ≡ self.now.model }
    {
        &self.model
    }

    /// InterruptStatus of its window (4.2.2).
    pub fn interrupts(&self) -> u8
        ensures { result ≡ interrupt_bits self.now.window.interrupts }
    {
        self.window.interrupts()
    }

    /// What a read of its window gives (4.2.2).
    pub(crate) fn read(&self, offset: u16, width: u8) -> u32
        ensures { result ≡ register_of offset width self.now }
    {
        self.window.read(offset, width, &self.model.config())
    }

    /// Writes its window's registers, and takes what is written to its configuration. Answers the queue that is notified, which
    /// is to be served next. A write that waits for what is in flight of a disk is refused: nothing has changed then.
    pub(crate) fn write<M: Ranged>(
        &mut self,
        offset: u16,
        width: u8,
        value: u32,
        mem: &M,
    ) -> Result<Option<u16>, WriteRefusal>
        requires sound { IsSoundDevice (M.ranged mem.now) self.old }
        ensures free { OnOk result (must_wait offset self.old.model ≡ false) }
        ensures notified { IfOk result (λ q. q ≡ notified_at offset width value self.old) }
        ensures written { OnOk result (self.new ≡ device_written offset width value (M.ranged mem.now) self.old) }
        ensures waits { OnErr result (must_wait offset self.old.model ≡ true) }
        ensures refused { IfErr result (λ why. why ≡ WriteRefusal.Busy) }
        ensures kept { OnErr result (self.new ≡ self.old) }
        ensures sound { IsSoundDevice (M.ranged mem.now) self.new }
    {
        if self.model.must_wait(offset) {
            return Err(WriteRefusal::Busy);
        }
        match self.window.write(offset, width, value, mem) {
            Action::Notify(q) => Ok(Some(q)),
            Action::ConfigWrite { offset, value, .. } => {
                self.model.configure(offset, value);
                Ok(None)
            }
            Action::Reset | Action::None => Ok(None),
        }
    }

    /// Serves a piece of its queue of this number, within the budget.
    #[inline(always)]
    pub(crate) fn serve<M: Allocator>(
        &mut self,
        q: u16,
        mem: &mut GuestMemory<M>,
        stage: Stage,
        budget: Budget,
        room: &mut Chain,
    ) -> Progress
        requires sound { IsSoundDevice mem.old self.old }
        ensures serves { DeviceServesTo stage budget result q mem.old mem.new self.old self.new }
        ensures range { SameRange mem.old mem.new }
        ensures sound { IsSoundDevice mem.new self.new }
    {
        self.model
            .serve(q, mem, &mut self.window, stage, budget, room)
    }

    /// The same over any memory, within limits. Of a disk nothing is served.
    pub(crate) fn serve_in<G: Served>(
        &mut self,
        q: u16,
        mem: &mut G,
        stage: Stage,
        limits: Limits,
        chain: &mut Chain,
        room: &mut G::Room,
    ) -> Progress
        requires sound { IsSoundDevice (G.world.last (G.seen mem.old)) self.old }
        ensures serves { DeviceServesIn G.world stage limits result q (G.seen mem.old) (G.seen mem.new) self.old self.new }
        ensures range { SameRange (G.world.last (G.seen mem.old)) (G.world.last (G.seen mem.new)) }
        ensures sound { IsSoundDevice (G.world.last (G.seen mem.new)) self.new }
    {
        let window = &mut self.window;
        self.model
            .serve_in(q, mem, window, stage, limits, chain, room)
    }

    /// Whether each of its ready queues could be made ready over this memory.
    pub(crate) fn fits<M: Shared>(&self, mem: &M) -> bool
        ensures { result ≡ window_fits (memory (M.sightings mem.now)) self.now.window }
    {
        fits(&self.window, mem)
    }
}

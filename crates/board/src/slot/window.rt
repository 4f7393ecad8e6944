//! The accesses of a guest's drivers to the windows of its devices, and what the devices do then.

ghost use Rattle.std.specs.Prelude.{◌≡◌, ℕ, List, OnOk, OnErr};
ghost use Rattle.board.specs.declared.event.SlotWindow.{SlotWindow};
ghost use Rattle.board.specs.declared.reply.Reply.{Reply};
ghost use Rattle.board.specs.Image.{sectors_of};
ghost use Rattle.board.specs.Machine.{register, task_at, window_of, with_write};
ghost use Rattle.board.specs.Slot.{KeepsPlace, state_of};
ghost use Rattle.board.specs.Task.{task_of};

use crate::event::SlotWindow;
use crate::pause::Service;
use crate::reply::Reply;
use crate::slot::Slot;
use crate::task::Task;
use block_device::REQUESTQ;
use console_device::{EMERGENCY_WRITE, NoMemory, RECEIVEQ, TRANSMITQ};
use mmio_window::{Action, CONFIGURATION_OFFSET, Window};
use std::alloc::Allocator;

impl<A: Allocator + Copy> Slot<A> {
    /// What a read of a window gives (4.2.2).
    pub(crate) fn read_window(&self, window: SlotWindow, offset: u16, width: u8) -> u32
        ensures { (bytes : List ℕ) →
            sectors_of (state_of bytes self.now).extent ≡ self.now.extent.count →
            result ≡ register (state_of bytes self.now) window offset width }
    {
        if offset < CONFIGURATION_OFFSET {
            return self.window(window).read_control(offset, width);
        }
        match window {
            SlotWindow::Block => self.block.read(offset, width, &self.device().config()),
            SlotWindow::Console => self
                .console
                .read(offset, width, &self.console_device.config()),
        }
    }

    // The window of a kind of device.
    #[inline(always)]
    fn window(&self, kind: SlotWindow) -> &Window
        ensures { (bytes : List ℕ) → result.now ≡ window_of kind (state_of bytes self.now) }
    {
        match kind {
            SlotWindow::Block => &self.block,
            SlotWindow::Console => &self.console,
        }
    }

    /// Writes a window's registers, and tells what is left for its device to do.
    #[inline(always)]
    pub(super) fn write_registers(
        &mut self,
        window: SlotWindow,
        offset: u16,
        width: u8,
        value: u32,
    ) -> Task
        ensures task { (image : List ℕ) → result ≡ task_at window offset width value (state_of image self.old) }
        ensures written { (image : List ℕ) →
            state_of image self.new ≡ with_write window offset width value (state_of image self.old) }
        ensures place { KeepsPlace self.old self.new }
        ensures disturbed { self.new.disturbed ≡ self.old.disturbed }
    {
        match window {
            SlotWindow::Block => {
                let action = self.block.write(offset, width, value, &self.memory);
                self.counters.wrote(action);
                block_task(action)
            }
            SlotWindow::Console => {
                let action = self.console.write(offset, width, value, &self.memory);
                self.counters.wrote(action);
                console_task(action)
            }
        }
    }
}

// What a write to the block window leaves to be done (5.2.6).
#[inline(always)]
fn block_task(action: Action) -> Task
    ensures { result ≡ task_of SlotWindow.Block action }
{
    match action {
        Action::Notify(REQUESTQ) => Task::Serve(Service::Block),
        _ => Task::Nothing,
    }
}

// What a write to the console window leaves to be done: a notification of either queue (5.3.6), or the byte of an
// emergency write, of whatever width (5.3.4).
#[inline(always)]
fn console_task(action: Action) -> Task
    ensures { result ≡ task_of SlotWindow.Console action }
{
    match action {
        Action::Notify(RECEIVEQ) => Task::Serve(Service::Receive),
        Action::Notify(TRANSMITQ) => Task::Serve(Service::Transmit),
        Action::ConfigWrite {
            offset: EMERGENCY_WRITE,
            value,
            ..
        } => Task::PutOut((value % 256) as u8),
        _ => Task::Nothing,
    }
}

// What the guest is answered where there was memory for what its console put out, and where there was none.
#[inline(always)]
pub(super) fn reply_to<A: Allocator>(put_out: Result<(), NoMemory>) -> Reply<A>
    ensures done { OnOk put_out (result ≡ Reply.Done) }
    ensures no_memory { OnErr put_out (result ≡ Reply.NoMemory) }
{
    match put_out {
        Ok(()) => Reply::Done,
        Err(NoMemory) => Reply::NoMemory,
    }
}

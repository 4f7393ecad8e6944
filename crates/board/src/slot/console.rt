//! What is done to the guest's console from outside: what is typed, and its size.

ghost use Rattle.std.specs.Prelude.{◌≡◌, ◌⊎◌, ℕ, List, []};
ghost use Rattle.guest_memory.specs.Memory.{SameRange};
ghost use Rattle.mmio_window.specs.declared.stage.Stage.{Stage};
ghost use Rattle.board.specs.declared.event.EventKind.{EventKind};
ghost use Rattle.board.specs.declared.pause.Turn.{Turn};
ghost use Rattle.board.specs.declared.reply.Reply.{Reply};
ghost use Rattle.board.specs.Image.{Health};
ghost use Rattle.board.specs.Machine.{with_input};
ghost use Rattle.board.specs.Pausing.{ComesTo, PausesByLimit, input_service, reply_of};
ghost use Rattle.board.specs.Slot.{state_of};
ghost use Rattle.board.specs.Quiet.{GivesQuietly};

use crate::pause::{Pause, Service, Turn};
use crate::reply::Reply;
use crate::slot::Slot;
use chain::Budget;
use mmio_window::Stage;
use std::alloc::Allocator;

impl<A: Allocator + Copy> Slot<A> {
    /// Takes what is typed, and serves the receive queue, which may pause where the budget is spent.
    pub(crate) fn input(&mut self, bytes: &[u8], budget: Budget) -> Turn<A>
        ensures comes { (image : List ℕ) (health : Health) →
            ComesTo (input_service self.old.pending bytes.now) Stage.First budget
            (with_input bytes.now (state_of image self.old)) health health (state_of image self.new) [] result }
        ensures rest { self.new ≡ record self.old {
          memory = self.new.memory;
          console = self.new.console;
          pending = self.new.pending;
        } }
        ensures range { SameRange self.old.memory self.new.memory }
        ensures limited { PausesByLimit budget result }
        ensures took { result ≡ Turn.More (input_service self.old.pending bytes.now)
            ⊎ result ≡ Turn.Answered (reply_of (input_service self.old.pending bytes.now)) }
    {
        let pause = Pause {
            service: Service::Receive,
            taken: Some(self.console_device.input(bytes)),
        };
        let progress = self.serve_receive(Stage::First, budget);
        pause.turn(progress)
    }

    /// Changes the size, of which the driver is told where there is one.
    pub(super) fn resize(&mut self, cols: u16, rows: u16) -> Reply<A>
        ensures given { GivesQuietly self.old (EventKind.Resize cols rows) self.new result }
        ensures rest { self.new ≡ record self.old { console = self.new.console; cols = cols; rows = rows } }
        ensures done { result ≡ Reply.Done }
    {
        self.console_device.resize(cols, rows);
        self.console.config_changed();
        Reply::Done
    }
}

//! The session: a board over an image in memory, and what its consoles put out. Where the host serves all disks the image is
//! empty.

ghost use Rattle.std.specs.Prelude.{◌≡◌, ◌≢◌, ◌⊎◌, ◌↔◌, ◌%◌, ◌/◌, ◌<◌, ◌≤◌, ℕ, None, Some, map, length, replicate, IsFalse, IsSome, IsTrue, IfNone, IfOk, IfSome, OnOk, IfErr, OnErr, IsErrAnd, IsErrOf};
ghost use Rattle.std.specs.List.{slice_get};
ghost use Rattle.std.specs.Vec.{vec_items};
ghost use Rattle.chain.specs.Budget.{IsSpent};
ghost use Rattle.board.specs.declared.fault.BoardFault.{BoardFault};
ghost use Rattle.sector_cache.specs.Disk.{new_disk};
ghost use Rattle.sector_cache.specs.MemoryImage.{disk_of};
ghost use Rattle.board.specs.Fault.{IsAccepted, Refuses};
ghost use Rattle.board.specs.Image.{bytes_of};
ghost use Rattle.board.specs.InPlace.{event_in};
ghost use Rattle.board.specs.Lent.{AreBytesOf, made_over, opened_over};
ghost use Rattle.board.specs.Slot.{BoardSlot, interrupt_words, opened};
ghost use Rattle.output_queue.specs.Waiting.{none_waiting};
ghost use Rattle.session.specs.declared.fault.SessionFault.{SessionFault};
ghost use Rattle.board.specs.declared.reply.Reply.{Reply};
ghost use Rattle.session.specs.declared.response.Response.{Response};
ghost use Rattle.session.specs.Pacing.{call_of, paused_at};
ghost use Rattle.session.specs.Answering.{SuitsCall, SuitsTurn};
ghost use Rattle.session.specs.Pausing.{IsCall, IsEventCall, IsWholeCall};
ghost use Rattle.session.specs.Session.{BeginsInPlace, IsIdle, new_session, new_session_over, plugged, slots_of, waits_at};
ghost use Rattle.session.specs.ImageDisks.{AreImageDisks};
ghost use Rattle.session.specs.Plugging.{AreBare};
ghost use Rattle.session.specs.Refusing.{AreDevices, AreOutlets, IsBoardFault, IsJudged, IsLentRefusedFor, IsRefusedFor};

mod console;
mod devices;
mod disk;
mod image;
mod memory;
mod registers;
mod saved;

use crate::fault::{SessionFault, why_not};
use crate::guest::{
    GuestSpec, are_bytes_of, are_devices, are_outlets, none_paused, outputs, slots,
};
use crate::image_disks::are_image_disks;
use crate::plugging::plug_devices;
use crate::response::{Response, Turned, note};
use crate::told::Waits;
use crate::turn_kind::TurnKind;
use board::{Board, Budget, InPlace, MemoryImage, Pause, Refused, Reply};
use output_queue::OutputQueue;
use sector_cache::are_whole_sectors;
use std::alloc::{AllocError, Allocator, Global};
use std::marker::Model;
use std_alloc::vec::Lodged;

/// Up to sixty-four guests over one image in memory. `new` makes all room: no other call takes memory.
#[derive(Drop)]
pub struct Session<A: Allocator = Global> {
    board: Board<MemoryImage<A>, A>,
    outputs: Vec<OutputQueue<A>, A>,
    // The service of each slot that is paused.
    paused: Vec<Option<Pause>, A>,
    budget: Budget,
}

impl<A: Allocator> Model for Session<A> {
    ghost use Rattle.std.specs.Prelude.{◌≡◌, length};
    ghost use Rattle.sector_cache.specs.MemoryImage.{disk_of as memory_disk_of};
    ghost use Rattle.board.specs.Image.{bytes_of};
    ghost use Rattle.session.specs.Session.{SessionState};

    ghost Value = { SessionState };

    ghost view = { λ s. record {
      slots = s.board.slots;
      image = bytes_of (memory_disk_of s.board.image);
      dirty = (memory_disk_of s.board.image).dirty;
      outputs = s.outputs.items;
      paused = s.paused.items;
      budget = s.budget;
    } };

    ghost invariant = { λ s. (length s.outputs.items ≡ length s.board.slots)
        × (length s.paused.items ≡ length s.board.slots) };
}

impl<A: Allocator + Copy> Session<A> {
    /// A session over a copy of these bytes, with these guests, their further devices and a cache of at most `cache` sectors
    /// before the image. Each call serves within the budget. Of a guest whose disk the host serves the extent's count alone is read.
    pub fn new(
        alloc: A,
        guests: &[GuestSpec],
        image: &[u8],
        cache: u32,
        budget: Budget,
    ) -> Result<Session<A>, SessionFault>
        ensures made { IfOk result (λ session. session ≡ new_session guests.now image.now budget) }
        ensures accepted { OnOk result (IsAccepted (length image.now / 512) (slots_of guests.now) cache) }
        ensures outlets { OnOk result (AreOutlets guests.now) }
        ensures devices { OnOk result (AreDevices guests.now) }
        ensures image_disks { OnOk result (AreImageDisks guests.now) }
        ensures lasts { OnOk result (¬ IsSpent budget) }
        ensures fault { IfErr result (IsRefusedFor guests.now image.now cache budget) }

        // exactly that fault, but that want of memory may come before the board's
        ensures bad_image { IsErrOf result SessionFault.BadImage ↔ (length image.now % 512 ≢ 0) }
        ensures bad_outlet { IsErrOf result SessionFault.BadOutlet ↔
            ((length image.now % 512 ≡ 0) × ¬ AreOutlets guests.now) }
        ensures bad_device { IsErrOf result SessionFault.BadDevice ↔
            ((length image.now % 512 ≡ 0) × AreOutlets guests.now × ¬ AreDevices guests.now) }
        ensures bad_extent { IsErrOf result SessionFault.BadExtent ↔
            ((length image.now % 512 ≡ 0) × AreOutlets guests.now × AreDevices guests.now × ¬ AreImageDisks guests.now) }
        ensures spent { IsErrOf result SessionFault.SpentBudget ↔
            ((length image.now % 512 ≡ 0) × AreOutlets guests.now × AreDevices guests.now × AreImageDisks guests.now
            × IsSpent budget) }
        ensures bad_board { (fault : BoardFault) → IsBoardFault guests.now image.now cache budget fault →
            IsErrAnd result (λ why. (why ≡ SessionFault.Board fault) ⊎ (why ≡ SessionFault.NoMemory)) }
    {
        judge(guests, image, budget)?;
        let board = board_of(alloc, guests, None, image, cache, budget)?;
        Session::of_board(alloc, guests, board, budget)
    }

    /// A session as `new` makes it, whose guests' memories' bytes a host lends: those of each region, guest by guest. None is
    /// copied, read or written, then or at the end.
    pub fn over_lent(
        alloc: A,
        guests: &[GuestSpec],
        bytes: Vec<Vec<u8, Lodged>, A>,
        image: &[u8],
        cache: u32,
        budget: Budget,
    ) -> Result<Session<A>, SessionFault>
        ensures made { IfOk result (λ session.
            session ≡ new_session_over guests.now (map vec_items bytes.items) image.now budget) }
        ensures lent { OnOk result (AreBytesOf (slots_of guests.now) (map vec_items bytes.items)) }
        ensures accepted { OnOk result (IsAccepted (length image.now / 512) (slots_of guests.now) cache) }
        ensures outlets { OnOk result (AreOutlets guests.now) }
        ensures devices { OnOk result (AreDevices guests.now) }
        ensures image_disks { OnOk result (AreImageDisks guests.now) }
        ensures lasts { OnOk result (¬ IsSpent budget) }
        ensures fault { IfErr result (IsLentRefusedFor guests.now (map vec_items bytes.items) image.now cache budget) }

        // exactly that fault, but that want of memory may come before the board's, and by `fault` before no other
        ensures exact { (why : SessionFault) → why ≢ SessionFault.NoMemory →
            IsLentRefusedFor guests.now (map vec_items bytes.items) image.now cache budget why →
            IsErrAnd result (λ told. (told ≡ why) ⊎ (told ≡ SessionFault.NoMemory)) }
    {
        if !are_bytes_of(guests, &bytes) {
            return Err(SessionFault::BadLoan);
        }
        judge(guests, image, budget)?;
        let board = board_of(alloc, guests, Some(bytes), image, cache, budget)?;
        Session::of_board(alloc, guests, board, budget)
    }

    // A session of a board of these guests, which get their further devices. Nothing is put out or paused.
    fn of_board(
        alloc: A,
        guests: &[GuestSpec],
        mut board: Board<MemoryImage<A>, A>,
        budget: Budget,
    ) -> Result<Session<A>, SessionFault>
        requires bare { AreBare guests.now board.slots }
        requires few { length guests.now ≤ 64 }
        requires devices { AreDevices guests.now }
        requires image_disks { AreImageDisks guests.now }
        ensures made { IfOk result (λ session. session ≡ record {
          slots = plugged guests.now board.slots;
          image = bytes_of (disk_of board.image);
          dirty = (disk_of board.image).dirty;
          outputs = map (λ guest. none_waiting guest.outlet) guests.now;
          paused = replicate (length guests.now) None;
          budget = budget;
        }) }
        ensures fault { IfErr result (λ why. why ≡ SessionFault.NoMemory) }
    {
        plug_devices(&mut board, guests)?;
        let Ok(outputs) = outputs(alloc, guests) else {
            return Err(SessionFault::NoMemory);
        };
        match none_paused(alloc, guests) {
            Ok(paused) => Ok(Session {
                board,
                outputs,
                paused,
                budget,
            }),
            Err(AllocError) => Err(SessionFault::NoMemory),
        }
    }

    // A slot takes a turn: an event begins, to its end or up to a pause, or its paused service goes on.
    #[inline(always)]
    fn turn(&mut self, slot: u8, kind: TurnKind<'_, A>) -> Turned<A>
        requires { BeginsInPlace kind }
        ensures call { IsCall self.old (call_of slot kind.entry) result.response self.new }
        ensures whole { IsWholeCall self.old (call_of slot kind.entry) result.response self.new }
        ensures suits { SuitsTurn kind.entry result.response }
        ensures as_many { length self.old.paused ≡ length self.old.slots }
        ensures waits { result.waits ≡ waits_at slot self.new }
    {
        let Some(paused) = self.waiting(slot) else {
            return self.unmoved(slot, Response::Answered(Reply::BadSlot));
        };
        match kind.work(paused) {
            Ok(work) => {
                let output = &mut self.outputs[slot as usize];
                let taken = self.board.turn(slot, work, self.budget, output);
                let output = output.len();
                let response = note(&mut self.paused[slot as usize], taken.turn);
                let waits = Waits {
                    block_irq: taken.block_irq,
                    console_irq: taken.console_irq,
                    output,
                };
                Turned {
                    response,
                    waits: Some(waits),
                }
            }
            Err(response) => self.unmoved(slot, response),
        }
    }

    // Begins an event of a slot whose bytes are in a slice.
    #[inline(always)]
    fn begin_in_place(&mut self, slot: u8, what: InPlace<'_>) -> Turned<A>
        ensures call { IsEventCall self.old slot (event_in what.entry) result.response self.new }
        ensures suits { SuitsCall (event_in what.entry) result.response }
        ensures as_many { length self.old.paused ≡ length self.old.slots }
        ensures waits { result.waits ≡ waits_at slot self.new }
    {
        self.turn(slot, TurnKind::InPlace(what))
    }
}

impl<A: Allocator> Session<A> {
    // What waits for a slot that shows these interrupt words.
    fn waits(&self, slot: u8, block_irq: u8, console_irq: u8) -> Option<Waits>
        requires shown { (found : BoardSlot) → slice_get self.now.slots slot ≡ Some found →
            (block_irq, console_irq) ≡ interrupt_words found }
        ensures { result ≡ waits_at slot self.now }
    {
        let output = self.outputs.get(slot as usize)?;
        Some(Waits {
            block_irq,
            console_irq,
            output: output.len(),
        })
    }

    // A call that changes nothing comes to this.
    fn unmoved(&self, slot: u8, response: Response<A>) -> Turned<A>
        ensures response { result.response ≡ response }
        ensures waits { result.waits ≡ waits_at slot self.now }
    {
        let waits = match self.board.interrupts(slot) {
            Some((block_irq, console_irq)) => self.waits(slot, block_irq, console_irq),
            None => None,
        };
        Turned { response, waits }
    }

    // What is paused of the slot, where there is one.
    #[inline(always)]
    fn waiting(&self, slot: u8) -> Option<Option<Pause>>
        ensures value { result ≡ slice_get self.now.paused slot }
        ensures there { IsSome result ↔ (slot < length self.now.slots) }
    {
        self.paused.get(slot as usize).copied()
    }

    // The service of the slot that is paused, if one is. There is none for a slot that isn't there.
    #[inline(always)]
    fn paused(&self, slot: u8) -> Option<Pause>
        ensures value { result ≡ paused_at self.now.paused slot }
        ensures there { IsSome result → slot < length self.now.slots }
    {
        self.waiting(slot)?
    }

    /// Whether a service of the slot is paused: then each call for the slot is busy, but `go_on`, and those that tell
    /// its interrupts and take its output.
    #[inline(always)]
    pub fn is_paused(&self, slot: u8) -> bool
        ensures idle { IsFalse result ↔ IsIdle slot self.now }
        ensures there { IsTrue result → slot < length self.now.slots }
    {
        self.paused(slot).is_some()
    }
}

// Judges what is judged before the board.
fn judge(guests: &[GuestSpec], image: &[u8], budget: Budget) -> Result<(), SessionFault>
    ensures good { OnOk result (IsJudged guests.now image.now budget) }
    ensures bad { OnErr result (¬ IsJudged guests.now image.now budget) }
    ensures fault { IfErr result (λ why. (cache : ℕ) → IsRefusedFor guests.now image.now cache budget why) }
{
    if !are_whole_sectors(image.len() as u64) {
        return Err(SessionFault::BadImage);
    }
    if !are_outlets(guests) {
        return Err(SessionFault::BadOutlet);
    }
    if !are_devices(guests) {
        return Err(SessionFault::BadDevice);
    }
    if !are_image_disks(guests) {
        return Err(SessionFault::BadExtent);
    }
    if budget.is_spent() {
        return Err(SessionFault::SpentBudget);
    }
    Ok(())
}

// The board of the guests' slots, without their further devices, over a copy of the image's bytes. Their memories are over
// bytes that a host lends, if it does.
fn board_of<A: Allocator + Copy>(
    alloc: A,
    guests: &[GuestSpec],
    lent: Option<Vec<Vec<u8, Lodged>, A>>,
    image: &[u8],
    cache: u32,
    budget: Budget,
) -> Result<Board<MemoryImage<A>, A>, SessionFault>
    requires lent { IfSome lent (λ bytes. AreBytesOf (slots_of guests.now) (map vec_items bytes.items)) }
    requires judged { IsJudged guests.now image.now budget }
    ensures slots { IfNone lent (IfOk result (λ board. board.slots ≡ map opened (slots_of guests.now))) }
    ensures lent_slots { IfSome lent (λ bytes. IfOk result (λ board.
        board.slots ≡ made_over opened_over (slots_of guests.now) (map vec_items bytes.items))) }
    ensures image { IfOk result (λ board. disk_of board.image ≡ new_disk image.now) }
    ensures accepted { OnOk result (IsAccepted (length image.now / 512) (slots_of guests.now) cache) }
    ensures fault { IfErr result (λ why. IsRefusedFor guests.now image.now cache budget why) }
    ensures bad_board { (fault : BoardFault) → fault ≢ BoardFault.NoMemory →
        Refuses (length image.now / 512) (slots_of guests.now) cache fault →
        IsErrAnd result (λ why. (why ≡ SessionFault.Board fault) ⊎ (why ≡ SessionFault.NoMemory)) }
{
    let Ok(slots) = slots(alloc, guests) else {
        return Err(SessionFault::NoMemory);
    };
    let image = image_of(alloc, image)?;
    match lent {
        None => match Board::new(alloc, &slots, image, cache) {
            Ok(board) => Ok(board),
            Err(Refused { image: _, why }) => Err(why_not(why)),
        },
        Some(bytes) => match Board::over_lent(alloc, &slots, bytes, image, cache) {
            Ok(board) => Ok(board),
            Err(Refused { image: _, why }) => Err(why_not(why)),
        },
    }
}

// An image of a copy of these bytes.
fn image_of<A: Allocator + Copy>(alloc: A, image: &[u8]) -> Result<MemoryImage<A>, SessionFault>
    requires whole { length image.now % 512 ≡ 0 }
    ensures made { IfOk result (λ made. disk_of made ≡ new_disk image.now) }
    ensures fault { IfErr result (λ why. why ≡ SessionFault.NoMemory) }
{
    let Ok(bytes) = Vec::from_slice(alloc, image) else {
        return Err(SessionFault::NoMemory);
    };
    let Ok(image) = MemoryImage::new(bytes) else {
        unreachable!()
    };
    Ok(image)
}

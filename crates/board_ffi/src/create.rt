//! A board is made of what C describes, and destroyed.

ghost use Rattle.std.specs.Prelude.{◌≡◌, ◌≢◌, ◌⊎◌, ◌↔◌, [], All, Some, None, MatchOption, IfSome, IfOk, IfErr, OnOk, true, false};
ghost use Rattle.board_ffi.specs.Config.{IsGood, IsRefused, IsSized, IsVerdict, StandStill, Verdict, session_of, verdict_code};
ghost use Rattle.board_ffi.specs.Create.{IsMade, IsRefusal, Refuses, TakesFront, TakesLoans};

use crate::codes::{BAD_SIZE, DONE, HAS_BOARD, NO_BOARD, RUNS_ON, of_fault};
use crate::config::{Config, is_sized};
use crate::handle::Handle;
use crate::slot::{are_devices, are_image_disks, are_outlets, guests, stand_still};
use c_values::taken;
use sector_cache::are_whole_sectors;
use session::{Session, SessionFault};
use std::alloc::Global;

/// Makes a board of a config, and puts it into an empty handle. Each loan is taken, and an empty one left.
#[tactic(auto, using(c_values::proofs::OneByOne::none_taken))]
#[unsafe(no_mangle)]
pub extern "C" fn kalyubos_create(alloc: Global, board: &mut Handle, config: &mut Config<'_>) -> u32
    ensures full { IfSome board.old.session (λ old. (result ≡ 2) × (board.new.session ≡ Some old)) }
    ensures bad_size { board.old.session ≡ None → ((result ≡ 17) ↔ ¬ IsSized config.old) }
    ensures runs_on { board.old.session ≡ None →
        ((result ≡ 34) ↔ (IsSized config.old × ¬ StandStill config.old.slots.now)) }
    ensures made { board.old.session ≡ None → result ≡ 0 → IsMade config.old board.new.session }
    ensures none { board.old.session ≡ None → result ≢ 0 → board.new.session ≡ None }
    ensures why { board.old.session ≡ None → result ≢ 0 → result ≢ 17 → result ≢ 34 → Refuses config.old result }

    // the number of the verdict, but that want of memory may come in its place
    ensures verdict { board.old.session ≡ None → (verdict : Verdict) → IsVerdict config.old verdict →
        (result ≡ verdict_code verdict) ⊎ (result ≡ 5) }
    ensures loans { TakesLoans config.old.loans.now config.new.loans.now board.old.session result }
    ensures kept { config.new ≡ record config.old { loans = config.new.loans } }
{
    if is_full(board) {
        return HAS_BOARD;
    }
    if !is_sized(config.size, config.slots) {
        return BAD_SIZE;
    }
    if !stand_still(config.slots) {
        return RUNS_ON;
    }
    match boxed(alloc, config) {
        Ok(session) => {
            board.put(session);
            DONE
        }
        Err(why) => of_fault(why),
    }
}

// Whether a handle holds a board.
fn is_full(board: &mut Handle) -> bool
    ensures value { MatchOption board.old.session (result ≡ false) (λ _. result ≡ true) }
    ensures kept { board.new.session ≡ board.old.session }
{
    match board.session() {
        Some(_) => true,
        None => false,
    }
}

/// Ends the board, gives its memory back, and leaves the handle empty.
#[unsafe(no_mangle)]
pub extern "C" fn kalyubos_destroy(alloc: Global, board: &mut Handle) -> u32
    ensures answer { MatchOption board.old.session (result ≡ 1) (λ _. result ≡ 0) }
    ensures empty { board.new.session ≡ None }
{
    if board.session().is_none() {
        return NO_BOARD;
    }
    *board = Handle::empty(alloc);
    DONE
}

// The session that a config describes, in a box.
#[tactic(auto, using(crate::proofs::Configs::good_wants))]
fn boxed(alloc: Global, config: &mut Config<'_>) -> Result<Box<Session>, SessionFault>
    ensures made { IfOk result (λ session. session.value ≡ session_of config.old) }
    ensures good { OnOk result (IsGood config.old) }
    ensures fault { IfErr result (IsRefusal config.old) }
    ensures left { OnOk result (All (λ loan. loan.items ≡ []) config.new.loans.now) }
    ensures front { TakesFront config.old.loans.now config.new.loans.now }
    ensures kept { config.new ≡ record config.old { loans = config.new.loans } }
{
    let session = session(alloc, config)?;
    match Box::new(alloc, session) {
        Ok(session) => Ok(session),
        Err(_) => Err(SessionFault::NoMemory),
    }
}

// The session that a config describes.
#[tactic(auto, using(c_values::proofs::OneByOne::none_taken))]
fn session(alloc: Global, config: &mut Config<'_>) -> Result<Session, SessionFault>
    ensures made { IfOk result (λ session. session ≡ session_of config.old) }
    ensures good { OnOk result (IsGood config.old) }
    ensures fault { IfErr result (IsRefusal config.old) }
    ensures left { OnOk result (All (λ loan. loan.items ≡ []) config.new.loans.now) }
    ensures front { TakesFront config.old.loans.now config.new.loans.now }
    ensures kept { config.new ≡ record config.old { loans = config.new.loans } }
{
    if config.is_lent() {
        return over_lent(alloc, config);
    }
    over_own(alloc, config)
}

// A session over memory of its own.
fn over_own(alloc: Global, config: &Config<'_>) -> Result<Session, SessionFault>
    requires { config.now.loans.now ≡ [] }
    ensures made { IfOk result (λ session. session ≡ session_of config.now) }
    ensures good { OnOk result (IsGood config.now) }
    ensures fault { IfErr result (IsRefused config.now) }
{
    if !are_whole_sectors(config.image.len() as u64) {
        return Err(SessionFault::BadImage);
    }
    if !are_outlets(config.slots) {
        return Err(SessionFault::BadOutlet);
    }
    if !are_devices(config.slots) {
        return Err(SessionFault::BadDevice);
    }
    if !are_image_disks(config.slots) {
        return Err(SessionFault::BadExtent);
    }
    let Ok(guests) = guests(alloc, config.slots) else {
        return Err(SessionFault::NoMemory);
    };
    Session::new(alloc, &guests, config.image, config.cache, config.budget())
}

// A session over the lent bytes.
fn over_lent(alloc: Global, config: &mut Config<'_>) -> Result<Session, SessionFault>
    requires { config.now.loans.now ≢ [] }
    ensures made { IfOk result (λ session. session ≡ session_of config.old) }
    ensures good { OnOk result (IsGood config.old) }
    ensures fault { IfErr result (IsRefusal config.old) }
    ensures left { OnOk result (All (λ loan. loan.items ≡ []) config.new.loans.now) }
    ensures front { TakesFront config.old.loans.now config.new.loans.now }
    ensures kept { config.new ≡ record config.old { loans = config.new.loans } }
{
    let Ok(guests) = guests(alloc, config.slots) else {
        return Err(SessionFault::NoMemory);
    };
    let Ok(bytes) = taken(alloc, config.loans) else {
        return Err(SessionFault::NoMemory);
    };
    Session::over_lent(
        alloc,
        &guests,
        bytes,
        config.image,
        config.cache,
        config.budget(),
    )
}

//! A guest that runs on is made of what C describes, and destroyed.

ghost use Rattle.std.specs.Prelude.{◌≡◌, ◌≢◌, [], All, Some, None, MatchOption, IfErr, IfOk, IfSome, OnOk, false, true};
ghost use Rattle.racing_session.specs.declared.fault.RacingFault.{RacingFault};
ghost use Rattle.racing_session.specs.Judging.{IsAccepted};
ghost use Rattle.racing_ffi.specs.Config.{lent_words, made_session, spec_of};
ghost use Rattle.racing_ffi.specs.Create.{IsMade, IsRefusal, Refuses, TakesFront, TakesWords};

use crate::codes::{DONE, HAS_BOARD, NO_BOARD, of_fault};
use crate::config::GuestConfig;
use crate::device::add_each;
use crate::handle::GuestHandle;
use c_values::taken;
use racing_session::{RacingFault, RacingSession};
use std::alloc::Global;

/// Makes a guest of a config, and puts it into an empty handle. Each loan of words is taken, and an empty one left.
#[unsafe(no_mangle)]
pub extern "C" fn kalyubos_guest_create(
    alloc: Global,
    guest: &mut GuestHandle,
    config: &mut GuestConfig<'_>,
) -> u32
    ensures full { IfSome guest.old.session (λ old. (result ≡ 2) × (guest.new.session ≡ Some old)) }
    ensures made { guest.old.session ≡ None → result ≡ 0 → IsMade config.old guest.new.session }
    ensures none { guest.old.session ≡ None → result ≢ 0 → guest.new.session ≡ None }
    ensures why { guest.old.session ≡ None → result ≢ 0 → Refuses config.old result }
    ensures words { TakesWords config.old.words.now config.new.words.now guest.old.session result }
    ensures kept { config.new ≡ record config.old { words = config.new.words } }
{
    if is_full(guest) {
        return HAS_BOARD;
    }
    let code = config.judged();
    if code != DONE {
        return code;
    }
    match boxed(alloc, config) {
        Ok(session) => {
            guest.put(session);
            DONE
        }
        Err(why) => of_fault(why),
    }
}

// Whether a handle holds a guest.
fn is_full(guest: &mut GuestHandle) -> bool
    ensures value { MatchOption guest.old.session (result ≡ false) (λ _. result ≡ true) }
    ensures kept { guest.new.session ≡ guest.old.session }
{
    match guest.session() {
        Some(_) => true,
        None => false,
    }
}

/// Ends the guest, gives its memory back, and leaves the handle empty.
#[unsafe(no_mangle)]
pub extern "C" fn kalyubos_guest_destroy(alloc: Global, guest: &mut GuestHandle) -> u32
    ensures answer { MatchOption guest.old.session (result ≡ 1) (λ _. result ≡ 0) }
    ensures empty { guest.new.session ≡ None }
{
    if guest.session().is_none() {
        return NO_BOARD;
    }
    *guest = GuestHandle::empty(alloc);
    DONE
}

// The session that a config describes, in a box.
fn boxed(alloc: Global, config: &mut GuestConfig<'_>) -> Result<Box<RacingSession>, RacingFault>
    ensures made { IfOk result (λ session. session.value ≡ made_session config.old) }
    ensures accepted { OnOk result (IsAccepted (spec_of config.old) (lent_words config.old.words.now)) }
    ensures fault { IfErr result (IsRefusal config.old) }
    ensures lasts { IfErr result (λ why. why ≢ RacingFault.SpentLimits) }
    ensures left { OnOk result (All (λ loan. loan.items ≡ []) config.new.words.now) }
    ensures front { TakesFront config.old.words.now config.new.words.now }
    ensures kept { config.new ≡ record config.old { words = config.new.words } }
{
    let Ok(words) = taken(alloc, config.words) else {
        return Err(RacingFault::NoMemory);
    };
    let mut session = RacingSession::new(alloc, &config.spec(), words)?;
    add_each(alloc, &mut session, &config.slot.devices)?;
    match Box::new(alloc, session) {
        Ok(session) => Ok(session),
        Err(_) => Err(RacingFault::NoMemory),
    }
}

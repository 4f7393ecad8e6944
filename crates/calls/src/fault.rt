//! Why a call did not come to its end.

use replay::ReplayFault;
use thiserror::Error;

/// Why a call did not come to its end.
#[derive(Clone, Copy, Debug, PartialEq, Eq, Error)]
pub enum Fault {
    /// The words name no call.
    #[error("the words name no call")]
    Usage,
    /// What stopped the replay or the work round it: `Read` is also an image that can't be read or whose
    /// length is no multiple of 512, `Write` a file that can't be saved to, and `NoMemory` want of memory
    /// for the words or the image.
    #[error(transparent)]
    Replay(ReplayFault),
}

impl From<ReplayFault> for Fault {
    ghost use Rattle.std.specs.Prelude.{◌≡◌};
    ghost use Rattle.calls.specs.declared.fault.Fault.TheVariants.{Replay};

    ghost from_gives = { λ fault result. result ≡ Replay fault };

    fn from(fault: ReplayFault) -> Fault {
        Fault::Replay(fault)
    }
}

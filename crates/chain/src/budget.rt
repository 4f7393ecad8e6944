//! How much of a service may be done before it pauses.

ghost use Rattle.std.specs.Prelude.{◌≡◌, ◌↔◌, IsTrue};
ghost use Rattle.chain.specs.Budget.{IsSpent, less_chain};

use crate::buffers::Chain;

/// What is left of the work that a piece of a service may do. Where nothing is left of either number, the service
/// pauses before its next chain.
#[derive(Clone, Copy, Debug, PartialEq, Eq)]
pub struct Budget {
    /// How many chains may be served: `None` for any number.
    pub chains: Option<u32>,
    /// How many bytes their buffers may have in all, the last chain's not counted: `None` for any number.
    pub bytes: Option<u64>,
}

/// How a piece of a service came out.
#[derive(Clone, Copy, Debug, PartialEq, Eq)]
pub enum Progress {
    /// It paused before a chain that is on offer.
    More,
    /// It went to the end of the service.
    Done,
}

impl Budget {
    /// One without limits: a service never pauses.
    pub const UNLIMITED: Budget = Budget {
        chains: None,
        bytes: None,
    };

    /// Whether nothing is left.
    pub fn is_spent(&self) -> bool
        ensures { IsTrue result ↔ IsSpent self.now }
    {
        self.chains == Some(0) || self.bytes == Some(0)
    }

    /// Takes off what one chain costs.
    pub fn spend(&mut self, chain: &Chain)
        ensures { self.new ≡ less_chain self.old chain.now }
    {
        if let Some(chains) = &mut self.chains {
            *chains = chains.saturating_sub(1);
        }
        if let Some(bytes) = &mut self.bytes {
            *bytes = bytes.saturating_sub(chain.total_len());
        }
    }
}

//! Which requests are refused, over plain values. A heap keeps one in a cell, into which no clause sees, so each rule is stated
//! and proved here.

ghost use Rattle.std.specs.Prelude.{◌≡◌, ◌+◌, ◌-◌, ◌^◌, ◌↔◌, IsTrue, min};
ghost use Rattle.test_support.specs.Refusal.{HasCome, IsRefused};

/// Which requests are refused, and how many came.
#[derive(Clone, Copy)]
pub struct Refusal {
    /// The first request that is refused, or 0 for none.
    pub first: u64,
    /// The last one.
    pub last: u64,
    /// How many requests came since both were set.
    pub requests: u64,
}

impl Refusal {
    pub fn new(first: u64, last: u64) -> Refusal
        ensures { result ≡ record { first = first; last = last; requests = 0 } }
    {
        Refusal {
            first,
            last,
            requests: 0,
        }
    }

    /// One more request has come. A count that fills its 64 bits stays, and so does the refusal.
    pub fn with_request(self) -> Refusal
        ensures counted { result ≡ record self { requests = min (self.requests + 1) (2 ^ 64 - 1) } }
        ensures stays_come { HasCome self.first self.requests → HasCome result.first result.requests }
        ensures stays_refused { self.last ≡ 2 ^ 64 - 1 → IsRefused self.first self.last self.requests →
            IsRefused result.first result.last result.requests }
    {
        Refusal {
            requests: self.requests.saturating_add(1),
            ..self
        }
    }

    /// Whether a refused request has come.
    pub fn has_come(self) -> bool
        ensures { IsTrue result ↔ HasCome self.first self.requests }
    {
        self.first != 0 && self.first <= self.requests
    }

    /// Whether the request that came last is refused.
    pub fn refuses(self) -> bool
        ensures { IsTrue result ↔ IsRefused self.first self.last self.requests }
    {
        self.has_come() && self.requests <= self.last
    }
}

//! Laws of the definitions. The bodies are empty: each contract is a theorem. Some are literal values of the standard.

ghost use Rattle.std.specs.Prelude.{◌≡◌, ◌++◌, true, false, [], ◌∷◌, Some, None, replicate};
ghost use Rattle.chain.specs.Service.{HasAtMostOneAnswer};
ghost use Rattle.network_device.specs.declared.limits.Limits.{Limits};
ghost use Rattle.network_device.specs.declared.refusal.FrameRefusal.TheVariants.{Empty, Full, TooLong};
ghost use Rattle.network_device.specs.Config.{configuration_of, offered};
ghost use Rattle.network_device.specs.Device.{Delivers, passing, receive, transmit, transmitted};
ghost use Rattle.network_device.specs.Header.{receive_header};
ghost use Rattle.network_device.specs.Network.{refusal};

/// Bits 3, 5 and 16.
pub fn features_in_bits()
    ensures { offered ≡ 65576 }
{}

/// The address 52:54:00:12:34:56 with an MTU of 1500, which is 05dc.
pub fn configuration_in_bytes()
    ensures up { configuration_of (record { mac = 82 ∷ 84 ∷ 0 ∷ 18 ∷ 52 ∷ 86 ∷ []; link_up = true; mtu = 1500 })
        ≡ 82 ∷ 84 ∷ 0 ∷ 18 ∷ 52 ∷ 86 ∷ 1 ∷ 0 ∷ 0 ∷ 0 ∷ 220 ∷ 5 ∷ [] }
    ensures down { configuration_of (record { mac = 82 ∷ 84 ∷ 0 ∷ 18 ∷ 52 ∷ 86 ∷ []; link_up = false; mtu = 1500 })
        ≡ 82 ∷ 84 ∷ 0 ∷ 18 ∷ 52 ∷ 86 ∷ 0 ∷ 0 ∷ 0 ∷ 0 ∷ 220 ∷ 5 ∷ [] }
{}

/// Twelve bytes, of which num_buffers is 1.
pub fn header_in_bytes()
    ensures { receive_header ≡ 0 ∷ 0 ∷ 0 ∷ 0 ∷ 0 ∷ 0 ∷ 0 ∷ 0 ∷ 0 ∷ 0 ∷ 1 ∷ 0 ∷ [] }
{}

/// Each queue has at most one answer to a chain.
pub fn one_answer()
    ensures receive { HasAtMostOneAnswer receive }
    ensures transmit { (limits : Limits) → HasAtMostOneAnswer (transmit limits) }
{}

/// A frame of two bytes goes out of a chain of 14, whatever its header is. A chain of 12 bytes has none, and one of 9
/// passes a limit of 8: both are dropped. A chain of 15 places passes over a frame of four bytes, and gets one of two.
pub fn chains_in_bytes()
    ensures sent { transmitted (record { bytes = 8; frames = 2 }) (passing [] 0) (replicate 12 255 ++ 170 ∷ 187 ∷ []) 1
        ≡ record { state = passing ((170 ∷ 187 ∷ []) ∷ []) 0; written = None ∷ [] } }
    ensures no_frame { transmitted (record { bytes = 8; frames = 2 }) (passing [] 0) (replicate 12 255) 0
        ≡ record { state = passing [] 1; written = [] } }
    ensures too_long { transmitted (record { bytes = 8; frames = 2 }) (passing [] 0) (replicate 21 255) 0
        ≡ record { state = passing [] 1; written = [] } }
    ensures received { Delivers (passing ((1 ∷ 2 ∷ 3 ∷ 4 ∷ []) ∷ (170 ∷ 187 ∷ []) ∷ []) 0) 15 (record {
      state = passing [] 1;
      written = Some 0 ∷ Some 0 ∷ Some 0 ∷ Some 0 ∷ Some 0 ∷ Some 0 ∷ Some 0 ∷ Some 0 ∷ Some 0 ∷ Some 0 ∷ Some 1 ∷ Some 0
          ∷ Some 170 ∷ Some 187 ∷ None ∷ [];
    }) }
{}

/// With an MTU of 68 a frame has from 1 to 82 bytes, and waits where one more fits.
pub fn refusals_in_bytes()
    ensures empty { refusal (record {
      configuration = record { mac = replicate 6 0; link_up = true; mtu = 68 };
      waiting = passing ((0 ∷ []) ∷ []) 0;
      limits = record { bytes = 100; frames = 2 };
      dropped = 0;
    }) [] ≡ Some Empty }
    ensures fits { refusal (record {
      configuration = record { mac = replicate 6 0; link_up = true; mtu = 68 };
      waiting = passing ((0 ∷ []) ∷ []) 0;
      limits = record { bytes = 100; frames = 2 };
      dropped = 0;
    }) (replicate 82 0) ≡ None }
    ensures too_long { refusal (record {
      configuration = record { mac = replicate 6 0; link_up = true; mtu = 68 };
      waiting = passing ((0 ∷ []) ∷ []) 0;
      limits = record { bytes = 100; frames = 2 };
      dropped = 0;
    }) (replicate 83 0) ≡ Some TooLong }
    ensures full { refusal (record {
      configuration = record { mac = replicate 6 0; link_up = true; mtu = 68 };
      waiting = passing ((0 ∷ []) ∷ []) 0;
      limits = record { bytes = 100; frames = 1 };
      dropped = 0;
    }) (0 ∷ []) ≡ Some Full }
{}

//! The field that says a network card.

ghost use Rattle.std.specs.Prelude.{ℕ, List, IfNone, IfSome, OnSome};
ghost use Rattle.device_list.specs.declared.spec.DeviceSpec.{DeviceSpec};
ghost use Rattle.trace.specs.Words.{IsAddressField, IsCardField, IsKindField, Kind, Says};

use crate::read::bytes_of::fill;
use crate::read::cut::behind;
use board::DeviceSpec;
use hexadecimal::number_u16;

/// How many bytes the address of a card has (5.1.4), and how many digits spell them.
const ADDRESS_LEN: usize = 6;

const ADDRESS_DIGITS: usize = 2 * ADDRESS_LEN;

/// The network card that a field says: behind its word stand its address and its MTU.
pub(crate) fn card_of(field: &[u8]) -> Option<DeviceSpec>
    ensures some { IfSome result (λ spec. IsKindField field.now spec) }
    ensures parsed { OnSome result (Says Kind field.now) }
    ensures none { IfNone result ((mac : List ℕ) (mtu : ℕ) → ¬ IsKindField field.now (DeviceSpec.Network mac mtu)) }
{
    let rest = behind(field, b"network:")?;
    let (mac, mtu) = address_and_mtu(rest)?;
    Some(DeviceSpec::Network { mac, mtu })
}

// The address and the MTU that stand with a colon between them.
fn address_and_mtu(field: &[u8]) -> Option<([u8; ADDRESS_LEN], u16)>
    ensures some { IfSome result (λ x. IsCardField field.now x.0 x.1) }
    ensures none { IfNone result ((mac : List ℕ) (mtu : ℕ) → ¬ IsCardField field.now mac mtu) }
{
    if field.len() <= ADDRESS_DIGITS || field[ADDRESS_DIGITS] != b':' {
        return None;
    }
    let mac = address_of(&field[..ADDRESS_DIGITS])?;
    let mtu = number_u16(&field[ADDRESS_DIGITS + 1..])?;
    Some((mac, mtu))
}

// The address that a field spells by two digits for each of its bytes.
fn address_of(field: &[u8]) -> Option<[u8; ADDRESS_LEN]>
    ensures some { IfSome result (λ mac. IsAddressField field.now mac) }
    ensures none { IfNone result ((mac : List ℕ) → ¬ IsAddressField field.now mac) }
{
    let mut mac = [0; ADDRESS_LEN];
    fill(&mut mac, field)?;
    Some(mac)
}

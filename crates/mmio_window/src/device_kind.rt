//! The types of device: which queues each has, and whether its configuration changes.

ghost use Rattle.std.specs.Prelude.{◌≡◌};
ghost use Rattle.mmio_window.specs.DeviceKind.{configuration_changes, device_id_of, queue_of};

/// The type of the device behind a window.
#[derive(Clone, Copy, PartialEq, Eq, Debug)]
pub enum DeviceKind {
    /// A network card (5.1), with queue 0 to receive and queue 1 to transmit.
    Network,
    /// A block device (5.2), with queue 0 for requests.
    Block,
    /// A console (5.3), with queue 0 to receive and queue 1 to transmit.
    Console,
    /// An entropy device (5.4), with queue 0 for requests.
    Entropy,
}

/// A queue that some device has.
#[derive(Clone, Copy)]
pub(crate) enum QueueIndex {
    Queue0,
    Queue1,
}

impl DeviceKind {
    /// The device type, as DeviceID shows it.
    pub(crate) fn id(self) -> u32
        ensures { result ≡ device_id_of self }
    {
        match self {
            DeviceKind::Network => 1,
            DeviceKind::Block => 2,
            DeviceKind::Console => 3,
            DeviceKind::Entropy => 4,
        }
    }

    /// The queue of this number, if the device has it.
    pub(crate) fn queue(self, q: u32) -> Option<QueueIndex>
        ensures { result ≡ queue_of self q }
    {
        match (q, self) {
            (0, _) => Some(QueueIndex::Queue0),
            (1, DeviceKind::Network | DeviceKind::Console) => Some(QueueIndex::Queue1),
            _ => None,
        }
    }

    /// Whether the configuration changes.
    pub(crate) fn changes_configuration(self) -> bool
        ensures { result ≡ configuration_changes self }
    {
        matches!(self, DeviceKind::Network | DeviceKind::Console)
    }
}

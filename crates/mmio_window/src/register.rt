//! The table of registers: each control register's name and offset, once and in the standard's order.

ghost use Rattle.std.specs.Prelude.{◌≡◌};
ghost use Rattle.mmio_window.specs.Ready.{may_stop_queues};
ghost use Rattle.mmio_window.specs.Registers.{register_at};

/// A control register of a window (4.2.2). Reading and writing go by cases on it, in the same order.
#[derive(Clone, Copy, PartialEq, Eq, Debug)]
pub enum Register {
    /// R. The bytes "virt".
    MagicValue,
    /// R. The version of the interface.
    Version,
    /// R. The device type.
    DeviceId,
    /// R. Whose device this is.
    VendorId,
    /// R. The word of the offered features that DeviceFeaturesSel selects.
    DeviceFeatures,
    /// W. The selector of DeviceFeatures.
    DeviceFeaturesSel,
    /// W. The word of the accepted features that DriverFeaturesSel selects.
    DriverFeatures,
    /// W. The selector of DriverFeatures.
    DriverFeaturesSel,
    /// W. The queue of which the other queue registers speak.
    QueueSel,
    /// R. The largest size of the queue, or 0 where there is no such queue.
    QueueNumMax,
    /// W. The size of the queue.
    QueueNum,
    /// R W. Whether the queue is ready.
    QueueReady,
    /// W. The queue that has new buffers.
    QueueNotify,
    /// R. The reasons of interrupts that stand.
    InterruptStatus,
    /// W. The reasons of interrupts that are cleared.
    InterruptAck,
    /// R W. The device status.
    Status,
    /// W. The low half of the address of the descriptor area.
    QueueDescLow,
    /// W. Its high half.
    QueueDescHigh,
    /// W. The low half of the address of the driver area.
    QueueDriverLow,
    /// W. Its high half.
    QueueDriverHigh,
    /// W. The low half of the address of the device area.
    QueueDeviceLow,
    /// W. Its high half.
    QueueDeviceHigh,
    /// W. The selector of shared memory regions, of which there are none.
    ShmSel,
    /// R. The low half of the region's length.
    ShmLenLow,
    /// R. Its high half.
    ShmLenHigh,
    /// R. The low half of the region's address.
    ShmBaseLow,
    /// R. Its high half.
    ShmBaseHigh,
    /// R. How often the configuration changed.
    ConfigGeneration,
}

impl Register {
    /// The register at an offset, if one has it.
    #[inline(always)]
    pub fn at(offset: u16) -> Option<Register>
        ensures { result ≡ register_at offset }
    {
        match offset {
            0x000 => Some(Register::MagicValue),
            0x004 => Some(Register::Version),
            0x008 => Some(Register::DeviceId),
            0x00c => Some(Register::VendorId),
            0x010 => Some(Register::DeviceFeatures),
            0x014 => Some(Register::DeviceFeaturesSel),
            0x020 => Some(Register::DriverFeatures),
            0x024 => Some(Register::DriverFeaturesSel),
            0x030 => Some(Register::QueueSel),
            0x034 => Some(Register::QueueNumMax),
            0x038 => Some(Register::QueueNum),
            0x044 => Some(Register::QueueReady),
            0x050 => Some(Register::QueueNotify),
            0x060 => Some(Register::InterruptStatus),
            0x064 => Some(Register::InterruptAck),
            0x070 => Some(Register::Status),
            0x080 => Some(Register::QueueDescLow),
            0x084 => Some(Register::QueueDescHigh),
            0x090 => Some(Register::QueueDriverLow),
            0x094 => Some(Register::QueueDriverHigh),
            0x0a0 => Some(Register::QueueDeviceLow),
            0x0a4 => Some(Register::QueueDeviceHigh),
            0x0ac => Some(Register::ShmSel),
            0x0b0 => Some(Register::ShmLenLow),
            0x0b4 => Some(Register::ShmLenHigh),
            0x0b8 => Some(Register::ShmBaseLow),
            0x0bc => Some(Register::ShmBaseHigh),
            0x0fc => Some(Register::ConfigGeneration),
            _ => None,
        }
    }
}

/// Whether a write at an offset may stop a ready queue: to Status or to QueueReady. While a chain of the queue is in
/// flight such a write has to wait.
pub fn may_stop_queues(offset: u16) -> bool
    ensures { result ≡ may_stop_queues offset }
{
    match Register::at(offset) {
        Some(Register::QueueReady | Register::Status) => true,
        _ => false,
    }
}

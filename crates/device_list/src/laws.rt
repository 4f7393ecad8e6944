//! Laws of the definitions. The bodies are empty: each contract is a theorem.

ghost use Rattle.std.specs.Prelude.{◌≡◌, ◌≢◌, ◌++◌, ◌∷◌, ℕ, Bool, true, false, List, [], Some, None, length, replicate};
ghost use Rattle.std.specs.List.{slice_get};
ghost use Rattle.guest_memory.specs.Memory.{Memory};
ghost use Rattle.chain.specs.declared.budget.Budget.{Budget};
ghost use Rattle.chain.specs.declared.budget.Progress.{Progress};
ghost use Rattle.mmio_window.specs.declared.stage.Stage.{Stage};
ghost use Rattle.sector_cache.specs.Disk.{Disk};
ghost use Rattle.block_device.specs.declared.device.BlockDevice.{BlockDevice};
ghost use Rattle.block_device.specs.declared.extent.Extent.{Extent};
ghost use Rattle.block_device.specs.declared.operation.HostEvent.{HostEvent};
ghost use Rattle.snapshot.specs.declared.saved.SavedDevice.{SavedDevice};
ghost use Rattle.device_list.specs.declared.spec.AddRefusal.TheVariants.{BadDisk, BadExtent, BadMtu, TooMany};
ghost use Rattle.device_list.specs.declared.spec.DeviceSpec.{DeviceSpec};
ghost use Rattle.device_list.specs.declared.spec.DeviceSpec.TheVariants.{Block, Console, Entropy, Image, Network};
ghost use Rattle.device_list.specs.Device.{DeviceState, Receives, Supplies, TakesSent, Told, Writes, device_written, fresh_device, linked, received, resized, supplied, with_model};
ghost use Rattle.device_list.specs.Image.{DevicesServeImageTo, HaveOwnSectors, ServesImageTo, moved};
ghost use Rattle.device_list.specs.List.{At, DevicesServeTo, changed_at, image_at, refusal_of};
ghost use Rattle.device_list.specs.Saved.{AreOfModels, RestoresEach, devices_restored, saved_devices};
ghost use Rattle.device_list.specs.Model.{features_of, fresh_model, without_sent};
ghost use Rattle.device_list.specs.Terminal.{Terminal, fresh_terminal, terminal_configured, with_emergency};

/// What is written to a device's window decides what becomes of memory and devices.
pub fn one_write()
    ensures { (n offset width value : ℕ) (m one other : Memory) (old new new' : List DeviceState) →
        At (Writes offset width value) n m one old new → At (Writes offset width value) n m other old new' →
        (one ≡ other) × (new ≡ new') }
{}

/// And so does what is supplied to it.
pub fn one_supply()
    ensures { (n : ℕ) (bytes : List ℕ) (m one other : Memory) (old new new' : List DeviceState) →
        At (Supplies bytes) n m one old new → At (Supplies bytes) n m other old new' →
        (one ≡ other) × (new ≡ new') }
{}

/// And a frame that is handed to it.
pub fn one_reception()
    ensures { (n : ℕ) (frame : List ℕ) (m one other : Memory) (old new new' : List DeviceState) →
        At (Receives frame) n m one old new → At (Receives frame) n m other old new' →
        (one ≡ other) × (new ≡ new') }
{}

/// And the taking of what it sent.
pub fn one_taking()
    ensures { (n : ℕ) (m one other : Memory) (old new new' : List DeviceState) →
        At TakesSent n m one old new → At TakesSent n m other old new' →
        (one ≡ other) × (new ≡ new') }
{}

/// And what the host says of a disk.
pub fn one_word()
    ensures { (n : ℕ) (said : HostEvent) (m one other : Memory) (old new new' : List DeviceState) →
        At (Told said) n m one old new → At (Told said) n m other old new' →
        (one ≡ other) × (new ≡ new') }
{}

/// No other device changes.
pub fn one_device_changes()
    ensures write { (n other offset width value : ℕ) (m m' : Memory) (old new : List DeviceState) →
        At (Writes offset width value) n m m' old new → other ≢ n → slice_get new other ≡ slice_get old other }
    ensures supply { (n other : ℕ) (bytes : List ℕ) (m m' : Memory) (old new : List DeviceState) →
        At (Supplies bytes) n m m' old new → other ≢ n → slice_get new other ≡ slice_get old other }
    ensures reception { (n other : ℕ) (frame : List ℕ) (m m' : Memory) (old new : List DeviceState) →
        At (Receives frame) n m m' old new → other ≢ n → slice_get new other ≡ slice_get old other }
    ensures taking { (n other : ℕ) (m m' : Memory) (old new : List DeviceState) →
        At TakesSent n m m' old new → other ≢ n → slice_get new other ≡ slice_get old other }
    ensures image { (n other : ℕ) (stage : Stage) (budget : Budget) (progress : Progress) (image : BlockDevice)
        (disk disk' : Disk) (m m' : Memory) (old new : List DeviceState) →
        At (ServesImageTo stage budget progress image disk disk') n m m' old new →
        other ≢ n → slice_get new other ≡ slice_get old other }
    ensures word { (n other : ℕ) (said : HostEvent) (m m' : Memory) (old new : List DeviceState) →
        At (Told said) n m m' old new → other ≢ n → slice_get new other ≡ slice_get old other }
    ensures link { (n other : ℕ) (up : Bool) (devices : List DeviceState) → other ≢ n
        → slice_get (changed_at (linked up) n devices) other ≡ slice_get devices other }
    ensures size { (n other cols rows : ℕ) (devices : List DeviceState) → other ≢ n
        → slice_get (changed_at (resized cols rows) n devices) other ≡ slice_get devices other }
{}

/// Six devices are the most, whatever the next one is to be. Else a network card needs an MTU of 68 or more, and a disk that the
/// host serves fewer than 2^55 sectors and a depth of 1 to 64.
pub fn refusals_in_numbers()
    ensures most { refusal_of (replicate 6 (fresh_device Entropy)) 0 (Network (replicate 6 0) 67) ≡ Some TooMany }
    ensures one_more { refusal_of (replicate 5 (fresh_device Entropy)) 0 (Network (replicate 6 0) 68) ≡ None }
    ensures low { refusal_of [] 0 (Network (replicate 6 0) 67) ≡ Some BadMtu }
    ensures large { refusal_of [] 0 (Block 36028797018963968 false (replicate 20 0) 1) ≡ Some BadDisk }
    ensures largest { refusal_of [] 0 (Block 36028797018963967 false (replicate 20 0) 64) ≡ None }
    ensures shallow { refusal_of [] 0 (Block 0 true (replicate 20 0) 0) ≡ Some BadDisk }
    ensures deep { refusal_of [] 0 (Block 0 true (replicate 20 0) 65) ≡ Some BadDisk }
{}

/// A disk over the image has one or more of the sectors that are spare, and none that another one has. Where they begin at sector
/// 100 of the image, number 3 of them is sector 103.
pub fn extents_in_numbers()
    ensures none { refusal_of [] 8 (Image (record { start = 3; count = 0 }) false []) ≡ Some BadExtent }
    ensures whole { refusal_of [] 8 (Image (record { start = 0; count = 8 }) false []) ≡ None }
    ensures beyond { refusal_of [] 8 (Image (record { start = 1; count = 8 }) false []) ≡ Some BadExtent }
    ensures far { refusal_of [] 8 (Image (record { start = 18446744073709551615; count = 1 }) false []) ≡ Some BadExtent }
    ensures before { refusal_of (fresh_device (Image (record { start = 3; count = 2 }) false []) ∷ []) 8
        (Image (record { start = 0; count = 3 }) true []) ≡ None }
    ensures behind { refusal_of (fresh_device (Image (record { start = 3; count = 2 }) false []) ∷ []) 8
        (Image (record { start = 5; count = 3 }) true []) ≡ None }
    ensures first { refusal_of (fresh_device (Image (record { start = 3; count = 2 }) false []) ∷ []) 8
        (Image (record { start = 0; count = 4 }) true []) ≡ Some BadExtent }
    ensures last { refusal_of (fresh_device (Image (record { start = 3; count = 2 }) false []) ∷ []) 8
        (Image (record { start = 4; count = 4 }) true []) ≡ Some BadExtent }
    ensures other { refusal_of (fresh_device (Image (record { start = 3; count = 2 }) false []) ∷ []) 8
        (Block 8 true [] 1) ≡ None }
    ensures moved { moved 100 (record { start = 3; count = 2 }) ≡ record { start = 103; count = 2 } }
{}

/// Disks over the image have spare sectors alone, and no two of them have one in common. So it is with each that is added, and so
/// it stays while they stay as they are.
pub fn disks_have_their_own_sectors()
    ensures none { (spare : ℕ) → HaveOwnSectors spare [] }
    ensures added { (spare : ℕ) (spec : DeviceSpec) (devices : List DeviceState) → refusal_of devices spare spec ≡ None →
        HaveOwnSectors spare devices → HaveOwnSectors spare (devices ++ fresh_device spec ∷ []) }
    ensures kept { (spare : ℕ) (old new : List DeviceState) → ((disk : ℕ) → image_at disk new ≡ image_at disk old) →
        HaveOwnSectors spare old → HaveOwnSectors spare new }
{}

/// Whatever is done to a device, each disk over the image stays as it is: its sectors, too.
pub fn a_disk_keeps_its_sectors()
    ensures write { (disk n offset width value : ℕ) (m : Memory) (devices : List DeviceState) →
        image_at disk (changed_at (device_written offset width value m) n devices) ≡ image_at disk devices }
    ensures service { (disk n q : ℕ) (stage : Stage) (budget : Budget) (progress : Progress) (m m' : Memory)
        (old new : List DeviceState) → DevicesServeTo stage budget progress n q m m' old new →
        image_at disk new ≡ image_at disk old }
    ensures image { (disk n base : ℕ) (stage : Stage) (budget : Budget) (progress : Progress) (m m' : Memory)
        (old new : List DeviceState) (image image' : Disk) →
        DevicesServeImageTo stage budget progress n base m m' old new image image' →
        image_at disk new ≡ image_at disk old }
    ensures supply { (disk n : ℕ) (bytes : List ℕ) (devices : List DeviceState) →
        image_at disk (changed_at (with_model (supplied bytes)) n devices) ≡ image_at disk devices }
    ensures reception { (disk n : ℕ) (frame : List ℕ) (devices : List DeviceState) →
        image_at disk (changed_at (with_model (received frame)) n devices) ≡ image_at disk devices }
    ensures taking { (disk n : ℕ) (devices : List DeviceState) →
        image_at disk (changed_at (with_model without_sent) n devices) ≡ image_at disk devices }
    ensures word { (disk n : ℕ) (said : HostEvent) (m m' : Memory) (old new : List DeviceState) →
        At (Told said) n m m' old new → image_at disk new ≡ image_at disk old }
    ensures link { (disk n : ℕ) (up : Bool) (devices : List DeviceState) →
        image_at disk (changed_at (linked up) n devices) ≡ image_at disk devices }
    ensures size { (disk n cols rows : ℕ) (devices : List DeviceState) →
        image_at disk (changed_at (resized cols rows) n devices) ≡ image_at disk devices }
    ensures restore { (disk : ℕ) (m : Memory) (saved : List SavedDevice) (old new : List DeviceState) →
        devices_restored m saved old ≡ Some new → image_at disk new ≡ image_at disk old }
{}

/// Bits 3, 5 and 16 are a network card's own, 2, 6, 9 and 14 a disk's, with 5 where it refuses writes, and 0 and 2 a console's. Bits
/// 28, 29, 32, 34 and 38 are those of every device.
pub fn features_in_bits()
    ensures network { (mac : List ℕ) (mtu : ℕ) → features_of (fresh_model (Network mac mtu)) ≡ 297158115368 }
    ensures disk { (sectors depth : ℕ) (identity : List ℕ) →
        features_of (fresh_model (Block sectors false identity depth)) ≡ 297158066756 }
    ensures read_only_disk { (sectors depth : ℕ) (identity : List ℕ) →
        features_of (fresh_model (Block sectors true identity depth)) ≡ 297158066788 }
    ensures image_disk { (extent : Extent) (identity : List ℕ) →
        features_of (fresh_model (Image extent false identity)) ≡ 297158066756 }
    ensures read_only_image_disk { (extent : Extent) (identity : List ℕ) →
        features_of (fresh_model (Image extent true identity)) ≡ 297158066788 }
    ensures console { (cols rows : ℕ) → features_of (fresh_model (Console cols rows)) ≡ 297158049797 }
    ensures entropy { features_of (fresh_model Entropy) ≡ 297158049792 }
{}

/// What is written at 0x108 of a console's window puts its low byte out, and what is written beside it puts nothing out. The byte
/// that makes 65536 bytes of output goes out, and the next one is lost.
pub fn emergency_writes_in_numbers()
    ensures low_byte { terminal_configured 264 577 (fresh_terminal 80 25) ≡
        record (fresh_terminal 80 25) { waiting = 65 ∷ [] } }
    ensures beside { (value : ℕ) → terminal_configured 265 value (fresh_terminal 80 25) ≡ fresh_terminal 80 25 }
    ensures last { (byte : ℕ) (terminal : Terminal) → length terminal.waiting ≡ 65535 →
        with_emergency byte terminal ≡ record terminal { waiting = terminal.waiting ++ byte ∷ [] } }
    ensures full { (byte : ℕ) (terminal : Terminal) → length terminal.waiting ≡ 65536 →
        with_emergency byte terminal ≡ terminal }
{}

/// Devices of the same models that take up what is saved of devices are then as those.
pub fn what_is_saved_is_taken_up()
    ensures { (m : Memory) (devices others : List DeviceState) → RestoresEach m devices →
        AreOfModels devices others → devices_restored m (saved_devices devices) others ≡ Some devices }
{}

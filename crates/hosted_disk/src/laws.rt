//! Laws of the definitions. The bodies are empty: each contract is a theorem.

ghost use Rattle.std.specs.Prelude.{◌≡◌, ℕ};
ghost use Rattle.guest_memory.specs.Memory.{Memory};
ghost use Rattle.chain.specs.declared.budget.Budget.{Budget};
ghost use Rattle.chain.specs.declared.budget.Progress.{Progress};
ghost use Rattle.mmio_window.specs.declared.stage.Stage.{Stage};
ghost use Rattle.mmio_window.specs.Window.{WindowState};
ghost use Rattle.block_device.specs.declared.operation.HostEvent.{HostEvent};
ghost use Rattle.hosted_disk.specs.Disk.{HostedDisk, ServesDisk, ServesDiskTo};
ghost use Rattle.hosted_disk.specs.Told.{DoesAsTold};

/// A notification decides what becomes of the memory, of the window and of the disk.
pub fn one_look()
    ensures { (disk one other : HostedDisk) (q : ℕ) (m n o : Memory) (u v w : WindowState) →
        ServesDisk disk q m n u v one → ServesDisk disk q m o u w other → (n ≡ o) × ((v ≡ w) × (one ≡ other)) }
{}

/// A piece of its service, within a budget, does too, and whether it pauses.
pub fn one_piece()
    ensures { (stage : Stage) (budget : Budget) (x y : Progress) (disk one other : HostedDisk) (q : ℕ) (m n o : Memory)
        (u v w : WindowState) →
        ServesDiskTo stage budget x disk q m n u v one → ServesDiskTo stage budget y disk q m o u w other →
        (x ≡ y) × ((n ≡ o) × ((v ≡ w) × (one ≡ other))) }
{}

/// And so does what the host says.
pub fn one_word()
    ensures { (said : HostEvent) (disk one other : HostedDisk) (m n o : Memory) (u v w : WindowState) →
        DoesAsTold said disk m n u v one → DoesAsTold said disk m o u w other → (n ≡ o) × ((v ≡ w) × (one ≡ other)) }
{}

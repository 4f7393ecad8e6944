//! Laws of the definitions. The bodies are empty: each contract is a theorem.

ghost use Rattle.std.specs.Prelude.{◌≡◌, ◌⊎◌, ℕ, ◌+◌, ◌*◌, ◌≤◌, List, IfSome, IsSome, false};
ghost use Rattle.sector_cache.specs.FileImage.{IsSettled, disk_of as file_disk_of, file_of};
ghost use Rattle.sector_cache.specs.MemoryImage.{disk_of as memory_disk_of};
ghost use Rattle.sector_cache.specs.ScriptedImage.{disk_of as scripted_disk_of};
ghost use Rattle.sector_cache.specs.Sector.{extent_of};
ghost use Rattle.sector_cache.specs.Stop.{BeginsAt, DiffersWithin, Only, TouchesOnly};
ghost use Rattle.sector_cache.specs.declared.file_image.FileImage.{FileImage};
ghost use Rattle.sector_cache.specs.declared.memory.MemoryImage.{MemoryImage};
ghost use Rattle.sector_cache.specs.declared.scripted.ScriptedImage.{ScriptedImage};

use crate::backing::BackingFile;
use crate::image::Image;
use std::alloc::Allocator;

/// Each image in memory tells its bytes, whatever was called of it: so what is promised of images
/// that tell theirs is promised of both.
pub fn memory_images_tell<A: Allocator>()
    ensures in_memory { (image : MemoryImage A) → IsSome (memory_disk_of image).contents }
    ensures scripted { (image : ScriptedImage A) → IsSome (scripted_disk_of image).contents }
{}

/// Where it is clean, a stop of an image over a file leaves what the file holds, as far as that is known. It rests on the
/// file's medium, which keeps what a sync said; and each call keeps the image settled.
pub fn a_flushed_file_outlasts_a_stop<F: BackingFile>()
    ensures { (image : FileImage F) (left : List ℕ) → IsSettled F.IsSynced image →
        (file_disk_of image).dirty ≡ false → F.may_leave (file_of image) left →
        IfSome (F.held (file_of image)) (λ bytes. left ≡ bytes) }
{}

/// A stop at any moment within calls that touch only the bytes from `start` to `end`, whatever failed: where one before them
/// could leave these bytes alone, it leaves them but for that range (`known`), and where the image was clean then, its
/// contents (`contents`). So each extent apart from the range is as it was (`apart`). It rests on an image that records what a
/// stop might have left, from a moment before the calls.
pub fn a_cut_call_touches_nothing_else<I: Image>()
    ensures known { (old new : I) (start end since : ℕ) (bytes left : List ℕ) →
        TouchesOnly I.moment I.may_leave I.left_since start end old new → Only bytes (I.may_leave old) →
        BeginsAt (I.may_leave old) (I.left_since old) since → I.left_since new since left →
        DiffersWithin start end bytes left }
    ensures contents { (old new : I) (start end since : ℕ) (left : List ℕ) →
        TouchesOnly I.moment I.may_leave I.left_since start end old new → (I.disk old).dirty ≡ false →
        BeginsAt (I.may_leave old) (I.left_since old) since → I.left_since new since left →
        IfSome (I.disk old).contents (λ bytes. DiffersWithin start end bytes left) }
    ensures apart { (start end first count : ℕ) (bytes left : List ℕ) → DiffersWithin start end bytes left →
        (512 * (first + count) ≤ start) ⊎ (end ≤ 512 * first) →
        extent_of left first count ≡ extent_of bytes first count }
{}

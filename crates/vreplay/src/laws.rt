//! What holds of the words of every call.

ghost use Rattle.std.specs.Prelude.{ℕ, List, None, Some, true, false};
ghost use Rattle.vreplay.specs.Words.{Names, NamesNoCall, files_alone, files_and_more, files_both, files_in_place, files_saved};

/// Any files can be named, whatever their names begin with: words after `--` are files, and so is what
/// follows `--save=`. A third file is refused, and so are `--save` and `--in-place` together.
pub fn any_files_can_be_named()
    ensures two { (trace : List ℕ) → (image : List ℕ) → Names (files_alone trace image) trace image None false }
    ensures saved { (save : List ℕ) → (trace : List ℕ) → (image : List ℕ) → Names (files_saved save trace image) trace image (Some save) false }
    ensures in_place { (trace : List ℕ) → (image : List ℕ) → Names (files_in_place trace image) trace image None true }
    ensures not_both { (save : List ℕ) → (trace : List ℕ) → (image : List ℕ) → NamesNoCall (files_both save trace image) }
    ensures no_third { (trace : List ℕ) → (image : List ℕ) → (more : List ℕ) → (others : List (List ℕ)) → NamesNoCall (files_and_more trace image more others) }
{}

//! The law of views. The function does nothing; its contract is the law.

ghost use Rattle.std.specs.Prelude.{◌≡◌, List, ℕ};
ghost use Rattle.image_view.specs.View.{View};
ghost use Rattle.image_view.specs.Viewed.{IsViewed};

/// A file has one view at most.
pub fn one_view()
    ensures { (b : List ℕ) (v w : View) → IsViewed b v → IsViewed b w → v ≡ w }
{}

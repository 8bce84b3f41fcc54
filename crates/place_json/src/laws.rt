//! Laws of what is answered to a value. The function does nothing; its contract is the law.

ghost use Rattle.std.specs.Prelude.{◌≡◌, ℕ, List, None};
ghost use Rattle.serde_json.specs.Data.{Data};
ghost use Rattle.image_place.specs.declared.error.PlaceError.{PlaceError};
ghost use Rattle.image_place.specs.declared.fault.PlaceFault.{PlaceFault};
ghost use Rattle.image_place.specs.declared.rows.DefAddress.{DefAddress};
ghost use Rattle.image_place.specs.Placed.{PlacedEntry, Placed, IsUnread, IsFaulty};
ghost use Rattle.place_json.specs.Input.{place_of};
ghost use Rattle.place_json.specs.Outcomes.{IsPlacedText, IsPlaceRefusal};

/// A value has one text or one refusal, and not both, and none where it isn't of the form. What is placed is neither
/// unread at an image nor faulty.
pub fn outcomes_exclude()
    ensures unread { (files : List (List ℕ)) (addresses : List DefAddress) (externs : List (List ℕ × ℕ)) (out : List PlacedEntry) (q : ℕ) → Placed files addresses externs out → IsUnread files q → ⊥ }
    ensures faulty { (files : List (List ℕ)) (addresses : List DefAddress) (externs : List (List ℕ × ℕ)) (out : List PlacedEntry) (fault : PlaceFault) → Placed files addresses externs out → IsFaulty files addresses externs fault → ⊥ }
    ensures refused { (d : Data) (text : List ℕ) (error : PlaceError) → IsPlacedText d text → IsPlaceRefusal d error → ⊥ }
    ensures no_text { (d : Data) (text : List ℕ) → place_of d ≡ None → IsPlacedText d text → ⊥ }
    ensures no_refusal { (d : Data) (error : PlaceError) → place_of d ≡ None → IsPlaceRefusal d error → ⊥ }
    ensures one_text { (d : Data) (text other : List ℕ) → IsPlacedText d text → IsPlacedText d other → text ≡ other }
    ensures one_refusal { (d : Data) (error other : PlaceError) → IsPlaceRefusal d error → IsPlaceRefusal d other → error ≡ other }
{}

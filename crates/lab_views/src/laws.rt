//! Laws of the definitions.
ghost use Rattle.std.specs.Prelude.{◌≡◌, ◌≤◌, ◌<◌, ℕ, List, All, map, Ok};
ghost use Rattle.std.specs.Char.{to_ascii_uppercase};
ghost use Rattle.base_text.specs.Hexadecimal.{upper_word};
ghost use Rattle.lab_views.specs.Parts.{Parts};
ghost use Rattle.lab_shown.specs.declared.place.Place.{Place};
ghost use Rattle.lab_shown.specs.declared.place.Place.TheVariants.{Memory};
ghost use Rattle.lab_views.specs.Places.{registers, shown_name, place_named};
ghost use Rattle.lab_views.specs.Values.{largest_at, text_at, value_spelled};
ghost use Rattle.lab_views.specs.Law.{ShowsChange};

/// After a change by hand, the scope in which the place was found shows the value in the place's row, if
/// that is among the rows that are asked for, and all its other rows as before. All other scopes show what
/// they showed.
pub fn change_is_shown()
    ensures { (p : Parts) (reference : ℕ) (name : List ℕ) (place : Place) (value : ℕ)
        → place_named reference name ≡ Ok place → ShowsChange p reference place value }
{}

/// A name finds the place that is shown under it, with its digits in upper case; and each register, and the
/// byte at each address, is found by the name under which it is shown.
pub fn places_are_shown_by_name()
    ensures name { (reference : ℕ) (name : List ℕ) (place : Place)
        → place_named reference name ≡ Ok place → shown_name place ≡ map to_ascii_uppercase name }
    ensures registers { All (λ register. place_named 1 (shown_name register) ≡ Ok register) registers }
    ensures bytes { (a : ℕ) → a < 65536 → place_named 5 (shown_name (Memory a)) ≡ Ok (Memory a) }
{}

/// A value that a place holds is read from the text by which it is shown.
pub fn shown_text_is_read()
    ensures { (place : Place) (value : ℕ) → value ≤ largest_at place
        → value_spelled place (text_at place value) ≡ Ok value }
{}

//! The laws that join readings and spellings: what is spelled is read, what is read is spelled so,
//! and no bytes have two readings.

ghost use Rattle.std.specs.Prelude.{◌≡◌, ◌≢◌, ℕ, ◌+◌, ◌^◌, ◌<◌, List, ◌++◌, length, Ok, Err, FitsSigned};
ghost use Rattle.std.specs.Int.{w32, w64, to_le_bytes, to_be_bytes};
ghost use Rattle.nt_num.specs.Place.{At};
ghost use Rattle.nt_num.specs.Cursor.{little, little_signed, big};
ghost use Rattle.nt_format.specs.Reading.{standing, IsBytes, Spells, HasOneReading};
ghost use Rattle.nt_format.specs.Numbers.{AreSpelled, signed};
ghost use Rattle.nt_format.specs.Strings.{string, string_at};
ghost use Rattle.nt_format.specs.Frames.{record_frame, list_frame, record_at, list_at, IsRecord, IsList};
ghost use Rattle.nt_format.specs.Envelopes.{envelope, payload_of};
ghost use Rattle.nt_format.specs.Locators.{locator, link, locator_at, link_at, IsSimple, IsLink};
ghost use Rattle.nt_format.specs.declared.fault.EnvelopeFault.TheVariants.{Size};

/// Numbers of each width, in either order and with a sign.
pub fn numbers_are_spelled()
    ensures little { AreSpelled little to_le_bytes }
    ensures big { AreSpelled big to_be_bytes }
    ensures signed_32 { Spells (little_signed w32) (signed w32) (FitsSigned w32) }
    ensures signed_64 { Spells (little_signed w64) (signed w64) (FitsSigned w64) }
{}

pub fn strings_are_spelled()
    ensures spelled { Spells string_at string (λ text. length text < 2 ^ 32) }
    ensures one { HasOneReading string (λ text. length text < 2 ^ 32) }
{}

pub fn records_are_spelled()
    ensures read { (inside rest : List ℕ) (place : ℕ) → 8 + length inside < 2 ^ 63
        → record_at (standing place (record_frame inside ++ rest))
        ≡ Ok (standing (place + 8) inside, standing (place + (8 + length inside)) rest) }
    ensures found { (here inside after : At) → IsBytes here.left
        → record_at here ≡ Ok (inside, after) → IsRecord here inside after }
    ensures place { (here : At) (at : ℕ) → record_at here ≡ Err at → at ≡ here.place }
    ensures refused { (here : At) (at : ℕ) → record_at here ≡ Err at
        → (inside after : At) → IsRecord here inside after → ⊥ }
    ensures one { HasOneReading record_frame (λ inside. 8 + length inside < 2 ^ 63) }
{}

pub fn lists_are_spelled()
    ensures read { (count : ℕ) (inside rest : List ℕ) (place : ℕ) → count < 2 ^ 32 → 12 + length inside < 2 ^ 63
        → list_at (standing place (list_frame count inside ++ rest))
        ≡ Ok ((count, standing (place + 12) inside), standing (place + (12 + length inside)) rest) }
    ensures found { (here : At) (count : ℕ) (inside after : At) → IsBytes here.left
        → list_at here ≡ Ok ((count, inside), after) → IsList here count inside after }
    ensures place { (here : At) (at : ℕ) → list_at here ≡ Err at → at ≡ here.place }
    ensures refused { (here : At) (at : ℕ) → list_at here ≡ Err at
        → (count : ℕ) (inside after : At) → IsList here count inside after → ⊥ }
    ensures one { (n m : ℕ) (a b rest others : List ℕ) → n < 2 ^ 32 → m < 2 ^ 32
        → 12 + length a < 2 ^ 63 → 12 + length b < 2 ^ 63
        → list_frame n a ++ rest ≡ list_frame m b ++ others → (n ≡ m) × (a ≡ b) × (rest ≡ others) }
{}

/// No bytes begin with a frame of either kind.
pub fn frames_are_of_one_kind()
    ensures { (count : ℕ) (inside items rest others : List ℕ) → 8 + length inside < 2 ^ 63 → 12 + length items < 2 ^ 63
        → record_frame inside ++ rest ≢ list_frame count items ++ others }
{}

/// An envelope is all of its bytes, so a byte more makes it one of a wrong size.
pub fn envelopes_are_spelled()
    ensures read { (kind : ℕ) (payload : List ℕ) → kind < 2 ^ 16 → length payload + 16 < 2 ^ 48
        → payload_of kind (envelope kind payload) ≡ Ok payload }
    ensures found { (kind : ℕ) (bytes payload : List ℕ) → IsBytes bytes → payload_of kind bytes ≡ Ok payload
        → (bytes ≡ envelope kind payload) × (kind < 2 ^ 16) × (length payload + 16 < 2 ^ 48) }
    ensures longer { (kind other : ℕ) (payload more : List ℕ) → other < 2 ^ 16 → length payload + 16 < 2 ^ 48
        → 0 < length more → payload_of kind (envelope other payload ++ more) ≡ Err Size }
    ensures one { (kind other : ℕ) (a b : List ℕ) → kind < 2 ^ 16 → other < 2 ^ 16
        → length a + 16 < 2 ^ 48 → length b + 16 < 2 ^ 48
        → envelope kind a ≡ envelope other b → (kind ≡ other) × (a ≡ b) }
{}

pub fn locators_are_spelled()
    ensures spelled { Spells locator_at locator IsSimple }
    ensures one { HasOneReading locator IsSimple }
{}

pub fn links_are_spelled()
    ensures spelled { Spells link_at link IsLink }
    ensures one { HasOneReading link IsLink }
{}

//! The laws of the words on lists, for lists of any element.

ghost use Rattle.std.specs.Prelude.{◌≡◌, ◌+◌, ◌<◌, ◌≤◌, ℕ, List, [], ◌∷◌, ◌++◌, length, take, drop, slice_index_or};
ghost use Rattle.std.specs.List.{AllByRecursion, concat, flat_map};
ghost use Rattle.nt_lists.specs.Beside.{Beside, with_beside, grouped};
ghost use Rattle.nt_lists.specs.Chunks.{chunks};
ghost use Rattle.nt_lists.specs.Parts.{Part, AreBehind, part_bytes, joined_len, StandAt};
ghost use Rattle.nt_lists.specs.Places.{put_at};

/// The groups joined are the list; each has n elements but the last, which has at most n and at
/// least one.
pub fn groups_are_cut<T>()
    ensures joined { (n : ℕ) (xs : List T) → 0 < n
        → flat_map (λ (g : List T). g) (chunks n xs) ≡ xs }
    ensures full { (n : ℕ) (xs : List T) (i : ℕ) → 0 < n → i + 1 < length (chunks n xs)
        → length (slice_index_or (chunks n xs) i []) ≡ n }
    ensures last { (n : ℕ) (xs : List T) (i : ℕ) → 0 < n → i + 1 ≡ length (chunks n xs)
        → (0 < length (slice_index_or (chunks n xs) i [])) × (length (slice_index_or (chunks n xs) i []) ≤ n) }
{}

/// What is put at a place of a list stands there, and what stands before and behind it stays.
pub fn writes_keep_the_rest<T>()
    ensures before { (xs items : List T) (at : ℕ) → at ≤ length xs
        → take at (put_at xs at items) ≡ take at xs }
    ensures there { (xs items : List T) (at : ℕ) → at ≤ length xs
        → take (length items) (drop at (put_at xs at items)) ≡ items }
    ensures behind { (xs items : List T) (at : ℕ) → at ≤ length xs
        → drop (at + length items) (put_at xs at items) ≡ drop (at + length items) xs }
{}

/// An item that is added stands behind all that there was, and so does one that belongs to the last
/// ones, where these had none.
pub fn lists_stand_beside<T>()
    ensures more { (ls : List (Beside T)) (xs : List T) (x : T) → grouped ls ≤ length xs
        → with_beside ls (xs ++ x ∷ []) ≡ with_beside ls xs ++ x ∷ [] }
    ensures beside { (ls : List (Beside T)) (xs : List T) (l : Beside T)
        → grouped ls + l.count ≡ length xs
        → with_beside (ls ++ l ∷ []) xs ≡ with_beside ls xs ++ l.item ∷ [] }
{}

/// A part that begins where the others end goes on from them. A list that begins with a front, in
/// which each part stands at its place, the parts behind one another, and which ends with the last
/// of them, is the front and the bytes of the parts.
pub fn parts_make_the_whole()
    ensures behind { (place : ℕ) (ps : List Part) (p : Part) → AreBehind place ps
        → p.place ≡ place + joined_len ps → AreBehind place (ps ++ p ∷ []) }
    ensures bytes { (ps : List Part) (p : Part)
        → joined_len (ps ++ p ∷ []) ≡ joined_len ps + length p.bytes }
    ensures whole { (front whole : List ℕ) (ps : List Part) → take (length front) whole ≡ front
        → AreBehind (length front) ps
        → AllByRecursion (λ (p : Part). StandAt whole p.place p.bytes) ps
        → length whole ≡ length front + joined_len ps → whole ≡ front ++ concat (part_bytes ps) }
{}

//! Maps of bytes, of shadow bytes and of the origins of cells, after stores and copies. A cell is four addresses.
//! a and b are addresses, n and m numbers of bytes, and x is any address.
ghost use Rattle.std.specs.Prelude.{◌≡◌, ◌≢◌, ◌<◌, ◌≤◌, ◌↔◌, ◌^◌, ◌+◌, ◌*◌, ◌/◌, ◌%◌, ℕ, true};
ghost use Rattle.ms_bits.specs.Completion.{Agrees};
ghost use Rattle.ms_bits.specs.Maps.{with_range, byte_of, number_at, bytes_at, copied, touches, with_cells, with_cell, copied_cells};

/// A map that is changed in a range holds the new bytes there, and is equal to the old map outside.
pub fn ranges()
    ensures inside { (map new : ℕ → ℕ) (a n k : ℕ)
        → k < n → with_range map a n new (a + k) ≡ new k }
    ensures below { (map new : ℕ → ℕ) (a n x : ℕ) → x < a → with_range map a n new x ≡ map x }
    ensures above { (map new : ℕ → ℕ) (a n x : ℕ) → a + n ≤ x → with_range map a n new x ≡ map x }
{}

/// What is stored is loaded, a load depends on its range alone, and the bytes of a loaded number are those that were there.
pub fn loads()
    ensures stored { (map : ℕ → ℕ) (a n v : ℕ)
        → number_at (with_range map a n (byte_of v)) a n ≡ v % 256 ^ n }
    ensures before { (map new : ℕ → ℕ) (a n b m : ℕ) → b + m ≤ a
        → number_at (with_range map a n new) b m ≡ number_at map b m }
    ensures after { (map new : ℕ → ℕ) (a n b m : ℕ) → a + n ≤ b
        → number_at (with_range map a n new) b m ≡ number_at map b m }
    ensures range_alone { (map other : ℕ → ℕ) (a b n : ℕ)
        → ((k : ℕ) → k < n → map (a + k) ≡ other (b + k))
        → number_at map a n ≡ number_at other b n }
    ensures bytes { (map : ℕ → ℕ) (a n k : ℕ) → k < n → ((j : ℕ) → j < n → map (a + j) < 256)
        → byte_of (number_at map a n) k ≡ map (a + k) }
    ensures fits { (map : ℕ → ℕ) (a n : ℕ) → ((k : ℕ) → k < n → map (a + k) < 256)
        → number_at map a n < 256 ^ n }
    ensures byte_fits { (v k : ℕ) → byte_of v k < 256 }
{}

/// A copy reads what was there before it, also where the two ranges overlap, and changes nothing outside its target.
pub fn copies()
    ensures inside { (map : ℕ → ℕ) (to from n k : ℕ)
        → k < n → copied map to from n (to + k) ≡ map (from + k) }
    ensures below { (map : ℕ → ℕ) (to from n x : ℕ) → x < to → copied map to from n x ≡ map x }
    ensures above { (map : ℕ → ℕ) (to from n x : ℕ) → to + n ≤ x → copied map to from n x ≡ map x }
    ensures number { (map : ℕ → ℕ) (to from n : ℕ)
        → number_at (copied map to from n) to n ≡ number_at map from n }
    ensures bytes { (map : ℕ → ℕ) (to from n : ℕ)
        → bytes_at (copied map to from n) to n ≡ bytes_at map from n }
{}

/// The cells of n bytes from an address on, and those of one byte: they hold the origin that is put there, and no other cell
/// changes.
pub fn cells()
    ensures touched { (a n cell : ℕ)
        → (touches a n cell ≡ true) ↔ ((k : ℕ) × (k < n) × ((a + k) / 4 ≡ cell)) }
    ensures inside { (cells : ℕ → ℕ) (a n origin k : ℕ) → k < n
        → with_cells cells a n origin ((a + k) / 4) ≡ origin }
    ensures outside { (cells : ℕ → ℕ) (a n origin cell : ℕ) → ((k : ℕ) → k < n → (a + k) / 4 ≢ cell)
        → with_cells cells a n origin cell ≡ cells cell }
    ensures one_inside { (cells : ℕ → ℕ) (a origin : ℕ)
        → with_cell cells a origin (a / 4) ≡ origin }
    ensures one_outside { (cells : ℕ → ℕ) (a origin cell : ℕ) → cell ≢ a / 4
        → with_cell cells a origin cell ≡ cells cell }
{}

/// A copy of n bytes puts into each cell the origin that the source's cell had before, of the last byte in that cell whose
/// source has shadow. A cell without such a byte stays.
pub fn copied_origins()
    ensures inside { (shadow old cells : ℕ → ℕ) (to from n k : ℕ) → k < n → shadow (from + k) ≢ 0
        → ((j : ℕ) → k < j → j < n → shadow (from + j) ≢ 0 → (to + j) / 4 ≢ (to + k) / 4)
        → copied_cells shadow old to from n cells ((to + k) / 4) ≡ old ((from + k) / 4) }
    ensures outside { (shadow old cells : ℕ → ℕ) (to from n cell : ℕ)
        → ((k : ℕ) → k < n → shadow (from + k) ≢ 0 → (to + k) / 4 ≢ cell)
        → copied_cells shadow old to from n cells cell ≡ cells cell }
{}

/// Two memories with one shadow, whose bytes agree outside it: they stay so through stores of words that agree outside one
/// mask and through copies, and the words that they give agree outside the word that the shadow gives.
pub fn bytes_agree()
    ensures stored { (w m a c k : ℕ) → a < 2 ^ w → c < 2 ^ w → Agrees w m a c
        → Agrees 8 (byte_of m k) (byte_of a k) (byte_of c k) }
    ensures changed { (shadow map other mask new new_other : ℕ → ℕ) (a n : ℕ)
        → ((x : ℕ) → Agrees 8 (shadow x) (map x) (other x))
        → ((k : ℕ) → Agrees 8 (mask k) (new k) (new_other k))
        → (x : ℕ) → Agrees 8 (with_range shadow a n mask x)
        (with_range map a n new x) (with_range other a n new_other x) }
    ensures copied { (shadow map other : ℕ → ℕ) (to from n : ℕ)
        → ((x : ℕ) → Agrees 8 (shadow x) (map x) (other x))
        → (x : ℕ) → Agrees 8 (copied shadow to from n x)
        (copied map to from n x) (copied other to from n x) }
    ensures loaded { (shadow map other : ℕ → ℕ) (a n : ℕ) → ((k : ℕ) → k < n → shadow (a + k) < 256)
        → ((k : ℕ) → k < n → map (a + k) < 256) → ((k : ℕ) → k < n → other (a + k) < 256)
        → ((k : ℕ) → k < n → Agrees 8 (shadow (a + k)) (map (a + k)) (other (a + k)))
        → Agrees (8 * n) (number_at shadow a n) (number_at map a n) (number_at other a n) }
    ensures cut { (w to m a c : ℕ) → to ≤ w → Agrees w m a c
        → Agrees to (m % 2 ^ to) (a % 2 ^ to) (c % 2 ^ to) }
{}

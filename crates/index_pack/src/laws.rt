//! Laws of packed indices.
ghost use Rattle.std.specs.Prelude.{◌≡◌, ◌<◌, ◌^◌, ℕ, List};
ghost use Rattle.plfs_types.specs.declared.entries.Entry.{Entry};
ghost use Rattle.index_pack.specs.Spelling.{Packs};
ghost use Rattle.index_pack.specs.Valid.{CanBePacked};

/// A list of entries has one packed index: no other runs of these entries are as long as they can be.
pub fn packings_are_one()
    ensures { (entries : List Entry) (some others : List ℕ) → Packs some entries → Packs others entries → some ≡ others }
{}

/// All entries that can be packed have a packed index, where their writer's id has 64 bits.
pub fn entries_have_a_packing()
    ensures { (entries : List Entry) → (can : CanBePacked entries) → can.owner < 2 ^ 64 → (bytes : List ℕ) × Packs bytes entries }
{}

/// Bytes are the packed index of one list of entries.
pub fn packs_one_list()
    ensures { (bytes : List ℕ) (some others : List Entry) → Packs bytes some → Packs bytes others → some ≡ others }
{}

//! Laws of what is made of shares.
ghost use Rattle.std.specs.Prelude.{◌≡◌, List, [], ◌∷◌};
ghost use Rattle.plfs_types.specs.declared.entries.Trunc.{Trunc};
ghost use Rattle.index_reader.specs.declared.listing.Listing.{Listing};
ghost use Rattle.index_reader.specs.declared.sharing.Share.{Share};
ghost use Rattle.index_reader.specs.Gathered.{IsJoinedOf};
ghost use Rattle.gather_flow.specs.OneIndex.{reader_of, attr_of};

/// A law: a share that was joined of others may stand for them. The reader that is opened is the same one, and so is what is
/// told of the file.
pub fn a_joined_share_stands_for_its_parts()
    ensures reader { (listing : Listing) (shares : List Share) (share : Share) (truncs : List Trunc)
        → IsJoinedOf shares share → reader_of listing (share ∷ []) truncs ≡ reader_of listing shares truncs }
    ensures told { (listing : Listing) (shares : List Share) (share : Share) (truncs : List Trunc)
        → IsJoinedOf shares share → attr_of listing (share ∷ []) truncs ≡ attr_of listing shares truncs }
{}

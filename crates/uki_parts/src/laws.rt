//! What holds of lists of parts and of joined initrds beyond the calls' own clauses.

ghost use Rattle.std.specs.Prelude.{◌≡◌, ℕ, List, ◌++◌, ◌∷◌, [], map};
ghost use Rattle.uki_parts.specs.declared.piece.Piece.{Piece};
ghost use Rattle.uki_parts.specs.declared.kind.PartKind.{PartKind};
ghost use Rattle.uki_parts.specs.declared.part.Part.{Part};
ghost use Rattle.uki_parts.specs.Parts.{with_part, parts_of_kind};
ghost use Rattle.uki_parts.specs.Pieces.{Reading, HasSizes, bytes_of, piece_bytes};
ghost use Rattle.uki_parts.specs.Initrds.{joined_initrds, joined_bytes};

/// Adding a part puts it behind the others of its kind, and leaves those of each kind in their order.
pub fn parts_of_a_kind()
    ensures { (kind : PartKind) (part : Part) (parts : List Part) →
        parts_of_kind kind (with_part part parts) ≡ parts_of_kind kind parts ++ parts_of_kind kind (with_part part []) }
{}

/// However the files read, where each has its size the joined pieces stand for the initrds' own bytes, joined.
pub fn joined_bytes_of_initrds()
    ensures { (files : Reading) (initrds : List Piece) → HasSizes files initrds →
        bytes_of files (joined_initrds initrds) ≡ joined_bytes (map (piece_bytes files) initrds) }
{}

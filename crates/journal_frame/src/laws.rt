// Laws over the definitions. Each function does nothing: its contract is the law.
ghost use Rattle.std.specs.Prelude.{ℕ, List, ◌≡◌};
ghost use Rattle.journal_frame.specs.declared.header.HeaderParts.{HeaderParts};
ghost use Rattle.journal_frame.specs.Entries.{Accepted, IsEntry};
ghost use Rattle.journal_frame.specs.Headers.{IsHeader, IsHeaderPayload};
ghost use Rattle.journal_frame.specs.Frames.{HasHeader, HasEntries, IsBlank, IsLive};

/// A payload is that of one entry at most: what was written is read again.
pub fn a_payload_is_of_one_entry()
    ensures { (payload : List ℕ) (entry other : Accepted) → IsEntry payload entry → IsEntry payload other → entry ≡ other }
{}

/// A payload is that of one header at most: what was written is read again.
pub fn a_payload_is_of_one_header()
    ensures { (payload : List ℕ) (header other : HeaderParts) → IsHeader payload header → IsHeader payload other → header ≡ other }
{}

/// A side has one header at most.
pub fn a_side_has_one_header()
    ensures { (bytes payload other : List ℕ) → HasHeader bytes payload → HasHeader bytes other → payload ≡ other }
{}

/// The bytes of a side hold one first payload at most, and one list of entries behind it.
pub fn a_side_has_one_list_of_entries()
    ensures { (bytes header other : List ℕ) (entries others : List (List ℕ)) → HasEntries bytes header entries → HasEntries bytes other others → (header ≡ other) × (entries ≡ others) }
{}

/// A blank side is not live.
pub fn a_blank_side_is_not_live()
    ensures { (bytes : List ℕ) → IsBlank bytes → ¬ IsLive bytes }
{}

/// A side with entries behind a header is live.
pub fn a_side_with_entries_is_live()
    ensures { (bytes header : List ℕ) (entries : List (List ℕ)) → HasEntries bytes header entries → IsHeaderPayload header → IsLive bytes }
{}

// Laws over the definitions. Each function does nothing: its contract is the law.
ghost use Rattle.std.specs.Prelude.{◌≡◌, ℕ, List};
ghost use Rattle.station_api.specs.Scene.{Scene};
ghost use Rattle.station_api.specs.declared.station.DiskSide.{DiskSide};
ghost use Rattle.journal_frame.specs.declared.header.HeaderParts.{HeaderParts};
ghost use Rattle.fleet_journal.specs.Sides.{IsTaken, Keeps, IsBlankJournal, IsNoJournal};
ghost use Rattle.fleet_journal.specs.Standing.{Standing};
ghost use Rattle.fleet_journal.specs.Journal.{HasRead};

/// Two sides keep one journal at most: one side, one header and one list of entries.
pub fn two_sides_keep_one_journal()
    ensures { (side other : DiskSide) (header other_header : HeaderParts) (entries others : List (List ℕ)) (scene : Scene)
        → Keeps side header entries scene → Keeps other other_header others scene → (side ≡ other) × (header ≡ other_header) × (entries ≡ others) }
{}

/// One side at most is taken, and it has one header.
pub fn one_side_is_taken()
    ensures { (side other : DiskSide) (header other_header : HeaderParts) (scene : Scene)
        → IsTaken side header scene → IsTaken other other_header scene → (side ≡ other) × (header ≡ other_header) }
{}

/// Where a side is taken, the sides are not blank, and they are those of a journal.
pub fn a_side_taken_is_a_journal()
    ensures blank { (side : DiskSide) (header : HeaderParts) (scene : Scene) → IsTaken side header scene → ¬ IsBlankJournal scene }
    ensures journal { (side : DiskSide) (header : HeaderParts) (scene : Scene) → IsTaken side header scene → ¬ IsNoJournal scene }
{}

/// The side that a journal keeps is the one taken, and so is that of which a journal has read some entries.
pub fn a_journal_is_on_the_side_taken()
    ensures keeps { (side : DiskSide) (header : HeaderParts) (entries : List (List ℕ)) (scene : Scene) → Keeps side header entries scene → IsTaken side header scene }
    ensures reads { (journal : Standing) (header : HeaderParts) (entries : List (List ℕ)) (scene : Scene) → HasRead journal header entries scene → IsTaken journal.side header scene }
{}

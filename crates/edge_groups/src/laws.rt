// Laws of mates and groups. Each function does nothing: its contract is the law.
ghost use Rattle.std.specs.Prelude.{◌≡◌, ℕ, Option, true, false};
ghost use Rattle.fleet_base.specs.declared.order.Side.{Side};
ghost use Rattle.fleet_base.specs.Order.{Graph, IsSoundOrder, order_of};
ghost use Rattle.fleet_base.specs.State.{FleetState};
ghost use Rattle.fleet_base.specs.Open.{is_open, KeepsClosed};
ghost use Rattle.fleet_base.specs.Groups.{AreMates, AreGrouped};
ghost use Rattle.fleet_base.specs.Examples.{corridor_graph};

/// Mates have the same first robot in every sound order.
pub fn mates_agree_in_sound_orders()
    ensures { (g : Graph) (order : ℕ → Option Side) (q r : ℕ) → IsSoundOrder g order → AreMates g q r → order q ≡ order r }
{}

/// So have all pairs of a group.
pub fn groups_agree_in_sound_orders()
    ensures { (g : Graph) (order : ℕ → Option Side) (q r : ℕ) → IsSoundOrder g order → AreGrouped g q r → order q ≡ order r }
{}

/// A group of which one pair is closed has the side of that pair in every sound order that keeps the closed pairs.
pub fn a_closed_pair_settles_its_group()
    ensures { (g : Graph) (x : FleetState) (order : ℕ → Option Side) (q r : ℕ) → IsSoundOrder g order → KeepsClosed g x order → is_open g x q ≡ false → AreGrouped g q r → order r ≡ order_of x.sides q }
{}

/// Worked: in the corridor the pairs 0 and 1 are mates and so are 1 and 2, while 0 and 2 are none and yet of one group.
pub fn the_corridor_has_mates()
    ensures first { AreMates corridor_graph 0 1 }
    ensures second { AreMates corridor_graph 1 2 }
    ensures none { ¬ AreMates corridor_graph 0 2 }
    ensures group { AreGrouped corridor_graph 0 2 }
{}

// Laws over the definitions. Each function does nothing: its contract is the law.
ghost use Rattle.std.specs.Prelude.{◌↔◌, ℕ, List, Option};
ghost use Rattle.fleet_base.specs.declared.order.PairId.{PairId};
ghost use Rattle.fleet_base.specs.declared.order.Side.{Side};
ghost use Rattle.fleet_base.specs.Order.{Graph, IsGraph, IsCycle, IsCyclic};

/// An order is cyclic exactly where it has a cycle as a list of pairs.
pub fn cyclic_exactly_where_a_cycle_is()
    ensures { (g : Graph) (order : ℕ → Option Side) → IsGraph g → (IsCyclic g order ↔ ((cycle : List PairId) × IsCycle g order cycle)) }
{}

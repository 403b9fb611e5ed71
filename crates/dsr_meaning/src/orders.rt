// Laws that tie the orders of the definitions to the comparisons of the types, each the contract of
// a function.
ghost use Rattle.dsr_ir.specs.contracts.tuples.BindingOrd.TheImpl as binding;
ghost use Rattle.dsr_ir.specs.contracts.tuples.ElementOrd.TheImpl as element;
ghost use Rattle.dsr_ir.specs.contracts.tuples.FactOrd.TheImpl as fact;
ghost use Rattle.dsr_ir.specs.contracts.tuples.InstanceOrd.TheImpl as instance;
ghost use Rattle.dsr_ir.specs.contracts.tuples.TargetOrd.TheImpl as target;
ghost use Rattle.dsr_meaning.specs.Orders.{BindingPrecedes, FactPrecedes, InstancePrecedes, Precedes, TargetPrecedes, TellsOrder};

/// `cmp` of elements tells the order by pool, then slot.
pub fn elements_are_ordered()
    ensures { TellsOrder element.ghosts.cmp Precedes }
{}

/// `cmp` of targets tells their order.
pub fn targets_are_ordered()
    ensures { TellsOrder target.ghosts.cmp TargetPrecedes }
{}

/// `cmp` of facts tells their order.
pub fn facts_are_ordered()
    ensures { TellsOrder fact.ghosts.cmp FactPrecedes }
{}

/// `cmp` of instances tells the order by rule, record and index.
pub fn instances_are_ordered()
    ensures { TellsOrder instance.ghosts.cmp InstancePrecedes }
{}

/// `cmp` of bindings tells their order.
pub fn bindings_are_ordered()
    ensures { TellsOrder binding.ghosts.cmp BindingPrecedes }
{}

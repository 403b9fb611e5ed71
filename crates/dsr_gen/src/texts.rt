// The specification of a trial.
ghost use Rattle.std.specs.Prelude.{◌≡◌, IfOk};
ghost use Rattle.dsr_gen.specs.Texts as texts;

use dsr_ir::NoMemory;
use std::alloc::Global;

const LIST: &[u8] = b"version 1; order little;
structure Head { fixed u16 n; u16 count; u32 first -> nodes; }
structure Node { u32 value; u32 next -> nodes; }
pool nodes : Node[n] at 8 codes 1 step 1 none 0;
set Nodes of nodes; set Bad of nodes;
relation First : head -> nodes; relation Next : nodes -> nodes;
relation Count : head -> number;
rule head => head.first in Nodes;
rule x in Nodes => x.next in Nodes;
rule x in Nodes when illegal(x.next) => x in Bad;
rule head => <head, head.first> in First;
rule x in Nodes => <x, x.next> in Next;
rule head => <head, head.count> in Count;
constraint tidy : forall x in Bad : not x in Bad;
constraint single : forall <x, y> in Next : size(Next.y) <= 1;
constraint start : forall <h, y> in First : size(Next.y) <= 0;
constraint total : head.Count = size(Nodes);
";

/// The specification of a linked list: no link leads beyond its nodes, no two lead to the same one,
/// none leads to the first, and the head tells how many nodes are in the list.
pub fn trial_text(alloc: Global) -> Result<Vec<u8>, NoMemory>
    ensures { IfOk result (λ text. text.items ≡ texts.trial_text) }
{
    Ok(Vec::from_slice(alloc, LIST)?)
}

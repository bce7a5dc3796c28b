//! The marks of nodes: of those that are free, and of those whose literals are kept.
ghost use Rattle.std.specs.Prelude.{◌≡◌, ℕ, ◌<◌, length};
ghost use Rattle.list_laws.specs.Members.{In};
ghost use Rattle.cover_pick.specs.Free.{mark_of};
ghost use Rattle.bit_fun.specs.ConeFunctions.{with_marks};

// The mark of a node.
pub fn is_marked(marks: &[bool], n: u32) -> bool
    ensures { result ≡ mark_of marks.now n }
{
    marks.get(n as usize).copied().unwrap_or(false)
}

// Marks the free nodes of an order.
pub fn mark_order(free: &[bool], order: &[u32], kept: &mut [bool])
    requires { (m : ℕ) → In order.now m → m < length kept.old }
    ensures { kept.new ≡ with_marks free.now kept.old order.now }
{
    for n in order {
        kept[*n as usize] = is_marked(free, *n);
    }
}

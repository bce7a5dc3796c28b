//! The state of a walk: the marks and the stack.
ghost use Rattle.std.specs.Prelude.{◌≡◌, ℕ, ◌+◌, ◌<◌, ◌^◌, [], ◌∷◌, length, replicate, reverse, slice_get, Some, IfOk, OnOk, OnErr};
ghost use Rattle.list_laws.specs.Members.{In};
ghost use Rattle.depth_first.specs.declared.frames.Mark.TheVariants.{New};
ghost use Rattle.depth_first.specs.Frames.{entered, advanced, finished, has_path_mark, first_of, without_begun, renewed, forgotten, renewed_since, taken_back};

use std::alloc::{AllocError, Global};
use std::marker::Model;

// How far the visit of a node has come.
#[derive(Clone, Copy, Drop)]
pub(crate) enum Mark {
    New,
    OnPath,
    Done,
}

// A node on the path, and the place of its next edge.
#[derive(Clone, Copy, Drop)]
pub(crate) struct Frame {
    pub(crate) node: u32,
    pub(crate) place: usize,
}

// A mark for each node, the nodes in the order in which they were entered, the finished nodes in the order in which they were
// left, and the path.
#[derive(Drop)]
pub(crate) struct Frames {
    marks: Vec<Mark>,
    begun: Vec<u32>,
    order: Vec<u32>,
    stack: Vec<Frame>,
}

impl Model for Frames {
    ghost use Rattle.std.specs.Prelude.{reverse};
    ghost use Rattle.depth_first.specs.Frames.{FramesValue};

    ghost Value = { FramesValue };

    ghost view = { λ w. record { marks = w.marks.items; begun = reverse w.begun.items; order = reverse w.order.items; stack = reverse w.stack.items } };
}

impl Frames {
    // The state before a walk over this many nodes.
    pub(crate) fn make(alloc: Global, count: usize) -> Result<Frames, AllocError>
        ensures { IfOk result (λ w. w ≡ record { marks = replicate count New; begun = []; order = []; stack = [] }) }
    {
        let marks = vec![in alloc; Mark::New; count]?;
        Ok(Frames {
            marks,
            begun: Vec::new(alloc),
            order: Vec::new(alloc),
            stack: Vec::new(alloc),
        })
    }

    // The mark of a node.
    pub(crate) fn mark(&self, n: u32) -> Mark
        requires { n < length self.now.marks }
        ensures { slice_get self.now.marks n ≡ Some result }
    {
        self.marks[n as usize]
    }

    // Whether the mark of a node says that it is on the path.
    pub(crate) fn is_on_path(&self, n: u32) -> bool
        ensures { result ≡ has_path_mark (slice_get self.now.marks n) }
    {
        match self.marks.get(n as usize) {
            None => false,
            Some(Mark::New) => false,
            Some(Mark::OnPath) => true,
            Some(Mark::Done) => false,
        }
    }

    // The nodes that were entered, in this order.
    pub(crate) fn begun(&self) -> &[u32]
        ensures { reverse result.now ≡ self.now.begun }
    {
        &self.begun
    }

    // How many nodes were entered.
    pub(crate) fn begun_count(&self) -> usize
        ensures { result ≡ length self.now.begun }
    {
        self.begun.len()
    }

    // How many nodes are done.
    pub(crate) fn done_count(&self) -> usize
        ensures { result ≡ length self.now.order }
    {
        self.order.len()
    }

    // The nodes that are done, in the order in which they were left.
    pub(crate) fn order(&self) -> &[u32]
        ensures { reverse result.now ≡ self.now.order }
    {
        &self.order
    }

    // The path.
    pub(crate) fn stack(&self) -> &[Frame]
        ensures { reverse result.now ≡ self.now.stack }
    {
        &self.stack
    }

    // The last frame of the path.
    pub(crate) fn top(&self) -> Option<Frame>
        ensures { result ≡ first_of self.now.stack }
    {
        self.stack.last().copied()
    }

    // Pushes a node onto the path. Its first edge is next.
    pub(crate) fn enter(&mut self, n: u32) -> Result<(), AllocError>
        requires { n < length self.old.marks }
        ensures ok { OnOk result (self.new ≡ entered self.old n) }
        ensures err { OnErr result (self.new ≡ self.old) }
    {
        self.begun.reserve(1)?;
        self.stack.reserve(1)?;
        let _begun = self.begun.push(n);
        let _done = self.stack.push(Frame { node: n, place: 0 });
        self.marks[n as usize] = Mark::OnPath;
        Ok(())
    }

    // Advances to the next edge of `frame`, which is the last one of the path.
    pub(crate) fn advance(&mut self, frame: Frame)
        requires top { first_of self.old.stack ≡ Some frame }
        requires room { frame.place + 1 < 2 ^ 64 }
        ensures { self.new ≡ advanced self.old frame }
    {
        let _last = self.stack.pop();
        let _done = self.stack.push(Frame {
            node: frame.node,
            place: frame.place + 1,
        });
    }

    // Leaves `n`, the last node of the path.
    pub(crate) fn finish(&mut self, n: u32) -> Result<(), AllocError>
        requires { n < length self.old.marks }
        ensures ok { OnOk result (self.new ≡ finished self.old n) }
        ensures err { OnErr result (self.new ≡ self.old) }
    {
        self.order.reserve(1)?;
        let _done = self.order.push(n);
        let _last = self.stack.pop();
        self.marks[n as usize] = Mark::Done;
        Ok(())
    }

    // Removes the node that was entered last.
    fn pop_begun(&mut self) -> Option<u32>
        ensures last { result ≡ first_of self.old.begun }
        ensures rest { self.new ≡ without_begun self.old }
    {
        self.begun.pop()
    }

    // Forgets the mark of a node.
    fn renew(&mut self, n: u32)
        requires { n < length self.old.marks }
        ensures { self.new ≡ renewed self.old n }
    {
        self.marks[n as usize] = Mark::New;
    }
}

// Forgets the nodes that were entered, and with them the order and the path.
pub(crate) fn forget(frames: &mut Frames)
    requires { (n : ℕ) → In frames.old.begun n → n < length frames.old.marks }
    ensures { frames.new ≡ record { marks = forgotten frames.old.marks frames.old.begun; begun = []; order = []; stack = [] } }
{
    while let Some(n) = frames.pop_begun() {
        frames.renew(n);
    }
    frames.order.clear();
    frames.stack.clear();
}

// Removes the nodes entered last until `count` are left, and forgets their marks.
fn renew_since(frames: &mut Frames, count: usize)
    requires { (n : ℕ) → In frames.old.begun n → n < length frames.old.marks }
    ensures { frames.new ≡ renewed_since count frames.old }
{
    while frames.begun_count() > count {
        let Some(n) = frames.pop_begun() else { return };
        frames.renew(n);
    }
}

// Undoes the walk back to the point at which `begun` nodes had been entered and `order` were done, and forgets the path.
pub(crate) fn take_back(frames: &mut Frames, begun: usize, order: usize)
    requires { (n : ℕ) → In frames.old.begun n → n < length frames.old.marks }
    ensures { frames.new ≡ taken_back begun order frames.old }
{
    renew_since(frames, begun);
    frames.order.truncate(order);
    frames.stack.clear();
}

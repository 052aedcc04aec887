ghost use Rattle.std.specs.Prelude.{◌≤◌, vec_capacity};

// A join as seen from one of its two sides.
#[derive(Clone, Copy)]
pub struct Bridge {
    // its place in the journal
    pub place: u16,
    // its picture on this side
    pub near: u16,
    // its picture on the other side
    pub far: u16,
}

// How a tree hangs: the picture that its root hangs below, and the join that hung it there, as seen from the tree.
#[derive(Clone, Copy)]
pub struct Hook {
    pub above: u16,
    pub bridge: Bridge,
}

// A picture in the forest.
#[derive(Clone, Copy)]
pub struct Node {
    // the number of pictures in its tree
    pub size: u16,
    // how it hangs below another, unless it is a root
    pub hook: Option<Hook>,
}

// Pictures in trees: the node of picture p is at place p, and place 0 is not used. No call allocates, so nodes are named by number and are not boxed.
#[derive(Drop)]
pub struct Trees {
    nodes: Vec<Node>,
}

// The joins of a journal as a forest: each hangs the root of one tree below the root of another, the smaller tree below the larger, so that trees stay
// low; the places of the joins rise from a picture towards its root. A forest that is out of step with its journal is safe, and of little use.
#[derive(Drop)]
pub struct Forest {
    trees: Trees,
    // the picture that each join hung below another, beside the journal, which is the sheet's
    hung: Vec<u16>,
    ghost room: { 1024 ≤ vec_capacity hung },
}

// trees, and where their hooks lead
mod hooks;
// the calls
pub mod calls;

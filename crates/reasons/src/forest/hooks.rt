use crate::forest::{Bridge, Hook, Node, Trees};
use congruence::Join;
use std::alloc::{AllocError, Global};

// A picture alone in its tree.
const ALONE: Node = Node {
    size: 1,
    hook: None,
};

impl Bridge {
    // The join as seen from its other side.
    fn turned(self) -> Bridge {
        Bridge {
            place: self.place,
            near: self.far,
            far: self.near,
        }
    }
}

// A hook, if it was made before the other. A root is never hung.
fn if_earlier(hook: Option<Hook>, other: Option<Hook>) -> Option<Hook> {
    hook.filter(|h| other.is_none_or(|o| h.bridge.place < o.bridge.place))
}

impl Trees {
    // Pictures that are each alone.
    pub fn new(heap: Global) -> Result<Trees, AllocError> {
        let nodes = vec![in heap; ALONE; 1025]?;
        Ok(Trees { nodes })
    }

    // The node of a picture, which is alone where there is none.
    fn node(&self, p: u16) -> Node {
        self.nodes.get(p as usize).copied().unwrap_or(ALONE)
    }

    // The root of the tree of a picture.
    fn root(&self, p: u16) -> u16 {
        let mut x = p;
        for _ in 0..16 {
            let Some(hook) = self.node(x).hook else {
                return x;
            };
            x = hook.above;
        }
        x
    }

    // Hangs the tree of one root below another root.
    fn hang(&mut self, lost: u16, hook: Hook) {
        let size = self.node(lost).size;
        if let Some(heir) = self.nodes.get_mut(hook.above as usize) {
            heir.size = heir.size.wrapping_add(size);
        }
        if let Some(node) = self.nodes.get_mut(lost as usize) {
            node.hook = Some(hook);
        }
    }

    // Hangs the smaller tree of a join below the larger, and answers the root that it hung.
    pub fn graft(&mut self, join: &Join, place: u16) -> u16 {
        let left = self.root(join.left);
        let right = self.root(join.right);
        let bridge = Bridge {
            place,
            near: join.left,
            far: join.right,
        };
        let (lost, hook) = if self.node(left).size < self.node(right).size {
            (
                left,
                Hook {
                    above: right,
                    bridge,
                },
            )
        } else {
            (
                right,
                Hook {
                    above: left,
                    bridge: bridge.turned(),
                },
            )
        };
        if left != right {
            self.hang(lost, hook);
        }
        lost
    }

    // Makes a picture a root again, if it was the join at this place that hung it.
    pub fn release(&mut self, picture: u16, place: usize) {
        let Node {
            size,
            hook: Some(hook),
        } = self.node(picture)
        else {
            return;
        };
        if hook.bridge.place as usize != place {
            return;
        }
        if let Some(heir) = self.nodes.get_mut(hook.above as usize) {
            heir.size = heir.size.wrapping_sub(size);
        }
        if let Some(node) = self.nodes.get_mut(picture as usize) {
            node.hook = None;
        }
    }

    // The last join that put two pictures together, as seen from the first; none where no join did. The lower of two places is the next on the way.
    pub fn last_join(&self, x: u16, y: u16) -> Option<Bridge> {
        let mut here = x;
        let mut there = y;
        let mut last = None;
        for _ in 0..32 {
            if here == there {
                return last;
            }
            let a = self.node(here).hook;
            let b = self.node(there).hook;
            if let Some(hook) = if_earlier(a, b) {
                last = Some(hook.bridge);
                here = hook.above;
            } else if let Some(hook) = if_earlier(b, a) {
                last = Some(hook.bridge.turned());
                there = hook.above;
            } else {
                return None;
            }
        }
        None
    }
}

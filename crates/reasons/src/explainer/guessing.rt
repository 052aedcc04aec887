use crate::explainer::{Explainer, Pair};
use crate::forest::Bridge;
use crate::inputs::inputs_of_both;
use crate::question::Question;
use congruence::{Cause, Join, Picture};
use keepers::{Keeper, is_same, populate};

impl<S: Keeper> Explainer<S> {
    // Lets a pair wait, if it is of two pictures and there is room.
    fn push(&mut self, here: u16, there: u16) {
        if here != there && self.todo.len() < 1024 {
            self.todo.push_reserved(Pair { here, there });
        }
    }

    // Marks the last join that put two pictures together, and answers it; none where marked joins join them already, or no join does.
    fn mark(&mut self, pair: Pair) -> Option<Bridge> {
        if let Ok(true) = is_same(&mut self.scratch, pair.here, pair.there) {
            return None;
        }
        let bridge = self.forest.last_join(pair.here, pair.there)?;
        if let Some(mark) = self.marks.get_mut(bridge.place as usize) {
            *mark = true;
        }
        let _ = self.scratch.join(bridge.near, bridge.far);
        Some(bridge)
    }

    // Marks the joins on the way from one picture to another: the last of them, and then those on the way to it from either side.
    fn need(&mut self, here: u16, there: u16) {
        self.todo.clear();
        self.push(here, there);
        for _ in 0..2048 {
            let Some(pair) = self.todo.pop() else {
                return;
            };
            if let Some(bridge) = self.mark(pair) {
                self.push(pair.here, bridge.near);
                self.push(bridge.far, pair.there);
            }
        }
    }

    // Marks the joins that a join stands on: for twins those between their inputs, pair by pair.
    fn need_inputs(&mut self, pictures: &[Picture], join: &Join) {
        let Cause::Twins = join.cause else {
            return;
        };
        let Some((left, right)) = inputs_of_both(pictures, join) else {
            return;
        };
        for (x, y) in left.iter().zip(right) {
            self.need(*x, *y);
        }
    }

    // Marks the joins that two pictures need. A join stands on earlier ones alone, so one look from the last to the first finds them all.
    pub fn guess(&mut self, asked: &Question) {
        self.marks.fill(false);
        let _ = populate(&mut self.scratch, asked.pictures.len());
        self.need(asked.a, asked.b);
        for (i, join) in asked.journal.iter().enumerate().rev() {
            if self.marks.get(i) == Some(&true) {
                self.need_inputs(asked.pictures, join);
            }
        }
    }
}

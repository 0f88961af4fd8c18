//! A partition of a list's operations, and how it is changed.

use crate::NoMemory;
use crate::rows::Row;
use crate::ties::{Ties, Touched};
use arr_ops::Plan;
use std::alloc::Global;

/// Some operations that leave their block for another.
#[derive(Clone, Copy)]
pub(crate) struct Move {
    pub(crate) moved: Row,
    pub(crate) from: u8,
    pub(crate) to: u8,
}

/// The blocks of operations that are no FREE, by labels: for each operation its label, and for each label the operations, those that
/// they have to stand behind, and the place in the order of blocks. A FREE has the label of the last user of its base.
#[derive(Drop)]
pub(crate) struct Partition {
    labels: [u8; 256],
    blocks: [Row; 256],
    needs: [Row; 256],
    places: [u8; 256],
}

impl Partition {
    /// The blocks of a plan.
    pub(crate) fn of(plan: &Plan, ties: &Ties) -> Partition {
        let mut partition = Partition {
            labels: [0; 256],
            blocks: [Row::EMPTY; 256],
            needs: [Row::EMPTY; 256],
            places: [0; 256],
        };
        for (place, block) in plan.blocks.iter().enumerate() {
            for number in block {
                if place < 256 && *number > 0 && *number <= 256 {
                    partition.put(ties, (*number - 1) as u8, place as u8);
                }
            }
        }
        partition
    }

    /// Puts an operation into a block.
    fn put(&mut self, ties: &Ties, f: u8, label: u8) {
        self.labels[f as usize] = label;
        if !ties.frees.has(f) {
            let place = label as usize;
            self.blocks[place].insert(f);
            self.needs[place] = self.needs[place].with(&ties.needs[f as usize]);
        }
    }

    pub(crate) fn label(&self, f: u8) -> u8 {
        self.labels[f as usize]
    }

    pub(crate) fn block(&self, label: u8) -> Row {
        self.blocks[label as usize]
    }

    /// A label below the count of operations that no block has.
    pub(crate) fn fresh(&self, ties: &Ties) -> Option<u8> {
        for label in 0..256_usize {
            if ties.all.has(label as u8) && self.blocks[label].is_empty() {
                return Some(label as u8);
            }
        }
        None
    }

    /// What the operations of a block have to stand behind.
    fn needs_of(&self, ties: &Ties, label: u8) -> Row {
        let mut rest = self.blocks[label as usize];
        let mut needs = Row::EMPTY;
        for _ in 0..256 {
            let Some(f) = rest.first() else {
                return needs;
            };
            rest.remove(f);
            needs = needs.with(&ties.needs[f as usize]);
        }
        needs
    }

    /// Whether each operation that moves may share a block with those that are there.
    fn fits(&self, ties: &Ties, step: &Move) -> bool {
        let block = self.blocks[step.to as usize];
        let mut rest = step.moved;
        for _ in 0..256 {
            let Some(f) = rest.first() else {
                return true;
            };
            rest.remove(f);
            if !block.is_within(&ties.fuses[f as usize]) {
                return false;
            }
        }
        true
    }

    /// Moves operations.
    fn shift(&mut self, ties: &Ties, step: &Move) {
        let (from, to) = (step.from as usize, step.to as usize);
        self.blocks[from] = self.blocks[from].without(&step.moved);
        self.blocks[to] = self.blocks[to].with(&step.moved);
        self.needs[from] = self.needs_of(ties, step.from);
        self.needs[to] = self.needs_of(ties, step.to);
        let mut rest = step.moved;
        for _ in 0..256 {
            let Some(f) = rest.first() else {
                return;
            };
            rest.remove(f);
            self.labels[f as usize] = step.to;
        }
    }

    /// Of the blocks that are not placed yet and need nothing but what is, the one with the least operation.
    fn ready(&self, ties: &Ties, placed: &Row) -> Option<u8> {
        let mut rest = ties.all.without(placed);
        for _ in 0..256 {
            let label = self.labels[rest.first()? as usize];
            let block = self.blocks[label as usize];
            if self.needs[label as usize].is_within(&placed.with(&block)) {
                return Some(label);
            }
            rest = rest.without(&block);
        }
        None
    }

    /// Puts the blocks into an order, if they have one.
    fn order(&mut self, ties: &Ties) -> bool {
        let mut placed = ties.frees;
        for place in 0..256_usize {
            let Some(label) = self.ready(ties, &placed) else {
                return ties.all.is_within(&placed);
            };
            self.places[label as usize] = place as u8;
            placed = placed.with(&self.blocks[label as usize]);
        }
        ties.all.is_within(&placed)
    }

    /// The label of those of some operations that stand last.
    fn last_label(&self, users: &[u8]) -> u8 {
        let mut last = 0;
        let mut place = 0;
        for user in users {
            let label = self.labels[*user as usize];
            if self.places[label as usize] >= place {
                place = self.places[label as usize];
                last = label;
            }
        }
        last
    }

    /// Puts each FREE to the last user of its base.
    fn settle(&mut self, ties: &Ties) {
        for release in &ties.releases {
            self.labels[release.op as usize] = self.last_label(release.users.as_slice());
        }
    }

    fn is_apart(&self, f: u8, other: Option<u8>) -> bool {
        match other {
            Some(g) => self.labels[f as usize] != self.labels[g as usize],
            None => true,
        }
    }

    /// What the blocks pay for a class of views, in bytes.
    fn price_of(&self, class: &Touched) -> u64 {
        let mut paying = Row::EMPTY;
        for f in &class.readers {
            if self.is_apart(*f, class.creator) {
                paying.insert(self.labels[*f as usize]);
            }
        }
        for f in &class.writers {
            if self.is_apart(*f, class.freer) {
                paying.insert(self.labels[*f as usize]);
            }
        }
        class.weight.saturating_mul(paying.len() as u64)
    }

    /// What the blocks cost, in bytes, with each FREE at the last user of its base, if they have an order.
    pub(crate) fn price(&mut self, ties: &Ties) -> Option<u64> {
        if !self.order(ties) {
            return None;
        }
        self.settle(ties);
        let mut sum: u64 = 0;
        for class in &ties.classes {
            sum = sum.saturating_add(self.price_of(class));
        }
        Some(sum)
    }

    /// The label of each operation, as many as the list has, with each FREE at the last user of its base.
    pub(crate) fn all_labels(
        &mut self,
        alloc: Global,
        ties: &Ties,
        count: u32,
    ) -> Result<Vec<u32>, NoMemory> {
        if self.order(ties) {
            self.settle(ties);
        }
        let mut labels = Vec::new(alloc);
        for f in 0..count.min(256) {
            labels.push(self.label(f as u8) as u32)?;
        }
        Ok(labels)
    }

    /// Takes a move where the blocks stay lawful and cost no more than this, in bytes, and answers what they cost then.
    pub(crate) fn take(&mut self, ties: &Ties, step: &Move, cost: u64) -> Option<u64> {
        if !self.fits(ties, step) {
            return None;
        }
        self.shift(ties, step);
        match self.price(ties) {
            Some(price) if price <= cost => Some(price),
            _ => {
                self.shift(
                    ties,
                    &Move {
                        moved: step.moved,
                        from: step.to,
                        to: step.from,
                    },
                );
                None
            }
        }
    }
}

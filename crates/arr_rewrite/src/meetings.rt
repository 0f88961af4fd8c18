//! Which views overlap, as the classes of a list's views tell it.
ghost use Rattle.std.specs.Prelude.{◌≡◌, IfOk, IfSome};
ghost use Rattle.arr_view.specs.Views.{overlap};

use arr_ops::Op;
use arr_overlap::{Classes, overlaps};
use arr_view::{MOST_ELEMENTS, View};
use std::alloc::{AllocError as NoMemory, Global};

/// The views of a list that a rule may ask for, and their classes once one does. A rule makes no new view, so these classes serve the
/// lists that come of it too.
#[derive(Drop)]
pub(crate) struct Meetings {
    alloc: Global,
    views: Vec<View>,
    classes: Option<Classes>,
}

impl Meetings {
    /// Those of the list: its outputs, and what creators read. Nothing is decided yet.
    pub(crate) fn new(alloc: Global, ops: &[Op]) -> Result<Meetings, NoMemory> {
        let mut views = Vec::new(alloc);
        for op in ops {
            gather(&mut views, op.out_view())?;
            if op.makes {
                gather(&mut views, op.first_view())?;
                gather(&mut views, op.second_view())?;
            }
        }
        Ok(Meetings {
            alloc,
            views,
            classes: None,
        })
    }

    /// Whether the views overlap. A walk over elements is made only where one of them is not of the list.
    pub(crate) fn overlap(&mut self, left: &View, right: &View) -> Result<bool, NoMemory>
        ensures { IfOk result (λ b. b ≡ overlap left.now right.now) }
    {
        if left.base() != right.base() {
            return Ok(false);
        }
        self.classify()?;
        match self.told(left, right) {
            Some(meets) => Ok(meets),
            None => overlaps(self.alloc, left, right),
        }
    }

    /// Finds the classes, the first time.
    fn classify(&mut self) -> Result<(), NoMemory> {
        if self.classes.is_none() && self.views.len() <= MOST_ELEMENTS as usize {
            self.classes = Some(Classes::of(self.alloc, self.views.as_slice())?);
        }
        Ok(())
    }

    /// What the classes tell; nothing where one of the views has none.
    fn told(&self, left: &View, right: &View) -> Option<bool>
        ensures { IfSome result (λ b. b ≡ overlap left.now right.now) }
    {
        let Some(classes) = &self.classes else {
            return None;
        };
        let Some(first) = classes.class(left) else {
            return None;
        };
        let Some(second) = classes.class(right) else {
            return None;
        };
        Some(classes.meets(first, second))
    }
}

/// Keeps an equal view, if there is one.
fn gather(views: &mut Vec<View>, view: Option<&View>) -> Result<(), NoMemory> {
    if let Some(view) = view {
        views.push(view.copied())?;
    }
    Ok(())
}

//! Additions that follow one another in a block, each of what the one before it gives.
ghost use Rattle.std.specs.Prelude.{◌≡◌, ◌+◌, ◌<◌, ◌≤◌, IfSome, length};
ghost use Rattle.arr_machine.specs.Chains.{Follow, Follows, IsSumAt, addition_task, additions};

use crate::task::Task;
use arr_lanes::{Sum, Work};
use arr_num::{Code, Elem};

/// An addition: the lanes that it adds, their type, the lane that it is for, and whether no operation behind the next one reads that.
#[derive(Debug, Clone, Copy)]
struct Addition {
    first: u32,
    second: u32,
    to: Elem,
    dest: u32,
    is_link: bool,
}

/// The addition that a task is, if it is one.
fn addition_of(task: Task) -> Option<Addition>
    ensures { IfSome result (λ addition. addition_task addition ≡ task) }
{
    let (line, is_link) = match task {
        Task::Line(line) => (line, false),
        Task::Link(line) => (line, true),
        _ => return None,
    };
    match line.work {
        Work::Arithmetic(Code::Add, first, second) => Some(Addition {
            first,
            second,
            to: line.to,
            dest: line.dest,
            is_link,
        }),
        _ => None,
    }
}

/// The addition at an index, if it adds another lane to what the one before it gives, and that is needed no longer.
fn next_addition(tasks: &[Task], index: usize, before: Addition) -> Option<Addition>
    ensures { IfSome result (Follows tasks.now index before) }
{
    if !before.is_link || index >= tasks.len() {
        return None;
    }
    let next = addition_of(tasks[index])?;
    if next.first == before.dest && next.second != before.dest {
        Some(next)
    } else {
        None
    }
}

/// The two additions from an index on, if each adds to what the one before it gives.
fn next_two(tasks: &[Task], index: usize, before: Addition) -> Option<(Addition, Addition)>
    requires { index ≤ length tasks.now }
    ensures { IfSome result (Follow tasks.now index before) }
{
    let first = next_addition(tasks, index, before)?;
    let second = next_addition(tasks, index + 1, first)?;
    Some((first, second))
}

/// The sum that the tasks from an index on compute, two or four of them, if they are additions that follow one another.
pub(crate) fn sum_at(tasks: &[Task], index: usize) -> Option<Sum>
    requires { index < length tasks.now }
    ensures { IfSome result (IsSumAt tasks.now index) }
{
    let start = addition_of(tasks[index])?;
    let last = next_addition(tasks, index + 1, start)?;
    let sum = Sum {
        first: start.first,
        second: start.second,
        third: last.second,
        more: None,
        to: start.to,
        dest: last.dest,
    };
    match next_two(tasks, index + 2, last) {
        Some((third, fourth)) => Some(Sum {
            more: Some((third.second, fourth.second)),
            dest: fourth.dest,
            ..sum
        }),
        None => Some(sum),
    }
}

/// How many additions a sum takes.
pub(crate) fn additions(sum: Sum) -> usize
    ensures { result ≡ additions sum }
{
    if sum.more.is_some() { 4 } else { 2 }
}

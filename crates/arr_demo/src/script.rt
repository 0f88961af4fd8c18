//! Lines of the demo's script, and the whole of it.
ghost use Rattle.std.specs.Prelude.{◌≡◌, ◌≤◌, ◌++◌, OnOk, IfOk, string_bytes};
ghost use Rattle.arr_demo.specs.Script as spec;

use crate::part::Part;
use rand_core::SeedableRng;
use rand_core::utils::NextWord;
use rand_pcg::Pcg32;
use std::alloc::{AllocError, Global};
use std::fmt::Write;

fn write_opening(text: &mut String, rows: u32, columns: u32) -> Result<(), AllocError>
    requires { (rows ≤ 64) × (columns ≤ 64) }
    ensures { OnOk result (string_bytes text.new ≡ string_bytes text.old ++ spec.opening rows columns) }
{
    writeln!(
        text,
        "g = reshape(range({}), [{rows}, {columns}]) % 97",
        rows * columns
    )
}

fn write_sums(text: &mut String, rows: u32, columns: u32) -> Result<(), AllocError>
    requires { (2 ≤ rows) × (2 ≤ columns) }
    ensures { OnOk result (string_bytes text.new ≡ string_bytes text.old ++ spec.sums rows columns) }
{
    let here = Part::new(1..rows - 1, 1..columns - 1);
    let above = Part::new(0..rows - 2, 1..columns - 1);
    let below = Part::new(2..rows, 1..columns - 1);
    let left = Part::new(1..rows - 1, 0..columns - 2);
    let right = Part::new(1..rows - 1, 2..columns);
    writeln!(text, "c = {here} + {above} + {below} + {left} + {right}")
}

fn write_inside(text: &mut String, rows: u32, columns: u32) -> Result<(), AllocError>
    requires { (2 ≤ rows) × (2 ≤ columns) }
    ensures { OnOk result (string_bytes text.new ≡ string_bytes text.old ++ spec.inside rows columns) }
{
    let here = Part::new(1..rows - 1, 1..columns - 1);
    writeln!(text, "{here} = c / 5")
}

fn write_slide(text: &mut String, columns: u32, added: u32) -> Result<(), AllocError>
    requires { 2 ≤ columns }
    ensures { OnOk result (string_bytes text.new ≡ string_bytes text.old ++ spec.slide columns added) }
{
    writeln!(
        text,
        "g[:, 1:{columns}] = g[:, 0:{}] + {added}",
        columns - 1
    )
}

fn write_turn(text: &mut String, rows: u32, columns: u32, word: u32) -> Result<(), AllocError>
    requires { (2 ≤ rows) × (2 ≤ columns) }
    ensures { OnOk result (string_bytes text.new ≡ string_bytes text.old ++ spec.turn rows columns word) }
{
    match word % 4 {
        0 => {
            write_sums(text, rows, columns)?;
            write_inside(text, rows, columns)
        }
        1 => write_slide(text, columns, word / 65536 % 100),
        2 => text.push_str("s = sum(g, 0)\ng[:] = g - s % 7\n"),
        _ => text.push_str("g[:] = cumsum(g, 1) & 65535\n"),
    }
}

/// The script of a number: at most 16 turns of a grid of at most 64 rows and columns (docs/DEMO.md, "The script"). An error comes where memory
/// is wanting, and nothing else.
pub fn demo_script(alloc: Global, number: u64) -> Result<String, AllocError>
    ensures { IfOk result (λ text. string_bytes text ≡ spec.demo_script number) }
{
    let mut words = Pcg32::seed_from_u64(number);
    let rows = 8 + words.next_word() % 57;
    let columns = 8 + words.next_word() % 57;
    let turns = 4 + words.next_word() % 13;
    let mut text = String::new(alloc);
    write_opening(&mut text, rows, columns)?;
    'turns: for _ in 0..turns {
        write_turn(&mut text, rows, columns, words.next_word())?;
    }
    text.push_str("print g\nprint sum(sum(g, 0), 0)\n")?;
    Ok(text)
}

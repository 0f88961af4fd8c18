//! The lines of a demo but for its arrays (docs/DEMO.md, "What it prints").
ghost use Rattle.std.specs.Prelude.{◌≡◌, ◌++◌, IfOk, OnOk, decimal};
ghost use Rattle.arr_run.specs.Demo.{feeds, plan_words, script_line, summary_text};

use arr_io::NoMemory;
use itoa::Buffer;
use std::alloc::Global;

/// What there is to tell of a flush.
#[derive(Clone, Copy, Debug)]
pub(crate) struct Summary {
    /// Its number, from 1 on.
    pub(crate) number: u32,
    /// How many operations were recorded, and how many are left of them.
    pub(crate) recorded: u32,
    pub(crate) rewritten: u32,
    /// How many blocks the plan has.
    pub(crate) blocks: u32,
    /// What the plan costs, and what no legal plan costs less than, in bytes.
    pub(crate) cost: u64,
    pub(crate) bound: u64,
    /// How many steps and branches the search took.
    pub(crate) units: u64,
    /// How many bytes were loaded and stored, and how many buffers were made.
    pub(crate) loads: u64,
    pub(crate) stores: u64,
    pub(crate) made: u64,
}

/// How many line feeds a text has.
fn feeds(text: &[u8]) -> usize
    ensures { result ≡ feeds text.now }
{
    let mut count = 0;
    for byte in text {
        if *byte == b'\n' {
            count += 1;
        }
    }
    count
}

/// The first line of a demo: how many bytes and lines its script has.
#[tactic(auto, unfolding(crate::specs::Demo::script_line))]
pub(crate) fn script_line(alloc: Global, script: &[u8]) -> Result<Vec<u8>, NoMemory>
    ensures { IfOk result (λ text. text.items ≡ script_line script.now) }
{
    let mut buffer = Buffer::new();
    let mut text = Vec::from_slice(alloc, b"script bytes ")?;
    text.extend_from_slice(buffer.format(script.len()).as_bytes())?;
    text.extend_from_slice(b" lines ")?;
    text.extend_from_slice(buffer.format(feeds(script)).as_bytes())?;
    text.extend_from_slice(b"\n")?;
    Ok(text)
}

/// Appends a number behind its label.
fn append_number(text: &mut Vec<u8>, label: &[u8], number: u64) -> Result<(), NoMemory>
    ensures { OnOk result (text.new.items ≡ text.old.items ++ label.now ++ decimal number) }
{
    let mut buffer = Buffer::new();
    text.extend_from_slice(label)?;
    text.extend_from_slice(buffer.format(number).as_bytes())
}

/// The words of a flush up to its units.
#[tactic(auto, unfolding(crate::specs::Demo::plan_words))]
fn plan_words(alloc: Global, summary: Summary) -> Result<Vec<u8>, NoMemory>
    ensures { IfOk result (λ text. text.items ≡ plan_words summary) }
{
    let mut text = Vec::new(alloc);
    append_number(&mut text, b"flush ", u64::from(summary.number))?;
    append_number(&mut text, b" recorded ", u64::from(summary.recorded))?;
    append_number(&mut text, b" rewritten ", u64::from(summary.rewritten))?;
    append_number(&mut text, b" blocks ", u64::from(summary.blocks))?;
    append_number(&mut text, b" cost ", summary.cost)?;
    append_number(&mut text, b" bound ", summary.bound)?;
    append_number(&mut text, b" units ", summary.units)?;
    Ok(text)
}

/// The line of a flush.
#[tactic(auto, unfolding(crate::specs::Demo::summary_text))]
pub(crate) fn summary_line(alloc: Global, summary: Summary) -> Result<Vec<u8>, NoMemory>
    ensures { IfOk result (λ text. text.items ≡ summary_text summary) }
{
    let mut text = plan_words(alloc, summary)?;
    text.extend_from_slice(b" ")?;
    text.extend_from_slice(if summary.bound == summary.cost {
        b"optimal"
    } else {
        b"budget"
    })?;
    append_number(&mut text, b" loads ", summary.loads)?;
    append_number(&mut text, b" stores ", summary.stores)?;
    append_number(&mut text, b" made ", summary.made)?;
    text.extend_from_slice(b"\n")?;
    Ok(text)
}

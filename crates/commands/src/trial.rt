//! The words and the files of a trial: a square grid of n times n cells, ten units wide, made in
//! memory.
//!
//! Memory is reserved once, for the longest objects that a grid can have, so that the text of a
//! transfer is never copied. Time and memory are in proportion to n times n; the transfer of 500
//! times 500 cells has 38,288,444 bytes.
ghost use Rattle.std.specs.Prelude.{◌≡◌, ◌≤◌, ◌++◌, ℕ, List, length, IfOk, IfSome, IfNone, OnOk};
ghost use Rattle.commands.specs.Commands.{limit_of};
ghost use Rattle.commands.specs.TrialFiles.{IsSize, model_text as the_model};
ghost use Rattle.commands.specs.TrialFiles.{transfer_text as the_transfer};
ghost use Rattle.commands.specs.TrialFiles.{corner as corner_of, middle as middle_of};
ghost use Rattle.commands.specs.TrialFiles.{head, each, level, upright, cell};
ghost use Rattle.commands.specs.TrialFiles.{levels, uprights, cells};

mod objects;
mod words;

use crate::files::File;
use crate::text::Text;
use itoa::Buffer;
use objects::Place;
use ports::Memory;
use std::alloc::Global;
pub use words::{TrialWords, one_trial, trial_of};

const MODEL: &[u8] = b"TRANSFER Trial;\nDOMAIN\nKoord = COORD2 0.000 0.000 5000.000 5000.000;\n\
MODEL Trial\nTOPIC Grid =\nTABLE Cell =\nForm: AREA WITH (STRAIGHTS) VERTEX Koord;\nNO IDENT\n\
END Cell;\nEND Grid.\nEND Trial.\nFORMAT FREE;\n\
CODE BLANK = DEFAULT, UNDEFINED = DEFAULT, CONTINUE = DEFAULT; TID = ANY; END.\n";

const HEAD: &[u8] = b"SCNT\n////\nMTID Trial\nMODL Trial\nTOPI Grid\nTABL Cell_Form\n";

const BETWEEN: &[u8] = b"ETAB\nTABL Cell\n";

const END: &[u8] = b"ETAB\nETOP\nEMOD\nENDE\n";

// More bytes than the longest object of a straight has, or that of a cell.
const STRAIGHT_ROOM: usize = 64;

const CELL_ROOM: usize = 32;

// Cells are ten units wide.
fn corner(i: u32, j: u32) -> Place
    requires { (i ≤ 500) × (j ≤ 500) }
    ensures { result ≡ corner_of i j }
{
    Place {
        x: 10 * i,
        y: 10 * j,
    }
}

fn middle(i: u32, j: u32) -> Place
    requires { (i ≤ 500) × (j ≤ 500) }
    ensures { result ≡ middle_of i j }
{
    Place {
        x: 10 * i + 5,
        y: 10 * j + 5,
    }
}

/// The size of a trial that a word spells.
pub fn size_of(word: &str) -> Option<u32>
    ensures some { IfSome result (λ n. IsSize word.now n) }
    ensures none { IfNone result ((n : ℕ) → IsSize word.now n → ⊥) }
{
    let size: u32 = word.parse().ok()?;
    let mut buffer = Buffer::new();
    if 1 <= size && size <= 500 && buffer.format(size) == word {
        Some(size)
    } else {
        None
    }
}

/// The text of the model, the same for all sizes. The only error is out of memory.
pub fn model_text(alloc: Global) -> Result<Vec<u8>, Memory>
    ensures { IfOk result (λ text. text.items ≡ the_model) }
{
    let text = Vec::from_slice(alloc, MODEL)?;
    Ok(text)
}

// A row of straights, each from a corner to the next one on its right.
fn add_level_row(text: &mut Text, n: u32, j: u32) -> Result<(), Memory>
    requires { (n ≤ 500) × (j ≤ n) }
    ensures { OnOk result (text.new ≡ text.old ++ each n (level n j)) }
{
    for i in 0..n {
        text.add_straight(j * n + i + 1, corner(i, j), corner(i + 1, j))?;
    }
    Ok(())
}

fn add_levels(text: &mut Text, n: u32) -> Result<(), Memory>
    requires { n ≤ 500 }
    ensures { OnOk result (text.new ≡ text.old ++ levels n) }
{
    for j in 0..n + 1 {
        add_level_row(text, n, j)?;
    }
    Ok(())
}

// A column of straights, each from a corner to the next one above it.
fn add_upright_row(text: &mut Text, n: u32, i: u32) -> Result<(), Memory>
    requires { (n ≤ 500) × (i ≤ n) }
    ensures { OnOk result (text.new ≡ text.old ++ each n (upright n i)) }
{
    for j in 0..n {
        text.add_straight(n * (n + 1) + i * n + j + 1, corner(i, j), corner(i, j + 1))?;
    }
    Ok(())
}

fn add_uprights(text: &mut Text, n: u32) -> Result<(), Memory>
    requires { n ≤ 500 }
    ensures { OnOk result (text.new ≡ text.old ++ uprights n) }
{
    for i in 0..n + 1 {
        add_upright_row(text, n, i)?;
    }
    Ok(())
}

// A row of cells.
fn add_cell_row(text: &mut Text, n: u32, j: u32) -> Result<(), Memory>
    requires { (n ≤ 500) × (j ≤ n) }
    ensures { OnOk result (text.new ≡ text.old ++ each n (cell n j)) }
{
    for i in 0..n {
        text.add_cell(j * n + i + 1, middle(i, j))?;
    }
    Ok(())
}

fn add_cells(text: &mut Text, n: u32) -> Result<(), Memory>
    requires { n ≤ 500 }
    ensures { OnOk result (text.new ≡ text.old ++ cells n) }
{
    for j in 0..n {
        add_cell_row(text, n, j)?;
    }
    Ok(())
}

// The transfer as far as its straights.
fn straights_text(alloc: Global, n: u32) -> Result<Text, Memory>
    requires { n ≤ 500 }
    ensures { IfOk result (λ text. text ≡ head ++ levels n ++ uprights n) }
{
    let mut text = Text::with_room(alloc, room(n))?;
    text.add(HEAD)?;
    add_levels(&mut text, n)?;
    add_uprights(&mut text, n)?;
    Ok(text)
}

/// The text of the transfer of a grid of n times n cells. The only error is out of memory.
pub fn transfer_text(alloc: Global, n: u32) -> Result<Vec<u8>, Memory>
    requires { n ≤ 500 }
    ensures { IfOk result (λ text. text.items ≡ the_transfer n) }
{
    let mut text = straights_text(alloc, n)?;
    text.add(BETWEEN)?;
    add_cells(&mut text, n)?;
    text.add(END)?;
    Ok(text.into_bytes())
}

// At least as many bytes as the text of a transfer has.
fn room(n: u32) -> usize
    requires { n ≤ 500 }
{
    let n = n as usize;
    2 * n * (n + 1) * STRAIGHT_ROOM + n * n * CELL_ROOM + 128
}

/// A word spells at most one size.
pub fn one_size()
    ensures { (word : List ℕ) (m n : ℕ) → IsSize word m → IsSize word n → m ≡ n }
{}

/// The files of a trial are within the limits of a model and of a transfer.
pub fn files_are_short()
    ensures model { length the_model ≤ limit_of File.Model }
    ensures transfer { (n : ℕ) → n ≤ 500 → length (the_transfer n)
        ≤ limit_of File.Transfer }
{
    decimals::written_is_short();
}
